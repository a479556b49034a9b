use crate::{
    Deny, Failed, Items, MemSink, MemSource, Memory, Sink, Source, Spot, StdSink, StdSource,
    SureSink, SureSource, TokenKind, lex, read_all, write_all,
};
use std::alloc::Global;
use std::io::{self, Read, Write};
use std::test::Fail;

// The tokens of a source, a line each: the kind, the place, and the offsets. Or the refusal.
fn shown(alloc: Global, source: &str) -> Result<String, Fail> {
    shown_bytes(alloc, source.as_bytes())
}

fn shown_bytes(alloc: Global, text: &[u8]) -> Result<String, Fail> {
    let mut out = String::new(alloc);
    if text.len() > 1_048_576 {
        return Ok(out);
    }
    let tokens = match lex(alloc, text) {
        Ok(tokens) => tokens,
        Err(Deny::Refused(refusal)) => {
            let Spot { line, col } = refusal.at;
            write!(out, "{} {line}:{col}", refusal.rule.printed())?;
            return Ok(out);
        }
        Err(Deny::Memory) => return Err("memory")?,
    };
    for token in tokens.as_slice() {
        match &token.kind {
            TokenKind::Name(name) => write!(out, "name {}", str::from_utf8(name.as_slice())?)?,
            TokenKind::Text(text) => write!(out, "text {}", str::from_utf8(text.as_slice())?)?,
            TokenKind::Int(value) => write!(out, "{value}")?,
            TokenKind::Word(word) => write!(out, "{word:?}")?,
            TokenKind::Sign(sign) => write!(out, "{sign:?}")?,
            TokenKind::End => write!(out, "end")?,
        }
        let Spot { line, col } = token.at;
        write!(out, " {line}:{col} {}-{}\n", token.begin, token.end)?;
    }
    Ok(out)
}

#[test]
fn lexes(rt: HostRuntime) -> Result<(), Fail> {
    for (source, want) in [
        ("", "end 1:1 0-0\n"),
        (
            "let lets Int",
            "Let 1:1 0-3\nname lets 1:5 4-8\nname Int 1:10 9-12\nend 1:13 12-12\n",
        ),
        ("12ab", "12 1:1 0-2\nname ab 1:3 2-4\nend 1:5 4-4\n"),
        ("007", "7 1:1 0-3\nend 1:4 3-3\n"),
        (
            "9223372036854775807",
            "9223372036854775807 1:1 0-19\nend 1:20 19-19\n",
        ),
        (
            "x\r\n\t_y1>>=",
            "name x 1:1 0-1\nname _y1 2:2 4-7\nAway 2:5 7-9\nAssign 2:7 9-10\nend 2:8 10-10\n",
        ),
        (
            "===!",
            "Equal 1:1 0-2\nAssign 1:3 2-3\nNot 1:4 3-4\nend 1:5 4-4\n",
        ),
        (
            "a / b // c\n/",
            "name a 1:1 0-1\nSlash 1:3 2-3\nname b 1:5 4-5\nSlash 2:1 11-12\nend 2:2 12-12\n",
        ),
        ("\t// é\u{1F600}\r\n x", "name x 2:2 13-14\nend 2:3 14-14\n"),
        (
            "größe Ωmega 変数",
            "name größe 1:1 0-7\nname Ωmega 1:9 8-14\nname 変数 1:16 15-21\nend 1:22 21-21\n",
        ),
    ] {
        assert_eq!(rt; shown(rt.alloc(), source)?.as_str(), want);
    }
    Ok(())
}

#[test]
fn tells_words_and_signs_apart(rt: HostRuntime) -> Result<(), Fail> {
    let words =
        "\tInts\n\tassert\n\tatomic\n\tbool\n\tclass\n\telse\n\texclusive\n\tfalse\n\tfreeze\n\tgroup\n\tif\n\timmutable\n\tint\n\tinto\n\tlen\n\tlent\n\tlet\n\tmethod\n\tnew\n\tnone\n\tnull\n\topen\n\tprint\n\tprotected\n\treturn\n\tshare\n\tshared\n\tsplit\n\ttake\n\tthis\n\ttrue\n\tunique\n\tvoid\n\twhile\n\twith\n";
    assert_eq!(rt;
        shown(rt.alloc(), words)?.as_str(),
        "Ints 1:2 1-5\nAssert 2:2 7-13\nAtomic 3:2 15-21\nBool 4:2 23-27\nClass 5:2 29-34\nElse 6:2 36-40\nExclusive 7:2 42-51\nFalse 8:2 53-58\nFreeze 9:2 60-66\nGroup 10:2 68-73\nIf 11:2 75-77\nImmutable 12:2 79-88\nInt 13:2 90-93\nInto 14:2 95-99\nLen 15:2 101-104\nLent 16:2 106-110\nLet 17:2 112-115\nMethod 18:2 117-123\nNew 19:2 125-128\nNone 20:2 130-134\nNull 21:2 136-140\nOpen 22:2 142-146\nPrint 23:2 148-153\nProtected 24:2 155-164\nReturn 25:2 166-172\nShare 26:2 174-179\nShared 27:2 181-187\nSplit 28:2 189-194\nTake 29:2 196-200\nThis 30:2 202-206\nTrue 31:2 208-212\nUnique 32:2 214-220\nVoid 33:2 222-226\nWhile 34:2 228-233\nWith 35:2 235-239\nend 36:1 240-240\n"
    );
    let signs =
        "\t{\n\t}\n\t(\n\t)\n\t[\n\t]\n\t<\n\t>\n\t>>\n\t,\n\t;\n\t.\n\t=\n\t==\n\t!=\n\t<=\n\t>=\n\t+\n\t-\n\t*\n\t/\n\t%\n\t!\n\t&&\n\t||\n";
    assert_eq!(rt;
        shown(rt.alloc(), signs)?.as_str(),
        "OpenBrace 1:2 1-2\nCloseBrace 2:2 4-5\nOpenParen 3:2 7-8\nCloseParen 4:2 10-11\nOpenBracket 5:2 13-14\nCloseBracket 6:2 16-17\nLess 7:2 19-20\nGreater 8:2 22-23\nAway 9:2 25-27\nComma 10:2 29-30\nSemicolon 11:2 32-33\nDot 12:2 35-36\nAssign 13:2 38-39\nEqual 14:2 41-43\nNotEqual 15:2 45-47\nLessEqual 16:2 49-51\nGreaterEqual 17:2 53-55\nPlus 18:2 57-58\nMinus 19:2 60-61\nStar 20:2 63-64\nSlash 21:2 66-67\nPercent 22:2 69-70\nNot 23:2 72-73\nAndAnd 24:2 75-77\nOrOr 25:2 79-81\nend 26:1 82-82\n"
    );
    let close = "{}()[]<=>>=,;.====!=!&&||+-*/%//";
    assert_eq!(rt;
        shown(rt.alloc(), close)?.as_str(),
        "OpenBrace 1:1 0-1\nCloseBrace 1:2 1-2\nOpenParen 1:3 2-3\nCloseParen 1:4 3-4\nOpenBracket 1:5 4-5\nCloseBracket 1:6 5-6\nLessEqual 1:7 6-8\nAway 1:9 8-10\nAssign 1:11 10-11\nComma 1:12 11-12\nSemicolon 1:13 12-13\nDot 1:14 13-14\nEqual 1:15 14-16\nEqual 1:17 16-18\nNotEqual 1:19 18-20\nNot 1:21 20-21\nAndAnd 1:22 21-23\nOrOr 1:24 23-25\nPlus 1:26 25-26\nMinus 1:27 26-27\nStar 1:28 27-28\nSlash 1:29 28-29\nPercent 1:30 29-30\nend 1:33 32-32\n"
    );
    Ok(())
}

#[test]
fn reads_texts(rt: HostRuntime) -> Result<(), Fail> {
    for (source, want) in [
        ("\"\"", "text  1:1 0-2\nend 1:3 2-2\n"),
        (
            "\"a\\n\\t\\\"\\\\b\"",
            "text a\n\t\"\\b 1:1 0-12\nend 1:13 12-12\n",
        ),
        (
            "\"// é\t\r\u{1F600}\"x",
            "text // é\t\r\u{1F600} 1:1 0-13\nname x 1:14 13-14\nend 1:15 14-14\n",
        ),
        ("\"", "L4 OpenText 1:1"),
        ("\n\t\"a", "L4 OpenText 2:2"),
        ("x \"a\n\"", "L4 OpenText 1:3"),
        ("\"a\\", "L4 OpenText 1:1"),
        ("\"a\\\n\"", "L4 OpenText 1:1"),
        ("\"a\\\"", "L4 OpenText 1:1"),
        ("\"a\\x", "L4 OpenText 1:1"),
        ("\"é\\x\"", "L2 BadChar 1:4"),
        ("\n  \"\u{1F600}\\n\\é\\q\"", "L2 BadChar 2:10"),
    ] {
        assert_eq!(rt; shown(rt.alloc(), source)?.as_str(), want, "{source}");
    }
    Ok(())
}

#[test]
fn refuses(rt: HostRuntime) -> Result<(), Fail> {
    for (source, want) in [
        (b"\xFF".as_slice(), "L1 NotText 1:1"),
        (b"#\n\tab\xC3", "L1 NotText 2:4"),
        (b"\xF0\x9F\x98\x80\xE2\x82 x", "L1 NotText 1:5"),
        (b"\xED\xA0\x80", "L1 NotText 1:1"),
        (b"#", "L2 BadChar 1:1"),
        (b"a\n\n !# b", "L2 BadChar 3:3"),
        (b"\t\xC3\xA9\xE2\x82\xAC", "L2 BadChar 1:4"),
        (b"x&|", "L2 BadChar 1:2"),
        (b"\x00", "L2 BadChar 1:1"),
        (b" \t9223372036854775808", "L3 IntTooLarge 1:3"),
        (b"\r\n0100000000000000000000x", "L3 IntTooLarge 2:1"),
    ] {
        assert_eq!(rt; shown_bytes(rt.alloc(), source)?.as_str(), want);
    }
    Ok(())
}

#[test]
fn reads_from_memory(rt: HostRuntime) -> Result<(), Fail> {
    let bytes = Items::from_slice(rt.alloc(), b"abcde".as_slice())?;
    let mut fail = Items::new(rt.alloc());
    fail.push(1)?;
    let mut source = MemSource::new(bytes, 3, fail);
    let mut buf = [0; 4];
    assert_eq!(rt; source.read(&mut buf).ok(), Some(3));
    assert!(rt; source.read(&mut buf).is_err());
    assert_eq!(rt; source.read(&mut buf).ok(), Some(2));
    assert_eq!(rt; buf, *b"dec\0");
    assert_eq!(rt; source.read(&mut buf).ok(), Some(0));
    Ok(())
}

#[test]
fn writes_to_memory(rt: HostRuntime) -> Result<(), Fail> {
    let mut fail = Items::new(rt.alloc());
    fail.push(1)?;
    let mut sink = MemSink::new(rt.alloc(), 3, fail);
    match write_all(&mut sink, b"abcde") {
        Ok(()) => assert!(rt; false),
        Err(fault) => assert_eq!(rt; fault.done, 3),
    }
    assert_eq!(rt; sink.taken(), b"abc".as_slice());
    assert_eq!(rt; sink.write(b"de").ok(), Some(2));
    assert_eq!(rt; sink.taken(), b"abcde".as_slice());
    Ok(())
}

#[test]
fn passes_a_reader_and_a_writer_on(rt: HostRuntime) -> Result<(), Fail> {
    let mut source = StdSource::new(b"two\nlines".as_slice());
    let text = match read_all(rt.alloc(), &mut source) {
        Ok(text) => text,
        Err(_) => return Err("not read")?,
    };
    let mut written = Vec::new(rt.alloc());
    let mut sink = StdSink::new(&mut written);
    assert!(rt; write_all(&mut sink, text.as_slice()).is_ok());
    drop(sink);
    assert_eq!(rt; written.as_slice(), b"two\nlines".as_slice());
    Ok(())
}

#[test]
fn never_fails(rt: HostRuntime) -> Result<(), Fail> {
    let bytes = Items::from_slice(rt.alloc(), b"abc".as_slice())?;
    let mut source = SureSource::new(bytes);
    let mut buf = [0; 4];
    assert_eq!(rt; source.read(&mut buf).ok(), Some(3));
    assert_eq!(rt; source.read(&mut buf).ok(), Some(0));
    let mut sink = match SureSink::new(rt.alloc(), 4) {
        Ok(sink) => sink,
        Err(Memory) => return Err("memory")?,
    };
    assert_eq!(rt; sink.write(&buf[..3]).ok(), Some(3));
    assert_eq!(rt; sink.write(b"def").ok(), Some(3));
    assert_eq!(rt; sink.write(b"g").ok(), Some(1));
    assert_eq!(rt; sink.kept(), b"abcd".as_slice());
    Ok(())
}
