// From words and bytes to bytes and a status, over sources and sinks in memory.
ghost use Rattle.std.specs.Prelude.{◌<◌};

use crate::answer::{UsageKind, What};
use crate::top::{aeminium, faultless};
use ae_text::{Items, MemSink, MemSource, Memory, NoGate, SureSink, SureSource};
use std::alloc::{AllocError, Global};
use std::test::Fail;

const USAGE: &str =
    "usage: aem check | aem graph | aem run [--workers N] [--fuel N] [--trace] [--] [INT]... | aem make N\n";

const SUM: &str =
    "method void main() with exclusive io {\nlet int a = 2;\nlet int b = 3;\nprint a + b;\n}\n";

// Words, a source, the text that is wanted and its status.
struct Case {
    words: &'static [&'static str],
    source: &'static str,
    text: &'static str,
    status: u8,
}

fn words_of(alloc: Global, words: &[&str]) -> Result<Vec<String>, AllocError> {
    let mut all = Vec::new(alloc);
    for word in words {
        all.push(String::from_str(alloc, word)?)?;
    }
    Ok(all)
}

fn source_of(
    alloc: Global,
    bytes: &[u8],
    most: usize,
    fail: &[u64],
) -> Result<MemSource, AllocError>
    requires { 0 < most }
{
    let bytes = Items::from_slice(alloc, bytes)?;
    Ok(MemSource::new(bytes, most, Items::from_slice(alloc, fail)?))
}

const CASES: [Case; 71] = [
    Case {
        words: &["check"],
        source: SUM,
        text: "accepted\n",
        status: 0,
    },
    Case {
        words: &["check"],
        source: "method void main() with exclusive io { print a; }",
        text: "refused N5 UnknownName at 1:46\n",
        status: 2,
    },
    Case {
        words: &["graph"],
        source: SUM,
        text: "method main\nblock 0 has 3\n2 after 0 1\n",
        status: 0,
    },
    Case {
        words: &["graph"],
        source: "method void main() { }",
        text: "method main\nblock 0 has 0\n",
        status: 0,
    },
    Case {
        words: &["graph"],
        source: "class Box { int v; } method void main() { let unique Box b = new Box(1); if b == null { } else { b.v = 2; } b = null; }",
        text: "method main\nblock 0 has 3\n1 after 0\n2 after 1\nblock 1 has 0\nblock 2 has 1\n",
        status: 0,
    },
    Case {
        words: &["graph"],
        source: "method void main() { print 1 < 2; }",
        text: "refused G3 NeedsGroup at 1:22\n",
        status: 2,
    },
    Case {
        words: &["run"],
        source: SUM,
        text: "5\n== done\n",
        status: 0,
    },
    Case {
        words: &["run"],
        source: "method void main()with exclusive io{print(1+2)*3;}",
        text: "9\n== done\n",
        status: 0,
    },
    Case {
        words: &["run"],
        source: "method void main() with exclusive io { }",
        text: "== done\n",
        status: 0,
    },
    Case {
        words: &["run"],
        source: "method void main() with exclusive io { print 2 + 3 * 4 - 10 / 4 % 3; }",
        text: "12\n== done\n",
        status: 0,
    },
    Case {
        words: &["run"],
        source: "method void main() with exclusive io { let int a = 7; a = 0 - a; print a / 2; print a % 2; }",
        text: "-3\n-1\n== done\n",
        status: 0,
    },
    Case {
        words: &["run"],
        source: "method void main() with exclusive io { print -3; print --3; print -3 - -4; print -(1 + 2) * 2; }",
        text: "-3\n3\n1\n-6\n== done\n",
        status: 0,
    },
    Case {
        words: &["run"],
        source: "method void main() with exclusive io { let int a = ((5)); print -a; print 10 - (3 - 2); }",
        text: "-5\n9\n== done\n",
        status: 0,
    },
    Case {
        words: &["run"],
        source: "method void main() with exclusive io { print -9223372036854775807 - 1; }",
        text: "-9223372036854775808\n== done\n",
        status: 0,
    },
    Case {
        words: &["run"],
        source: "method void main() with exclusive io { let int a = 0 - 9223372036854775807 - 1; print a % (0 - 1); }",
        text: "0\n== done\n",
        status: 0,
    },
    Case {
        words: &["run"],
        source: "method void main() with exclusive io { let int a = 1; let int b = a / 0; print a; let int c = 1 % 0; }",
        text: "== trap 2 at 1:55\n",
        status: 1,
    },
    Case {
        words: &["run"],
        source: "method void main() with exclusive io { let int a = 9223372036854775807; print a + 1; }",
        text: "== trap 1 at 1:73\n",
        status: 1,
    },
    Case {
        words: &["run"],
        source: "method void main() with exclusive io { let int a = 0 - 9223372036854775807 - 1; print -a; }",
        text: "== trap 1 at 1:81\n",
        status: 1,
    },
    Case {
        words: &["run"],
        source: "method void main() with exclusive io {\nprint 7;\nlet int z = 1 / 0;\nlet int w = 9223372036854775807 + 1;\n}\n",
        text: "7\n== trap 2 at 3:1\n",
        status: 1,
    },
    Case {
        words: &["run"],
        source: "method void main() with exclusive io { let int m = 0 - 1; let int a = m - 9223372036854775807; print a % m; print a / m; }",
        text: "0\n== trap 1 at 1:109\n",
        status: 1,
    },
    Case {
        words: &["run"],
        source: "method void main() with exclusive io { print b; }",
        text: "refused N5 UnknownName at 1:46\n",
        status: 2,
    },
    Case {
        words: &["run"],
        source: "method void main() with exclusive io { print io; }",
        text: "refused N5 UnknownName at 1:46\n",
        status: 2,
    },
    Case {
        words: &["run"],
        source: "method void main() with exclusive io { print -(1 + b); }",
        text: "refused N5 UnknownName at 1:52\n",
        status: 2,
    },
    Case {
        words: &["run"],
        source: "method void main() with exclusive io { let int a = 1 + a; }",
        text: "refused N5 UnknownName at 1:56\n",
        status: 2,
    },
    Case {
        words: &["run"],
        source: "method void main() with exclusive io { b = c; }",
        text: "refused N5 UnknownName at 1:40\n",
        status: 2,
    },
    Case {
        words: &["run"],
        source: "method void main() with exclusive io { let int a = 1; let int a = 2; }",
        text: "refused N6 DuplicateLocal at 1:63\n",
        status: 2,
    },
    Case {
        words: &["run"],
        source: "method void main() with exclusive io { let int a = 1; let int a = b; }",
        text: "refused N6 DuplicateLocal at 1:63\n",
        status: 2,
    },
    Case {
        words: &["run"],
        source: "method void main() with exclusive io { let int io = 1; }",
        text: "refused N6 DuplicateLocal at 1:48\n",
        status: 2,
    },
    Case {
        words: &["run"],
        source: "",
        text: "refused N7 NoMain at 1:1\n",
        status: 2,
    },
    Case {
        words: &["run"],
        source: "method void main() { }",
        text: "== done\n",
        status: 0,
    },
    Case {
        words: &["run"],
        source: "method void other() with exclusive io { }",
        text: "refused N7 NoMain at 1:1\n",
        status: 2,
    },
    Case {
        words: &["run"],
        source: "method void main(int a) with exclusive io { }",
        text: "refused N7 NoMain at 1:13\n",
        status: 2,
    },
    Case {
        words: &["run"],
        source: "method void main() with shared io { }",
        text: "refused N7 NoMain at 1:13\n",
        status: 2,
    },
    Case {
        words: &["run"],
        source: "method void main() with exclusive io, exclusive io { }",
        text: "refused G6 GroupTwice at 1:49\n",
        status: 2,
    },
    Case {
        words: &["run"],
        source: "class main { } method void main() with exclusive io { }",
        text: "== done\n",
        status: 0,
    },
    Case {
        words: &["run"],
        source: "method void main() with exclusive io { } method void other() { }",
        text: "== done\n",
        status: 0,
    },
    Case {
        words: &["run"],
        source: "method void main() with exclusive io { print true; }",
        text: "true\n== done\n",
        status: 0,
    },
    Case {
        words: &["run"],
        source: "method void main() with exclusive io { print 1 < 2; }",
        text: "true\n== done\n",
        status: 0,
    },
    Case {
        words: &["run"],
        source: "method void main() with exclusive io { print !b; }",
        text: "refused N5 UnknownName at 1:47\n",
        status: 2,
    },
    Case {
        words: &["run"],
        source: "method void main() with exclusive io { print b; print \"a\"; }",
        text: "refused N5 UnknownName at 1:46\n",
        status: 2,
    },
    Case {
        words: &["run"],
        source: "method void main() with exclusive io { print a.b; }",
        text: "refused N5 UnknownName at 1:46\n",
        status: 2,
    },
    Case {
        words: &["run"],
        source: "method void main() with exclusive io { print this; }",
        text: "refused N5 UnknownName at 1:46\n",
        status: 2,
    },
    Case {
        words: &["run"],
        source: "method void main() with exclusive io { let bool a = 1; }",
        text: "refused N9 TypeMismatch at 1:53\n",
        status: 2,
    },
    Case {
        words: &["run"],
        source: "method void main() with exclusive io { let int a = f(1); }",
        text: "refused N4 UnknownMethod at 1:52\n",
        status: 2,
    },
    Case {
        words: &["run"],
        source: "method void main() with exclusive io { if 1 { } }",
        text: "refused N9 TypeMismatch at 1:43\n",
        status: 2,
    },
    Case {
        words: &["run"],
        source: "method void main() with exclusive io { return 1; }",
        text: "refused N9 TypeMismatch at 1:40\n",
        status: 2,
    },
    Case {
        words: &["run"],
        source: "method void main() { group g; split g { } }",
        text: "refused U1 NotBuilt at 1:1\n",
        status: 2,
    },
    Case {
        words: &["run"],
        source: "method void main() { a = 1; } method void f<g>() with shared g { if true { } else { atomic g { } } }",
        text: "refused U1 NotBuilt at 1:1\n",
        status: 2,
    },
    Case {
        words: &["run"],
        source: "class Box { int v; } method void main() with exclusive io { let unique Box b = new Box(1); b.v = b.v + 1; print b.v; print b == null; print \"end\"; }",
        text: "2\nfalse\nend\n== done\n",
        status: 0,
    },
    Case {
        words: &["run"],
        source: "method int fib(int n) { let int r = n; if n > 1 { let int a = fib(n - 1); let int b = fib(n - 2); r = a + b; } return r; } method void main() with exclusive io { let int r = fib(10); print r; }",
        text: "55\n== done\n",
        status: 0,
    },
    Case {
        words: &["run"],
        source: "method void main() with exclusive io { let unique Ints a = new Ints(3); let int i = 0; while i < len a { a[i] = i * i; i = i + 1; } print a[2]; print a[3]; }",
        text: "4\n== trap 4 at 1:145\n",
        status: 1,
    },
    Case {
        words: &["run"],
        source: "method void main() with exclusive io { print 1; while true { } }",
        text: "1\n== fuel at 1:49\n",
        status: 1,
    },
    Case {
        words: &["run"],
        source: "main",
        text: "refused S1 Unexpected at 1:1\n",
        status: 2,
    },
    Case {
        words: &["run"],
        source: "method",
        text: "refused S1 Unexpected at 1:7\n",
        status: 2,
    },
    Case {
        words: &["run"],
        source: "method void main(+) { }",
        text: "refused S1 Unexpected at 1:18\n",
        status: 2,
    },
    Case {
        words: &["run"],
        source: "method void main() with exclusive io {",
        text: "refused S1 Unexpected at 1:39\n",
        status: 2,
    },
    Case {
        words: &["run"],
        source: "method void main() with exclusive io { }\n}",
        text: "refused S1 Unexpected at 2:1\n",
        status: 2,
    },
    Case {
        words: &["run"],
        source: "method void main() with exclusive io { print 1 }",
        text: "refused S1 Unexpected at 1:48\n",
        status: 2,
    },
    Case {
        words: &["run"],
        source: "method void main() with exclusive io { print 1 + ; }",
        text: "refused S1 Unexpected at 1:50\n",
        status: 2,
    },
    Case {
        words: &["run"],
        source: "method void main() with exclusive io { print (1; }",
        text: "refused S1 Unexpected at 1:48\n",
        status: 2,
    },
    Case {
        words: &["run"],
        source: "method void main() with exclusive io { print 1); }",
        text: "refused S1 Unexpected at 1:47\n",
        status: 2,
    },
    Case {
        words: &["run"],
        source: "method void main() with exclusive io { print true < 1 < 2; }",
        text: "refused S1 Unexpected at 1:55\n",
        status: 2,
    },
    Case {
        words: &["run"],
        source: "method void main() with exclusive io { let a = 1; }",
        text: "refused S1 Unexpected at 1:44\n",
        status: 2,
    },
    Case {
        words: &["run"],
        source: "method void main() with exclusive io { let int 1 = 1; }",
        text: "refused S1 Unexpected at 1:48\n",
        status: 2,
    },
    Case {
        words: &["run"],
        source: "method void main() with exclusive io { let int io = ; }",
        text: "refused S1 Unexpected at 1:53\n",
        status: 2,
    },
    Case {
        words: &["run"],
        source: "method void main() with exclusive io { return 1; print 2; }",
        text: "refused S1 Unexpected at 1:50\n",
        status: 2,
    },
    Case {
        words: &["run"],
        source: "method void main() with exclusive io { open }",
        text: "refused S1 Unexpected at 1:40\n",
        status: 2,
    },
    Case {
        words: &["run"],
        source: "method void main(int p1, int p2, int p3, int p4, int p5, int p6, int p7, int p8, int p9, int p10, int p11, int p12, int p13, int p14, int p15, int p16, int p17) { }",
        text: "refused K4 TooManyParams at 1:153\n",
        status: 2,
    },
    Case {
        words: &[],
        source: SUM,
        text: USAGE,
        status: 3,
    },
    Case {
        words: &["run", "run"],
        source: SUM,
        text: USAGE,
        status: 3,
    },
    Case {
        words: &["walk"],
        source: SUM,
        text: USAGE,
        status: 3,
    },
];

#[test]
fn sources(rt: HostRuntime) -> Result<(), Fail> {
    let alloc = rt.alloc();
    for case in &CASES {
        let words = words_of(alloc, case.words)?;
        let mut source = source_of(alloc, case.source.as_bytes(), 7, &[])?;
        let mut sink = MemSink::new(alloc, 3, Items::new(alloc));
        let answer = aeminium(
            &rt,
            alloc,
            words.as_slice(),
            &mut source,
            &mut sink,
            &NoGate,
        );
        assert_eq!(rt; answer.status, case.status, "{}", case.source);
        assert_eq!(rt; sink.taken(), case.text.as_bytes(), "{}", case.source);
    }
    Ok(())
}

// Each read in turn fails: nothing is written.
#[test]
fn failing_reads(rt: HostRuntime) -> Result<(), Fail> {
    let alloc = rt.alloc();
    let words = words_of(alloc, &["run"])?;
    for call in 0..13 {
        let mut source = source_of(alloc, SUM.as_bytes(), 7, &[call])?;
        let mut sink = MemSink::new(alloc, 3, Items::new(alloc));
        let answer = aeminium(
            &rt,
            alloc,
            words.as_slice(),
            &mut source,
            &mut sink,
            &NoGate,
        );
        assert_eq!(rt; answer.status, 4, "read {call}");
        assert!(rt; matches!(&answer.what, What::ReadFault));
        assert_eq!(rt; sink.taken().len(), 0);
    }
    Ok(())
}

// Each write in turn fails: the first bytes of the text were taken.
#[test]
fn failing_writes(rt: HostRuntime) -> Result<(), Fail> {
    let alloc = rt.alloc();
    let words = words_of(alloc, &["run"])?;
    let text = b"5\n== done\n";
    for call in 0..4 {
        let mut source = source_of(alloc, SUM.as_bytes(), 4096, &[])?;
        let mut sink = MemSink::new(alloc, 3, Items::from_slice(alloc, &[call])?);
        let answer = aeminium(
            &rt,
            alloc,
            words.as_slice(),
            &mut source,
            &mut sink,
            &NoGate,
        );
        assert_eq!(rt; answer.status, 5, "write {call}");
        assert_eq!(rt; answer.cut, Some(call * 3));
        assert!(rt; matches!(&answer.what, What::Ran(_)));
        assert_eq!(rt; sink.taken(), text.split_at(call as usize * 3).0);
    }
    Ok(())
}

// One piece of four bytes was taken.
#[test]
fn cut(rt: HostRuntime) -> Result<(), Fail> {
    let alloc = rt.alloc();
    let words = words_of(alloc, &["run"])?;
    let mut source = source_of(alloc, SUM.as_bytes(), 4096, &[])?;
    let mut sink = MemSink::new(alloc, 4, Items::from_slice(alloc, &[1])?);
    let answer = aeminium(
        &rt,
        alloc,
        words.as_slice(),
        &mut source,
        &mut sink,
        &NoGate,
    );
    assert_eq!(rt; answer.status, 5);
    assert_eq!(rt; answer.cut, Some(4));
    assert_eq!(rt; sink.taken(), b"5\n==".as_slice());
    Ok(())
}

// A byte too many, and as many as there may be.
#[test]
fn long_texts(rt: HostRuntime) -> Result<(), Fail> {
    let alloc = rt.alloc();
    let words = words_of(alloc, &["run"])?;
    for (len, text) in [
        (1_048_577, "refused K1 TooLong at 1:1\n"),
        (1_048_576, "refused N7 NoMain at 1:1\n"),
    ] {
        let spaces = vec![in alloc; b' '; len]?;
        let mut source = source_of(alloc, spaces.as_slice(), 1_048_576, &[])?;
        let mut sink = MemSink::new(alloc, 4096, Items::new(alloc));
        let answer = aeminium(
            &rt,
            alloc,
            words.as_slice(),
            &mut source,
            &mut sink,
            &NoGate,
        );
        assert_eq!(rt; answer.status, 2);
        assert_eq!(rt; sink.taken(), text.as_bytes());
    }
    Ok(())
}

// Wrong words are answered before anything is read.
#[test]
fn unread(rt: HostRuntime) -> Result<(), Fail> {
    let alloc = rt.alloc();
    let words = words_of(alloc, &["run", "fast"])?;
    let mut source = source_of(alloc, SUM.as_bytes(), 4096, &[0])?;
    let mut sink = MemSink::new(alloc, 4096, Items::new(alloc));
    let answer = aeminium(
        &rt,
        alloc,
        words.as_slice(),
        &mut source,
        &mut sink,
        &NoGate,
    );
    assert!(rt; matches!(&answer.what, What::Usage(UsageKind::Words)));
    assert_eq!(rt; answer.status, 3);
    Ok(())
}

// Where nothing can fail, an accepted program has the answer of its mode.
#[test]
fn without_faults(rt: HostRuntime) -> Result<(), Fail> {
    let alloc = rt.alloc();
    for (mode, text) in [
        ("run", "5\n== done\n"),
        ("graph", "method main\nblock 0 has 3\n2 after 0 1\n"),
    ] {
        let words = words_of(alloc, &[mode])?;
        let mut source = SureSource::new(Items::from_slice(alloc, SUM.as_bytes())?);
        let mut sink = match SureSink::new(alloc, 64) {
            Ok(sink) => sink,
            Err(Memory) => return Err("memory")?,
        };
        let answer = faultless(
            &rt,
            alloc,
            words.as_slice(),
            &mut source,
            &mut sink,
            &NoGate,
        );
        assert_eq!(rt; answer.status, 0);
        assert_eq!(rt; answer.cut, None);
        assert_eq!(rt; sink.kept(), text.as_bytes());
    }
    Ok(())
}
