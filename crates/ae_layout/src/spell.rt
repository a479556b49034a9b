// Tokens of the layout, written one after another.
ghost use Rattle.std.specs.Prelude.{◌≡◌, ◌++◌, OnOk};
ghost use Rattle.std.specs.Fmt.{signed_decimal};
ghost use Rattle.ae_text.specs.Tokens.{sign_text as text_of_sign};
ghost use Rattle.ae_text.specs.declared.token.TokenKind.TheVariants as kind;
ghost use Rattle.ae_layout.specs.Spelling.{escaped_byte, all_escaped, gap, printed_text};
ghost use Rattle.ae_layout.specs.Layout.{token, name_kind, root_kind};

use ae_text::{Items, Keyword, Sign};
use ae_tree::{Name, THIS};
use std::alloc::{AllocError, Global};

// The space before a token that is not close to the one before it.
#[tactic(auto, using(crate::proofs::Texts::spells))]
fn space(close: bool, out: &mut Vec<u8>) -> Result<(), AllocError>
    ensures { OnOk result (out.new.items ≡ out.old.items ++ gap close) }
{
    if close {
        return Ok(());
    }
    out.extend_from_slice(b" ")
}

#[tactic(auto, using(crate::proofs::Texts::spells))]
pub fn word(close: bool, word: Keyword, out: &mut Vec<u8>) -> Result<(), AllocError>
    ensures { OnOk result (out.new.items ≡ out.old.items ++ printed_text (token close (kind.Word word))) }
{
    space(close, out)?;
    out.extend_from_slice(word.text().as_bytes())
}

// A sign as a source writes it.
#[tactic(auto, using(crate::proofs::Texts::spells))]
fn sign_text(sign: Sign) -> &'static str
    ensures { result.now ≡ text_of_sign sign }
{
    match sign {
        Sign::OpenBrace => "{",
        Sign::CloseBrace => "}",
        Sign::OpenParen => "(",
        Sign::CloseParen => ")",
        Sign::OpenBracket => "[",
        Sign::CloseBracket => "]",
        Sign::Less => "<",
        Sign::Greater => ">",
        Sign::Away => ">>",
        Sign::Comma => ",",
        Sign::Semicolon => ";",
        Sign::Dot => ".",
        Sign::Assign => "=",
        Sign::Equal => "==",
        Sign::NotEqual => "!=",
        Sign::LessEqual => "<=",
        Sign::GreaterEqual => ">=",
        Sign::Plus => "+",
        Sign::Minus => "-",
        Sign::Star => "*",
        Sign::Slash => "/",
        Sign::Percent => "%",
        Sign::Not => "!",
        Sign::AndAnd => "&&",
        Sign::OrOr => "||",
    }
}

#[tactic(auto, using(crate::proofs::Texts::spells))]
pub fn sign(close: bool, sign: Sign, out: &mut Vec<u8>) -> Result<(), AllocError>
    ensures { OnOk result (out.new.items ≡ out.old.items ++ printed_text (token close (kind.Sign sign))) }
{
    space(close, out)?;
    out.extend_from_slice(sign_text(sign).as_bytes())
}

// A name by its number; a number without a name is written as nothing.
#[tactic(auto, using(crate::proofs::Texts::spells))]
pub fn name(
    names: &[Items<u8>],
    close: bool,
    name: Name,
    out: &mut Vec<u8>,
) -> Result<(), AllocError>
    ensures { OnOk result (out.new.items ≡ out.old.items ++ printed_text (token close (name_kind names.now name))) }
{
    space(close, out)?;
    match names.get(name as usize) {
        Some(spelling) => out.extend_from_slice(spelling.as_slice()),
        None => Ok(()),
    }
}

// The root of a path.
#[tactic(auto, using(crate::proofs::Texts::spells))]
pub fn root(
    names: &[Items<u8>],
    close: bool,
    root: Name,
    out: &mut Vec<u8>,
) -> Result<(), AllocError>
    ensures { OnOk result (out.new.items ≡ out.old.items ++ printed_text (token close (root_kind names.now root))) }
{
    if root == THIS {
        return word(close, Keyword::This, out);
    }
    name(names, close, root, out)
}

fn decimal(alloc: Global, value: i64, out: &mut Vec<u8>) -> Result<(), AllocError>
    ensures { OnOk result (out.new.items ≡ out.old.items ++ signed_decimal value) }
{
    let digits = format!(in alloc; "{value}")?;
    out.extend_from_slice(digits.as_bytes())
}

// A number in decimal digits.
#[tactic(auto, using(crate::proofs::Texts::spells))]
pub fn number(alloc: Global, close: bool, value: i64, out: &mut Vec<u8>) -> Result<(), AllocError>
    ensures { OnOk result (out.new.items ≡ out.old.items ++ printed_text (token close (kind.Int value))) }
{
    space(close, out)?;
    decimal(alloc, value, out)
}

// A byte between quotes.
#[tactic(auto, using(crate::proofs::Texts::spells))]
fn escape(byte: u8, out: &mut Vec<u8>) -> Result<(), AllocError>
    ensures { OnOk result (out.new.items ≡ out.old.items ++ escaped_byte byte) }
{
    match byte {
        b'\n' => out.extend_from_slice(b"\\n"),
        b'\t' => out.extend_from_slice(b"\\t"),
        b'"' => out.extend_from_slice(b"\\\""),
        b'\\' => out.extend_from_slice(b"\\\\"),
        _ => out.extend_from_slice(&[byte]),
    }
}

#[tactic(auto, using(crate::proofs::Texts::spells))]
fn escape_all(bytes: &[u8], out: &mut Vec<u8>) -> Result<(), AllocError>
    ensures { OnOk result (out.new.items ≡ out.old.items ++ all_escaped bytes.now) }
{
    for byte in bytes {
        escape(*byte, out)?;
    }
    Ok(())
}

// A text between quotes, with its escapes.
#[tactic(auto, using(crate::proofs::Texts::spells))]
pub fn text(close: bool, bytes: &[u8], out: &mut Vec<u8>) -> Result<(), AllocError>
    ensures { OnOk result (out.new.items ≡ out.old.items ++ printed_text (token close (kind.Text bytes.now))) }
{
    space(close, out)?;
    out.extend_from_slice(b"\"")?;
    escape_all(bytes, out)?;
    out.extend_from_slice(b"\"")
}
