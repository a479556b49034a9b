// Names as numbers: a pass over the tokens before they are parsed.
ghost use Rattle.std.specs.Prelude.{◌≡◌, ◌≤◌, ◌+◌, length, [], ◌∷◌, IfOk, OnOk};
ghost use Rattle.std.specs.Str.{bytes_eq};
ghost use Rattle.indexmap.specs.IndexSet.{insert_all};
ghost use Rattle.ae_tree.specs.Names.{names_of, numbered, spelled_before, name_number, lexical, first_names};
ghost use Rattle.ae_parser.specs.Slices.{slices_bytes};

use ae_text::{Items, Token, TokenKind};
use ae_tree::{Lexeme, Lexical};
use indexmap::IndexSet;
use std::alloc::{AllocError, Global};

/// Adds the spelling of a token that is a name.
fn insert_spelling<'a>(names: &mut IndexSet<&'a [u8]>, token: &'a Token) -> Result<(), AllocError>
    ensures names { OnOk result (slices_bytes names.new.keys ≡ insert_all bytes_eq (slices_bytes names.old.keys)
        (spelled_before token.now.kind [])) }
    ensures few { OnOk result (length names.new.keys ≤ length names.old.keys + 1) }
{
    if let TokenKind::Name(spelling) = &token.kind {
        names.insert(spelling.as_slice())?;
    }
    Ok(())
}

/// `io`, `main` and `this`.
fn first(alloc: Global) -> Result<IndexSet<&'static [u8]>, AllocError>
    ensures { IfOk result (λ s. slices_bytes s.keys ≡ first_names) }
{
    let mut names = IndexSet::new(alloc);
    names.insert(b"io".as_slice())?;
    names.insert(b"main".as_slice())?;
    names.insert(b"this".as_slice())?;
    Ok(names)
}

/// The spellings of all names, each once, in order of first use.
fn spellings<'a>(alloc: Global, tokens: &'a [Token]) -> Result<IndexSet<&'a [u8]>, AllocError>
    ensures names { IfOk result (λ s. slices_bytes s.keys ≡ names_of tokens.now) }
    ensures few { IfOk result (λ s. length s.keys ≤ length tokens.now + 3) }
{
    let mut names = first(alloc)?;
    for token in tokens {
        insert_spelling(&mut names, token)?;
    }
    Ok(names)
}

/// The number of a spelling, which is among the names.
fn number(names: &IndexSet<&[u8]>, spelling: &[u8]) -> u32
    requires { length names.now.keys ≤ 1048580 }
    ensures { result ≡ name_number (slices_bytes names.now.keys) spelling.now }
{
    names.get_index_of(spelling).unwrap_or(names.len()) as u32
}

fn lexical(alloc: Global, names: &IndexSet<&[u8]>, kind: &TokenKind) -> Result<Lexical, AllocError>
    requires { length names.now.keys ≤ 1048580 }
    ensures { IfOk result (λ k. k ≡ lexical (slices_bytes names.now.keys) kind.now) }
{
    Ok(match kind {
        TokenKind::Name(spelling) => Lexical::Name(number(names, spelling.as_slice())),
        TokenKind::Int(n) => Lexical::Int(*n),
        TokenKind::Text(text) => Lexical::Text(Items::from_slice(alloc, text.as_slice())?),
        TokenKind::Word(word) => Lexical::Word(*word),
        TokenKind::Sign(sign) => Lexical::Sign(*sign),
        TokenKind::End => Lexical::End,
    })
}

fn lexemes(
    alloc: Global,
    names: &IndexSet<&[u8]>,
    tokens: &[Token],
) -> Result<Items<Lexeme>, AllocError>
    requires { length names.now.keys ≤ 1048580 }
    ensures { IfOk result (λ ts. ts ≡ numbered (slices_bytes names.now.keys) tokens.now) }
{
    let mut lexemes = Items::new(alloc);
    for token in tokens {
        lexemes.push(Lexeme {
            kind: lexical(alloc, names, &token.kind)?,
            at: token.at,
        })?;
    }
    Ok(lexemes)
}

fn copied(alloc: Global, names: &[&[u8]]) -> Result<Items<Items<u8>>, AllocError>
    ensures { IfOk result (λ copies. copies ≡ slices_bytes names.now) }
{
    let mut copies = Items::new(alloc);
    for name in names {
        copies.push(Items::from_slice(alloc, *name)?)?;
    }
    Ok(copies)
}

/// The names of a source, and its tokens with numbers for names.
pub(crate) struct Numbered {
    pub(crate) names: Items<Items<u8>>,
    pub(crate) lexemes: Items<Lexeme>,
}

/// Numbers the names: `io`, `main` and `this` first, and then the others in order of first use.
pub(crate) fn number_names(alloc: Global, tokens: &[Token]) -> Result<Numbered, AllocError>
    requires { length tokens.now ≤ 1048577 }
    ensures names { IfOk result (λ n. n.names ≡ names_of tokens.now) }
    ensures lexemes { IfOk result (λ n. n.lexemes ≡ numbered (names_of tokens.now) tokens.now) }
{
    let names = spellings(alloc, tokens)?;
    let lexemes = lexemes(alloc, &names, tokens)?;
    let names = copied(alloc, names.as_slice())?;
    Ok(Numbered { names, lexemes })
}
