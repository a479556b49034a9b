// Names with commas between them.
ghost use Rattle.std.specs.Prelude.{◌≡◌, ◌∷◌, IfOk};
ghost use Rattle.ae_text.specs.declared.token.Sign.TheVariants as sign;
ghost use Rattle.ae_tree.specs.declared.lexeme.Lexical.TheVariants as tok;
ghost use Rattle.ae_tree.specs.Grammar as grammar;
ghost use Rattle.ae_reading.specs.Reads.{Reads, itself, Always, Free, Isnt};
ghost use Rattle.ae_reading.specs.Parts as parts;

use crate::fail::Fail;
use crate::terminals::{expect_sign, is_sign_next, name};
use ae_text::{Items, Sign};
use ae_tree::{Lexeme, NameAt};
use std::alloc::{AllocError, Global};

/// A list whose first item is `first`, with the items of `more` behind it.
pub fn in_front<T>(alloc: Global, first: T, more: Items<T>) -> Result<Items<T>, AllocError>
where
    T: Drop,
    ensures { IfOk result (λ items. items ≡ first ∷ more) }
{
    let mut items = Items::new(alloc);
    items.push(first)?;
    items.append(more)?;
    Ok(items)
}

fn further_name<'a>(ts: &'a [Lexeme]) -> Result<(NameAt, &'a [Lexeme]), Fail>
    ensures { Reads itself (grammar.further grammar.name) Free Always ts.now result }
{
    let (_, rest) = expect_sign(ts, Sign::Comma)?;
    name(rest)
}

fn further_names<'a>(alloc: Global, ts: &'a [Lexeme]) -> Result<(Items<NameAt>, &'a [Lexeme]), Fail>
    ensures { Reads itself (grammar.one_by_one (grammar.further grammar.name)) Free
        (Isnt (tok.Sign sign.Comma)) ts.now result }
{
    let mut names = Items::new(alloc);
    let mut rest = ts;
    'names: while is_sign_next(rest, Sign::Comma) {
        let (name, after) = further_name(rest)?;
        names.push(name)?;
        rest = after;
    }
    Ok((names, rest))
}

/// At least one name, with commas between them.
pub fn names<'a>(alloc: Global, ts: &'a [Lexeme]) -> Result<(Items<NameAt>, &'a [Lexeme]), Fail>
    ensures { Reads itself (grammar.separated grammar.name) Free (Isnt (tok.Sign sign.Comma)) ts.now result }
{
    let (first, rest) = name(ts)?;
    let (more, rest) = further_names(alloc, rest)?;
    Ok((in_front(alloc, first, more)?, rest))
}

fn angled<'a>(alloc: Global, ts: &'a [Lexeme]) -> Result<(Items<NameAt>, &'a [Lexeme]), Fail>
    ensures { Reads itself parts.angled Free Always ts.now result }
{
    let (_, rest) = expect_sign(ts, Sign::Less)?;
    let (names, rest) = names(alloc, rest)?;
    let (_, rest) = expect_sign(rest, Sign::Greater)?;
    Ok((names, rest))
}

/// Group names between `<` and `>`, or none.
pub fn groups<'a>(alloc: Global, ts: &'a [Lexeme]) -> Result<(Items<NameAt>, &'a [Lexeme]), Fail>
    ensures { Reads itself grammar.groups Free (Isnt (tok.Sign sign.Less)) ts.now result }
{
    if is_sign_next(ts, Sign::Less) {
        angled(alloc, ts)
    } else {
        Ok((Items::new(alloc), ts))
    }
}
