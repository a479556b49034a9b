// Paths.
ghost use Rattle.ae_text.specs.declared.token.Sign.TheVariants as sign;
ghost use Rattle.ae_tree.specs.declared.lexeme.Lexical.TheVariants as tok;
ghost use Rattle.ae_tree.specs.Grammar as grammar;
ghost use Rattle.ae_reading.specs.Reads.{Reads, itself, Always, Free, Isnt};

use crate::fail::Fail;
use crate::terminals::{expect_sign, expect_word, is_sign_next, is_word_next, name};
use ae_text::{Items, Keyword, Sign};
use ae_tree::{Lexeme, NameAt, Path, THIS};
use std::alloc::Global;

/// A name, or `this`, at which a path begins.
pub fn root<'a>(ts: &'a [Lexeme]) -> Result<(NameAt, &'a [Lexeme]), Fail>
    ensures { Reads itself grammar.root Free Always ts.now result }
{
    if is_word_next(ts, Keyword::This) {
        let (at, rest) = expect_word(ts, Keyword::This)?;
        Ok((NameAt { name: THIS, at }, rest))
    } else {
        name(ts)
    }
}

/// A dot and the name of a field.
pub fn step<'a>(ts: &'a [Lexeme]) -> Result<(NameAt, &'a [Lexeme]), Fail>
    ensures { Reads itself grammar.path_step Free Always ts.now result }
{
    let (_, rest) = expect_sign(ts, Sign::Dot)?;
    name(rest)
}

fn steps<'a>(alloc: Global, ts: &'a [Lexeme]) -> Result<(Items<NameAt>, &'a [Lexeme]), Fail>
    ensures { Reads itself (grammar.one_by_one grammar.path_step) Free (Isnt (tok.Sign sign.Dot)) ts.now result }
{
    let mut steps = Items::new(alloc);
    let mut rest = ts;
    'steps: while is_sign_next(rest, Sign::Dot) {
        let (name, after) = step(rest)?;
        steps.push(name)?;
        rest = after;
    }
    Ok((steps, rest))
}

/// A local or `this`, and the fields that lead on from it.
pub fn path<'a>(alloc: Global, ts: &'a [Lexeme]) -> Result<(Path, &'a [Lexeme]), Fail>
    ensures { Reads itself grammar.path Free (Isnt (tok.Sign sign.Dot)) ts.now result }
{
    let (root, rest) = root(ts)?;
    let (steps, rest) = steps(alloc, rest)?;
    Ok((Path { root, steps }, rest))
}
