// Paths with at most so many fields.
ghost use Rattle.std.specs.Prelude.{◌≡◌, ◌≤◌, length, Err};
ghost use Rattle.ae_tree.specs.Grammar as grammar;
ghost use Rattle.ae_reading.specs.Reads.{Reads, itself, Always, Free, Isnt};
ghost use Rattle.ae_expressions.specs.Productions.{IsShortPath};

use ae_reading::{Fail, Why, is_sign_next, root, step};
use ae_text::{Items, Sign};
use ae_tree::{Lexeme, Lexical, Limit, Path};
use std::alloc::Global;

/// The next token is one too many of those that count.
pub(crate) fn over<T>(ts: &[Lexeme]) -> Result<T, Fail>
    ensures { result ≡ Err (Fail.Refused (Why.Over Limit.Depth) (length ts.now)) }
{
    Err(Fail::Refused(Why::Over(Limit::Depth), ts.len()))
}

/// Reads a path with `budget` fields at most.
pub(crate) fn path<'a>(
    alloc: Global,
    ts: &'a [Lexeme],
    budget: usize,
) -> Result<(Path, &'a [Lexeme]), Fail>
    ensures { Reads itself grammar.path (IsShortPath budget) (Isnt (Lexical.Sign Sign.Dot)) ts.now result }
{
    let (root, mut rest) = root(ts)?;
    let mut steps = Items::new(alloc);
    'fields: while is_sign_next(rest, Sign::Dot) {
        if steps.len() >= budget {
            return over(rest);
        }
        let (field, after) = step(rest)?;
        steps.push(field)?;
        rest = after;
    }
    Ok((Path { root, steps }, rest))
}
