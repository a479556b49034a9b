// Methods.
ghost use Rattle.std.specs.Prelude.{◌≤◌, length};
ghost use Rattle.ae_text.specs.declared.token.Sign.TheVariants as sign;
ghost use Rattle.ae_tree.specs.declared.lexeme.Lexical.TheVariants as tok;
ghost use Rattle.ae_tree.specs.Shown as shown;
ghost use Rattle.ae_tree.specs.Grammar as grammar;
ghost use Rattle.ae_tree.specs.Limits.{KeepsMethod};
ghost use Rattle.ae_reading.specs.Reads.{Reads, itself, Always, Free, Isnt};

use crate::needs::needs;
use crate::params::{Given, read_given};
use ae_reading::{Fail, expect_sign, expect_word, groups, is_word_next, name, type_};
use ae_statements::body;
use ae_text::{Keyword, Sign};
use ae_tree::{Lexeme, Method, Ty};
use std::alloc::Global;

/// `void`, or the type of what a method returns.
fn returned<'a>(alloc: Global, ts: &'a [Lexeme]) -> Result<(Option<Ty>, &'a [Lexeme]), Fail>
    ensures { Reads itself grammar.result Free (Isnt (tok.Sign sign.Less)) ts.now result }
{
    if is_word_next(ts, Keyword::Void) {
        let (_, rest) = expect_word(ts, Keyword::Void)?;
        Ok((None, rest))
    } else {
        let (ty, rest) = type_(alloc, ts)?;
        Ok((Some(ty), rest))
    }
}

/// A method of the class with this number, or one at the top.
pub(crate) fn method<'a>(
    alloc: Global,
    class: Option<u32>,
    ts: &'a [Lexeme],
) -> Result<(Method, &'a [Lexeme]), Fail>
    requires { length ts.now ≤ 1048577 }
    ensures { Reads shown.definition (grammar.method class) KeepsMethod Always ts.now result }
{
    let (_, rest) = expect_word(ts, Keyword::Method)?;
    let (ty, rest) = returned(alloc, rest)?;
    let (name, rest) = name(rest)?;
    let (groups, rest) = groups(alloc, rest)?;
    let (_, rest) = expect_sign(rest, Sign::OpenParen)?;
    let (given, rest) = read_given(alloc, class, rest)?;
    let (_, rest) = expect_sign(rest, Sign::CloseParen)?;
    let (needs, rest) = needs(alloc, rest)?;
    let (body, rest) = body(alloc, rest)?;
    let Given { me, params } = given;
    Ok((
        Method {
            class,
            result: ty,
            name,
            groups,
            me,
            params,
            needs,
            body,
        },
        rest,
    ))
}
