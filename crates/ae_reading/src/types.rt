// Permissions and types.
ghost use Rattle.ae_text.specs.declared.token.Sign.TheVariants as sign;
ghost use Rattle.ae_tree.specs.declared.lexeme.Lexical.TheVariants as tok;
ghost use Rattle.ae_tree.specs.Grammar as grammar;
ghost use Rattle.ae_reading.specs.Reads.{Reads, itself, Always, Free, Isnt};
ghost use Rattle.ae_reading.specs.Parts as parts;

use crate::fail::Fail;
use crate::lists::groups;
use crate::terminals::{expect_sign, expect_word, is_word_next, name};
use ae_text::{Keyword, Sign};
use ae_tree::{KindAt, Lexeme, PermAt, Ty};
use std::alloc::Global;

fn shared<'a>(ts: &'a [Lexeme]) -> Result<(PermAt, &'a [Lexeme]), Fail>
    ensures { Reads itself parts.shared_permission Free Always ts.now result }
{
    let (at, rest) = expect_word(ts, Keyword::Shared)?;
    let (_, rest) = expect_sign(rest, Sign::Less)?;
    let (group, rest) = name(rest)?;
    let (_, rest) = expect_sign(rest, Sign::Greater)?;
    Ok((PermAt::Shared(at, group), rest))
}

/// A permission.
pub fn permission<'a>(ts: &'a [Lexeme]) -> Result<(PermAt, &'a [Lexeme]), Fail>
    ensures { Reads itself grammar.permission Free Always ts.now result }
{
    if is_word_next(ts, Keyword::Unique) {
        let (at, rest) = expect_word(ts, Keyword::Unique)?;
        Ok((PermAt::Unique(at), rest))
    } else if is_word_next(ts, Keyword::Immutable) {
        let (at, rest) = expect_word(ts, Keyword::Immutable)?;
        Ok((PermAt::Immutable(at), rest))
    } else if is_word_next(ts, Keyword::Lent) {
        let (at, rest) = expect_word(ts, Keyword::Lent)?;
        Ok((PermAt::Lent(at), rest))
    } else {
        shared(ts)
    }
}

fn class<'a>(alloc: Global, ts: &'a [Lexeme]) -> Result<(KindAt, &'a [Lexeme]), Fail>
    ensures { Reads itself parts.class Free (Isnt (tok.Sign sign.Less)) ts.now result }
{
    let (name, rest) = name(ts)?;
    let (groups, rest) = groups(alloc, rest)?;
    Ok((KindAt::Class(name, groups), rest))
}

/// `Ints`, or a class with its groups.
pub fn kind<'a>(alloc: Global, ts: &'a [Lexeme]) -> Result<(KindAt, &'a [Lexeme]), Fail>
    ensures { Reads itself grammar.kind Free (Isnt (tok.Sign sign.Less)) ts.now result }
{
    if is_word_next(ts, Keyword::Ints) {
        let (at, rest) = expect_word(ts, Keyword::Ints)?;
        Ok((KindAt::Ints(at), rest))
    } else {
        class(alloc, ts)
    }
}

fn object<'a>(alloc: Global, ts: &'a [Lexeme]) -> Result<(Ty, &'a [Lexeme]), Fail>
    ensures { Reads itself parts.object Free (Isnt (tok.Sign sign.Less)) ts.now result }
{
    let (perm, rest) = permission(ts)?;
    let (kind, rest) = kind(alloc, rest)?;
    Ok((Ty::Object(perm, kind), rest))
}

/// A type.
pub fn type_<'a>(alloc: Global, ts: &'a [Lexeme]) -> Result<(Ty, &'a [Lexeme]), Fail>
    ensures { Reads itself grammar.type_ Free (Isnt (tok.Sign sign.Less)) ts.now result }
{
    if is_word_next(ts, Keyword::Int) {
        let (at, rest) = expect_word(ts, Keyword::Int)?;
        Ok((Ty::Int(at), rest))
    } else if is_word_next(ts, Keyword::Bool) {
        let (at, rest) = expect_word(ts, Keyword::Bool)?;
        Ok((Ty::Bool(at), rest))
    } else {
        object(alloc, ts)
    }
}
