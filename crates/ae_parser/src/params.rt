// What a method is given.
ghost use Rattle.std.specs.Prelude.{◌≡◌, MatchBool};
ghost use Rattle.ae_text.specs.declared.token.Sign.TheVariants as sign;
ghost use Rattle.ae_tree.specs.declared.lexeme.Lexical.TheVariants as tok;
ghost use Rattle.ae_tree.specs.Grammar as grammar;
ghost use Rattle.ae_reading.specs.Reads.{Reads, itself, Always, Free, Is, Isnt, head};
ghost use Rattle.ae_parser.specs.Productions as productions;
ghost use Rattle.ae_parser.specs.Productions.{BeginsType, NoType, AtMostParams, FewGiven, ParamNext};

use ae_reading::{
    Fail, Why, expect_sign, expect_word, in_front, is_sign_next, is_word_next, name, permission,
    type_,
};
use ae_text::{Items, Keyword, Sign, Spot};
use ae_tree::{Lexeme, Limit, Me, Param};
use std::alloc::Global;

/// How many parameters may stand behind the first one, or behind the receiver.
const MOST_FURTHER: usize = 15;

/// The receiver of a method, where it has one, and its parameters.
#[derive(Drop)]
pub(crate) struct Given {
    pub(crate) me: Option<Me>,
    pub(crate) params: Items<Param>,
}

/// Whether a type comes next.
pub(crate) fn is_type_next(ts: &[Lexeme]) -> bool
    ensures { MatchBool result (BeginsType (head ts.now)) (NoType (head ts.now)) }
{
    if is_word_next(ts, Keyword::Int) {
        return true;
    }
    if is_word_next(ts, Keyword::Bool) {
        return true;
    }
    if is_word_next(ts, Keyword::Unique) {
        return true;
    }
    if is_word_next(ts, Keyword::Immutable) {
        return true;
    }
    if is_word_next(ts, Keyword::Lent) {
        return true;
    }
    is_word_next(ts, Keyword::Shared)
}

fn given_away<'a>(ts: &'a [Lexeme]) -> Result<(Option<Spot>, &'a [Lexeme]), Fail>
    ensures { Reads itself productions.away_mark Free Always ts.now result }
{
    let (at, rest) = expect_sign(ts, Sign::Away)?;
    let (_, rest) = expect_word(rest, Keyword::None)?;
    Ok((Some(at), rest))
}

/// `>> none`, or nothing.
fn away<'a>(ts: &'a [Lexeme]) -> Result<(Option<Spot>, &'a [Lexeme]), Fail>
    ensures { Reads itself grammar.away Free (Isnt (tok.Sign sign.Away)) ts.now result }
{
    if is_sign_next(ts, Sign::Away) {
        given_away(ts)
    } else {
        Ok((None, ts))
    }
}

fn param<'a>(alloc: Global, ts: &'a [Lexeme]) -> Result<(Param, &'a [Lexeme]), Fail>
    ensures { Reads itself grammar.param Free (Isnt (tok.Sign sign.Away)) ts.now result }
{
    let (ty, rest) = type_(alloc, ts)?;
    let (name, rest) = name(rest)?;
    let (away, rest) = away(rest)?;
    Ok((Param { ty, name, away }, rest))
}

fn receiver<'a>(ts: &'a [Lexeme]) -> Result<(Me, &'a [Lexeme]), Fail>
    ensures { Reads itself grammar.me Free (Isnt (tok.Sign sign.Away)) ts.now result }
{
    let (perm, rest) = permission(ts)?;
    let (at, rest) = expect_word(rest, Keyword::This)?;
    let (away, rest) = away(rest)?;
    Ok((Me { perm, at, away }, rest))
}

/// Why no further parameter is taken: one begins here and is over the limit, or none does.
fn no_param(ts: &[Lexeme]) -> Why
    ensures { ParamNext ts.now result }
{
    if is_type_next(ts) {
        Why::Over(Limit::Params)
    } else {
        Why::Unexpected
    }
}

fn further_params<'a>(alloc: Global, ts: &'a [Lexeme]) -> Result<(Items<Param>, &'a [Lexeme]), Fail>
    ensures { Reads itself (grammar.one_by_one (grammar.further grammar.param)) (AtMostParams 15)
        (Is (tok.Sign sign.CloseParen)) ts.now result }
{
    let mut params = Items::new(alloc);
    let mut rest = ts;
    'params: while is_sign_next(rest, Sign::Comma) {
        let (_, behind) = expect_sign(rest, Sign::Comma)?;
        if params.len() >= MOST_FURTHER {
            return Err(Fail::Refused(no_param(behind), behind.len()));
        }
        let (param, after) = param(alloc, behind)?;
        params.push(param)?;
        rest = after;
    }
    Ok((params, rest))
}

fn some_params<'a>(alloc: Global, ts: &'a [Lexeme]) -> Result<(Items<Param>, &'a [Lexeme]), Fail>
    ensures { Reads itself (grammar.separated grammar.param) (AtMostParams 16) (Is (tok.Sign sign.CloseParen)) ts.now
        result }
{
    let (first, rest) = param(alloc, ts)?;
    let (more, rest) = further_params(alloc, rest)?;
    Ok((in_front(alloc, first, more)?, rest))
}

fn listed_params<'a>(alloc: Global, ts: &'a [Lexeme]) -> Result<(Items<Param>, &'a [Lexeme]), Fail>
    ensures { Reads itself (grammar.comma_list grammar.param) (AtMostParams 16) (Is (tok.Sign sign.CloseParen)) ts.now
        result }
{
    if is_sign_next(ts, Sign::CloseParen) {
        Ok((Items::new(alloc), ts))
    } else {
        some_params(alloc, ts)
    }
}

/// What a method of this class, or one at the top, is given.
///
/// The 17th parameter is refused at its first token, with the receiver counted.
pub(crate) fn read_given<'a>(
    alloc: Global,
    class: Option<u32>,
    ts: &'a [Lexeme],
) -> Result<(Given, &'a [Lexeme]), Fail>
    ensures { Reads itself (productions.given_to_method class) FewGiven (Is (tok.Sign sign.CloseParen)) ts.now result }
{
    match class {
        Some(_) => {
            let (me, rest) = receiver(ts)?;
            let (params, rest) = further_params(alloc, rest)?;
            let me = Some(me);
            Ok((Given { me, params }, rest))
        }
        None => {
            let (params, rest) = listed_params(alloc, ts)?;
            Ok((Given { me: None, params }, rest))
        }
    }
}
