// What a method needs of its groups.
ghost use Rattle.std.specs.Prelude.{◌≡◌};
ghost use Rattle.ae_text.specs.declared.token.Sign.TheVariants as sign;
ghost use Rattle.ae_tree.specs.declared.lexeme.Lexical.TheVariants as tok;
ghost use Rattle.ae_tree.specs.Grammar as grammar;
ghost use Rattle.ae_reading.specs.Reads.{Reads, itself, Always, Free, Is};
ghost use Rattle.ae_parser.specs.Productions as productions;

use ae_reading::{Fail, expect_sign, expect_word, in_front, is_sign_next, is_word_next, name};
use ae_text::{Items, Keyword, Sign};
use ae_tree::{GroupNeed, Lexeme, Need};
use std::alloc::Global;

fn need_by<'a>(
    ts: &'a [Lexeme],
    word: Keyword,
    need: Need,
) -> Result<(GroupNeed, &'a [Lexeme]), Fail>
    requires { grammar.need_word need ≡ word }
    ensures { Reads itself (productions.need_by word) Free Always ts.now result }
{
    let (_, rest) = expect_word(ts, word)?;
    let (group, rest) = name(rest)?;
    Ok((GroupNeed { need, group }, rest))
}

fn need<'a>(ts: &'a [Lexeme]) -> Result<(GroupNeed, &'a [Lexeme]), Fail>
    ensures { Reads itself grammar.need Free Always ts.now result }
{
    if is_word_next(ts, Keyword::Exclusive) {
        need_by(ts, Keyword::Exclusive, Need::Exclusive)
    } else if is_word_next(ts, Keyword::Shared) {
        need_by(ts, Keyword::Shared, Need::Shared)
    } else {
        need_by(ts, Keyword::Protected, Need::Protected)
    }
}

fn further_need<'a>(ts: &'a [Lexeme]) -> Result<(GroupNeed, &'a [Lexeme]), Fail>
    ensures { Reads itself (grammar.further grammar.need) Free Always ts.now result }
{
    let (_, rest) = expect_sign(ts, Sign::Comma)?;
    need(rest)
}

fn further_needs<'a>(
    alloc: Global,
    ts: &'a [Lexeme],
) -> Result<(Items<GroupNeed>, &'a [Lexeme]), Fail>
    ensures { Reads itself (grammar.one_by_one (grammar.further grammar.need)) Free
        (Is (tok.Sign sign.OpenBrace)) ts.now result }
{
    let mut needs = Items::new(alloc);
    let mut rest = ts;
    'needs: while is_sign_next(rest, Sign::Comma) {
        let (need, after) = further_need(rest)?;
        needs.push(need)?;
        rest = after;
    }
    Ok((needs, rest))
}

fn some_needs<'a>(alloc: Global, ts: &'a [Lexeme]) -> Result<(Items<GroupNeed>, &'a [Lexeme]), Fail>
    ensures { Reads itself productions.some_needs Free (Is (tok.Sign sign.OpenBrace)) ts.now result }
{
    let (_, rest) = expect_word(ts, Keyword::With)?;
    let (first, rest) = need(rest)?;
    let (more, rest) = further_needs(alloc, rest)?;
    Ok((in_front(alloc, first, more)?, rest))
}

/// `with` and needs, or none.
pub(crate) fn needs<'a>(
    alloc: Global,
    ts: &'a [Lexeme],
) -> Result<(Items<GroupNeed>, &'a [Lexeme]), Fail>
    ensures { Reads itself grammar.needs Free (Is (tok.Sign sign.OpenBrace)) ts.now result }
{
    if is_word_next(ts, Keyword::With) {
        some_needs(alloc, ts)
    } else {
        Ok((Items::new(alloc), ts))
    }
}
