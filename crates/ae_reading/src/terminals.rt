// Single tokens.
ghost use Rattle.std.specs.Prelude.{◌≡◌, ◌≢◌, [], ◌∷◌, length, Err, MatchOption, MatchBool};
ghost use Rattle.ae_tree.specs.Grammar as grammar;
ghost use Rattle.ae_reading.specs.Reads.{Reads, itself, Always, Free, Is, IsName, Token, head};

use crate::fail::{Fail, Why};
use ae_text::{Keyword, Sign, Spot};
use ae_tree::{Lexeme, Lexical, NameAt};

/// The next token, and those behind it.
pub fn next<'a>(ts: &'a [Lexeme]) -> Option<(&'a Lexeme, &'a [Lexeme])>
    ensures { MatchOption result (ts.now ≡ []) (λ p. ts.now ≡ p.0.now ∷ p.1.now) }
{
    ts.split_first()
}

/// The next token is refused.
pub fn unexpected<T>(ts: &[Lexeme]) -> Result<T, Fail>
    ensures { result ≡ Err (Fail.Refused Why.Unexpected (length ts.now)) }
{
    Err(Fail::Refused(Why::Unexpected, ts.len()))
}

fn is_same_sign(a: Sign, b: Sign) -> bool
    ensures { MatchBool result (a ≡ b) (a ≢ b) }
{
    a == b
}

fn is_same_word(a: Keyword, b: Keyword) -> bool
    ensures { MatchBool result (a ≡ b) (a ≢ b) }
{
    a == b
}

fn is_sign(kind: &Lexical, sign: Sign) -> bool
    ensures { MatchBool result (kind.now ≡ Lexical.Sign sign) (kind.now ≢ Lexical.Sign sign) }
{
    match kind {
        Lexical::Sign(found) => is_same_sign(*found, sign),
        _ => false,
    }
}

fn is_word(kind: &Lexical, word: Keyword) -> bool
    ensures { MatchBool result (kind.now ≡ Lexical.Word word) (kind.now ≢ Lexical.Word word) }
{
    match kind {
        Lexical::Word(found) => is_same_word(*found, word),
        _ => false,
    }
}

/// Takes this sign.
pub fn expect_sign<'a>(ts: &'a [Lexeme], sign: Sign) -> Result<(Spot, &'a [Lexeme]), Fail>
    ensures { Reads itself (Token (Lexical.Sign sign)) Free Always ts.now result }
{
    let Some((first, rest)) = next(ts) else {
        return unexpected(ts);
    };
    if is_sign(&first.kind, sign) {
        Ok((first.at, rest))
    } else {
        unexpected(ts)
    }
}

/// Takes this word.
pub fn expect_word<'a>(ts: &'a [Lexeme], word: Keyword) -> Result<(Spot, &'a [Lexeme]), Fail>
    ensures { Reads itself (Token (Lexical.Word word)) Free Always ts.now result }
{
    let Some((first, rest)) = next(ts) else {
        return unexpected(ts);
    };
    if is_word(&first.kind, word) {
        Ok((first.at, rest))
    } else {
        unexpected(ts)
    }
}

/// Takes any name.
pub fn name<'a>(ts: &'a [Lexeme]) -> Result<(NameAt, &'a [Lexeme]), Fail>
    ensures { Reads itself grammar.name Free Always ts.now result }
{
    let Some((first, rest)) = next(ts) else {
        return unexpected(ts);
    };
    match &first.kind {
        Lexical::Name(number) => Ok((
            NameAt {
                name: *number,
                at: first.at,
            },
            rest,
        )),
        _ => unexpected(ts),
    }
}

/// Whether this sign comes next.
pub fn is_sign_next(ts: &[Lexeme], sign: Sign) -> bool
    ensures { MatchBool result (Is (Lexical.Sign sign) (head ts.now)) (Is (Lexical.Sign sign) (head ts.now) → ⊥) }
{
    match next(ts) {
        Some((first, _)) => is_sign(&first.kind, sign),
        None => false,
    }
}

/// Whether this word comes next.
pub fn is_word_next(ts: &[Lexeme], word: Keyword) -> bool
    ensures { MatchBool result (Is (Lexical.Word word) (head ts.now)) (Is (Lexical.Word word) (head ts.now) → ⊥) }
{
    match next(ts) {
        Some((first, _)) => is_word(&first.kind, word),
        None => false,
    }
}

/// Whether a name comes next.
pub fn is_name_next(ts: &[Lexeme]) -> bool
    ensures { MatchBool result (IsName (head ts.now)) (IsName (head ts.now) → ⊥) }
{
    match next(ts) {
        Some((first, _)) => matches!(&first.kind, Lexical::Name(_)),
        None => false,
    }
}

/// Whether the end comes next.
pub fn is_end_next(ts: &[Lexeme]) -> bool
    ensures { MatchBool result (Is Lexical.End (head ts.now)) (Is Lexical.End (head ts.now) → ⊥) }
{
    match next(ts) {
        Some((first, _)) => matches!(&first.kind, Lexical::End),
        None => false,
    }
}
