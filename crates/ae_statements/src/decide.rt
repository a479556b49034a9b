// Whether a right side is an expression or a call, from the tokens ahead.
ghost use Rattle.std.specs.Prelude.{◌≡◌, ◌∷◌, MatchOption};
ghost use Rattle.ae_statements.specs.Deciding as deciding;
ghost use Rattle.ae_statements.specs.Deciding.{AllSteps, BehindLess, BehindName, BehindPath, Decides, IsPlainSide};
ghost use Rattle.ae_statements.specs.Deciding.{Steps};

use ae_reading::{is_name_next, is_sign_next, is_word_next, next};
use ae_text::{Keyword, Sign};
use ae_tree::{Lexeme, Lexical};

/// What a right side that begins with neither `take` nor `new` is known to be.
#[derive(Clone, Copy, Debug, PartialEq, Eq)]
pub(crate) enum Decided {
    /// Only an expression, from the token on with so many left.
    Value(usize),
    /// Only a call.
    Call,
    /// Neither: the token with so many left from it on is refused.
    Neither(usize),
}

fn starts(kind: &Lexical) -> bool
    ensures { result ≡ deciding.starts kind.now }
{
    match kind {
        Lexical::Name(_) | Lexical::Int(_) => true,
        Lexical::Word(word) => matches!(
            word,
            Keyword::True | Keyword::False | Keyword::Null | Keyword::Len | Keyword::This
        ),
        Lexical::Sign(sign) => matches!(sign, Sign::OpenParen | Sign::Not | Sign::Minus),
        Lexical::Text(_) | Lexical::End => false,
    }
}

fn follows_path(kind: &Lexical) -> bool
    ensures { result ≡ deciding.follows_path kind.now }
{
    match kind {
        Lexical::Sign(sign) => matches!(
            sign,
            Sign::Semicolon
                | Sign::OpenBracket
                | Sign::OrOr
                | Sign::AndAnd
                | Sign::Equal
                | Sign::NotEqual
                | Sign::Less
                | Sign::LessEqual
                | Sign::Greater
                | Sign::GreaterEqual
                | Sign::Plus
                | Sign::Minus
                | Sign::Star
                | Sign::Slash
                | Sign::Percent
        ),
        _ => false,
    }
}

fn follows_compared(kind: &Lexical) -> bool
    ensures { result ≡ deciding.follows_compared kind.now }
{
    match kind {
        Lexical::Sign(sign) => matches!(
            sign,
            Sign::Semicolon
                | Sign::OpenBracket
                | Sign::Dot
                | Sign::OrOr
                | Sign::AndAnd
                | Sign::Plus
                | Sign::Minus
                | Sign::Star
                | Sign::Slash
                | Sign::Percent
        ),
        _ => false,
    }
}

fn follows_group(kind: &Lexical) -> bool
    ensures { result ≡ deciding.follows_group kind.now }
{
    match kind {
        Lexical::Sign(sign) => matches!(sign, Sign::Comma | Sign::Greater),
        _ => false,
    }
}

/// Behind a path that may be called, `<` and a name.
fn behind_name(ts: &[Lexeme]) -> Decided
    ensures { BehindName ts.now result }
{
    let Some((first, _)) = next(ts) else {
        return Decided::Neither(0);
    };
    if follows_group(&first.kind) {
        Decided::Call
    } else if follows_compared(&first.kind) {
        Decided::Value(ts.len())
    } else {
        Decided::Neither(ts.len())
    }
}

/// Behind a path that may be called and `<`.
fn behind_less(ts: &[Lexeme]) -> Decided
    ensures { BehindLess ts.now result }
{
    let Some((first, rest)) = next(ts) else {
        return Decided::Neither(0);
    };
    if is_name_next(ts) {
        behind_name(rest)
    } else if starts(&first.kind) {
        Decided::Value(ts.len())
    } else {
        Decided::Neither(ts.len())
    }
}

/// Behind a path.
fn behind_path(ts: &[Lexeme]) -> Decided
    ensures { BehindPath ts.now result }
{
    let Some((first, rest)) = next(ts) else {
        return Decided::Neither(0);
    };
    if is_sign_next(ts, Sign::Dot) {
        Decided::Neither(rest.len())
    } else if is_sign_next(ts, Sign::OpenParen) {
        Decided::Call
    } else if is_sign_next(ts, Sign::Less) {
        behind_less(rest)
    } else if follows_path(&first.kind) {
        Decided::Value(ts.len())
    } else {
        Decided::Neither(ts.len())
    }
}

/// What stands behind `.` and a name, where these come next.
fn step<'a>(ts: &'a [Lexeme]) -> Option<&'a [Lexeme]>
    ensures { MatchOption result ((rest : _) → Steps ts.now rest → ⊥) (λ rest. Steps ts.now rest.now) }
{
    let (_, behind) = next(ts)?;
    let (_, rest) = next(behind)?;
    if is_sign_next(ts, Sign::Dot) && is_name_next(behind) {
        Some(rest)
    } else {
        None
    }
}

fn behind_steps<'a>(ts: &'a [Lexeme]) -> &'a [Lexeme]
    ensures { AllSteps ts.now result.now }
{
    let mut rest = ts;
    'steps: while let Some(behind) = step(rest) {
        rest = behind;
    }
    rest
}

/// Behind `this`, which is not called itself.
fn behind_this(ts: &[Lexeme]) -> Decided
    ensures { (this : Lexeme) → this.kind ≡ Lexical.Word Keyword.This → Decides (this ∷ ts.now) result }
{
    if is_sign_next(ts, Sign::Dot) {
        behind_path(behind_steps(ts))
    } else {
        Decided::Value(ts.len())
    }
}

/// Whether a right side is an expression or a call. Its path is looked through, and no token is taken.
pub(crate) fn decide(ts: &[Lexeme]) -> Decided
    requires { IsPlainSide ts.now }
    ensures { Decides ts.now result }
{
    let Some((_, rest)) = next(ts) else {
        return Decided::Value(ts.len());
    };
    if is_name_next(ts) {
        behind_path(behind_steps(rest))
    } else if is_word_next(ts, Keyword::This) {
        behind_this(rest)
    } else {
        Decided::Value(ts.len())
    }
}
