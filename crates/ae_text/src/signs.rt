// Signs, the longest first.
ghost use Rattle.std.specs.Prelude.{◌≡◌, ◌≢◌, [], ◌∷◌, MatchOption};
ghost use Rattle.std.specs.Str.{chars};
ghost use Rattle.ae_text.specs.Tokens.{sign_text};
ghost use Rattle.ae_text.specs.Scan.{NoSign, SignThen};
ghost use Rattle.ae_text.specs.declared.token.Sign.{Sign};

use crate::characters::next;
use crate::token::Sign;

fn double(first: char, second: char) -> Option<Sign>
    ensures { MatchOption result ((g : Sign) → sign_text g ≢ first ∷ second ∷ [])
        (λ g. sign_text g ≡ first ∷ second ∷ []) }
{
    match (first, second) {
        ('>', '>') => Some(Sign::Away),
        ('=', '=') => Some(Sign::Equal),
        ('!', '=') => Some(Sign::NotEqual),
        ('<', '=') => Some(Sign::LessEqual),
        ('>', '=') => Some(Sign::GreaterEqual),
        ('&', '&') => Some(Sign::AndAnd),
        ('|', '|') => Some(Sign::OrOr),
        _ => None,
    }
}

fn single(first: char) -> Option<Sign>
    ensures { MatchOption result ((g : Sign) → sign_text g ≢ first ∷ []) (λ g. sign_text g ≡ first ∷ []) }
{
    match first {
        '{' => Some(Sign::OpenBrace),
        '}' => Some(Sign::CloseBrace),
        '(' => Some(Sign::OpenParen),
        ')' => Some(Sign::CloseParen),
        '[' => Some(Sign::OpenBracket),
        ']' => Some(Sign::CloseBracket),
        '<' => Some(Sign::Less),
        '>' => Some(Sign::Greater),
        ',' => Some(Sign::Comma),
        ';' => Some(Sign::Semicolon),
        '.' => Some(Sign::Dot),
        '=' => Some(Sign::Assign),
        '+' => Some(Sign::Plus),
        '-' => Some(Sign::Minus),
        '*' => Some(Sign::Star),
        '/' => Some(Sign::Slash),
        '%' => Some(Sign::Percent),
        '!' => Some(Sign::Not),
        _ => None,
    }
}

// The sign at the front, and what comes after it.
pub fn sign<'a>(text: &'a str) -> Option<(Sign, &'a str)>
    ensures { MatchOption result (NoSign (chars text.now)) (λ p. SignThen text.now p.0 p.1.now) }
{
    let (first, rest) = next(text)?;
    if let Some((second, after)) = next(rest) {
        if let Some(sign) = double(first, second) {
            return Some((sign, after));
        }
    }
    let sign = single(first)?;
    Some((sign, rest))
}
