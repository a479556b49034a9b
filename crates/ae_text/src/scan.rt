// Cuts a text into tokens, from left to right.
ghost use Rattle.std.specs.Prelude.{◌≡◌, ◌<◌, ◌≤◌, ◌+◌, ◌^◌, ◌==◌, ℕ, count_by, take, List, [], ◌∷◌, ◌++◌, length};
ghost use Rattle.std.specs.Prelude.{MatchOption, MatchResult, IfOk, IfErr, OnOk};
ghost use Rattle.std.specs.Str.{chars};
ghost use Rattle.ae_text.specs.Tokens.{Text, Lexes, LexFault, IsTextDenied, IsWhole, NoComment, spot_after, place};
ghost use Rattle.ae_text.specs.Tokens.{Each, in_line};
ghost use Rattle.ae_text.specs.Scan.{Front, CommentThen, Cuts, Faults, IsFaultWithin, token_of, denied};
ghost use Rattle.ae_text.specs.declared.token.Token.{Token};
ghost use Rattle.ae_text.specs.declared.refusal.Rule.{Rule};

use crate::characters::{Class, digit, next, span, starts_word, white};
use crate::faults::Fault;
use crate::refusal::{Deny, Refusal, Rule, Spot};
use crate::signs::sign;
use crate::texts;
use crate::token::{Token, TokenKind};
use crate::words::{number, word};
use sqlite_items::Items;
use std::alloc::{AllocError, Global};

// What comes after the comment at the front, if there is one.
fn comment<'a>(text: &'a str) -> Option<&'a str>
    ensures { MatchOption result (NoComment (chars text.now)) (λ after. CommentThen text.now after.now) }
{
    let (first, rest) = next(text)?;
    let (second, line) = next(rest)?;
    if first != '/' || second != '/' {
        return None;
    }
    let (_, after) = span(Class::Line, line);
    Some(after)
}

// The piece at the front: the kind of a token, or none for a gap, and what comes after it.
fn piece<'a>(
    alloc: Global,
    text: &'a str,
    first: char,
    rest: &'a str,
) -> Result<(Option<TokenKind>, &'a str), Fault>
    requires { Front text.now (first ∷ []) rest.now }
    ensures { MatchResult result (λ p. Cuts text.now p.0 p.1.now) (Faults text.now) }
{
    if white(first) {
        return Ok((None, rest));
    }
    if starts_word(first) {
        let (s, after) = span(Class::Word, text);
        let kind = word(alloc, s)?;
        return Ok((Some(kind), after));
    }
    if digit(first) {
        let (digits, after) = span(Class::Digit, text);
        return match number(digits) {
            Some(n) => Ok((Some(TokenKind::Int(n)), after)),
            None => Err(Fault::Rule(Rule::IntTooLarge, 0)),
        };
    }
    if first == '"' {
        let (value, after) = texts::text(alloc, text, rest)?;
        return Ok((Some(TokenKind::Text(value)), after));
    }
    if let Some(after) = comment(text) {
        return Ok((None, after));
    }
    match sign(text) {
        Some((sign, after)) => Ok((Some(TokenKind::Sign(sign)), after)),
        None => Err(Fault::Rule(Rule::BadChar, 0)),
    }
}

// The place after these bytes.
fn advance(mut spot: Spot, bytes: &[u8]) -> Spot
    requires line { spot.line + length bytes.now < 2 ^ 32 }
    requires col { spot.col + length bytes.now < 2 ^ 32 }
    requires first { 0 < spot.col }
    ensures { result ≡ spot_after spot bytes.now }
{
    for b in bytes {
        if *b == b'\n' {
            spot = Spot {
                line: spot.line + 1,
                col: 1,
            };
        } else {
            spot.col += 1;
        }
    }
    spot
}

fn push_token(
    tokens: &mut Items<Token>,
    kind: Option<TokenKind>,
    begin: u64,
    end: u64,
    at: Spot,
) -> Result<(), AllocError>
    ensures { OnOk result (tokens.new ≡ tokens.old ++ token_of kind begin end at) }
{
    if let Some(kind) = kind {
        tokens.push(Token {
            kind,
            begin,
            end,
            at,
        })?;
    }
    Ok(())
}

// The refusal of a fault in the text that begins at the place.
fn deny(fault: Fault, text: &[u8], at: Spot) -> Deny
    requires within { IsFaultWithin fault text.now }
    requires line { at.line + length text.now < 2 ^ 32 }
    requires col { at.col + length text.now < 2 ^ 32 }
    requires first { 0 < at.col }
    ensures { result ≡ denied fault text.now at }
{
    match fault {
        Fault::Rule(rule, ahead) => Deny::Refused(Refusal {
            rule,
            at: advance(at, &text[..ahead]),
        }),
        Fault::Memory => Deny::Memory,
    }
}

// The refusal of bytes that are UTF-8 up to an offset.
fn not_text(text: &[u8], valid: usize) -> Deny
    requires most { length text.now ≤ 1048576 }
    requires within { valid ≤ length text.now }
    ensures { result ≡ Deny.Refused (record { rule = Rule.NotText; at = place text.now valid }) }
{
    Deny::Refused(Refusal {
        rule: Rule::NotText,
        at: advance(Spot { line: 1, col: 1 }, &text[..valid]),
    })
}

// The tokens of a text in UTF-8.
fn scan(alloc: Global, text: &str) -> Result<Items<Token>, Deny>
    requires { length text.now ≤ 1048576 }
    ensures ok { IfOk result (Lexes text.now) }
    ensures refused { IfErr result (IsTextDenied text.now) }
    ensures only { IfErr result (λ e. (tokens : List Token) → Lexes text.now tokens → e ≡ Deny.Memory) }
{
    let mut tokens = Items::new(alloc);
    let mut rest = text;
    let mut spot = Spot { line: 1, col: 1 };
    'pieces: while let Some((first, more)) = next(rest) {
        match piece(alloc, rest, first, more) {
            Ok((kind, after)) => {
                let begin = text.len() - rest.len();
                let len = rest.len() - after.len();
                push_token(&mut tokens, kind, begin as u64, (begin + len) as u64, spot)?;
                spot = advance(spot, &rest.as_bytes()[..len]);
                rest = after;
            }
            Err(fault) => return Err(deny(fault, rest.as_bytes(), spot)),
        }
    }
    let end = text.len() as u64;
    tokens.push(Token {
        kind: TokenKind::End,
        begin: end,
        end,
        at: spot,
    })?;
    Ok(tokens)
}

/// The tokens of a text of at most 1,048,576 bytes, or the first place at which it has none.
pub fn lex(alloc: Global, text: &[u8]) -> Result<Items<Token>, Deny>
    requires { length text.now ≤ 1048576 }
    ensures ok { IfOk result (Lexes text.now) }
    ensures only { (tokens : List Token) → Lexes text.now tokens
        → MatchResult result (λ found. found ≡ tokens) (λ e. e ≡ Deny.Memory) }
    ensures refused { IfErr result (IsTextDenied text.now) }
    ensures whole { IfOk result IsWhole }
    ensures few { IfOk result (λ ts. length ts ≤ length text.now + 1) }
{
    match str::from_utf8(text) {
        Ok(characters) => scan(alloc, characters),
        Err(error) => Err(not_text(text, error.valid_up_to())),
    }
}

/// No text has two lists of tokens.
pub fn tokens_are_unique()
    ensures { (text : Text) (a b : List Token) → Lexes text a → Lexes text b → a ≡ b }
{}

/// No text has two faults, and none has both a fault and tokens.
pub fn faults_are_unique()
    ensures one { (text : Text) (r q : Rule) (m n : ℕ) → LexFault text r m → LexFault text q n → (r ≡ q) × (m ≡ n) }
    ensures no_tokens { (text : Text) (r : Rule) (m : ℕ) (tokens : List Token) → LexFault text r m → Lexes text tokens
        → ⊥ }
{}

/// The line of a place is 1 and the line feeds before it, its column 1 and the bytes behind the last of them.
pub fn places_are_counted()
    ensures line { (text : Text) (at : ℕ) → (place text at).line ≡ 1 + count_by (λ b. b == 10) (take at text) }
    ensures first { (text : Text) (at : ℕ) → Each in_line (take at text)
        → (place text at).col ≡ 1 + length (take at text) }
    ensures later { (text before line : Text) (at : ℕ) → take at text ≡ before ++ 10 ∷ line → Each in_line line
        → (place text at).col ≡ 1 + length line }
{}
