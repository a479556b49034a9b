// Words and numbers.
ghost use Rattle.std.specs.Prelude.{◌≡◌, ◌≢◌, ◌<◌, ◌≤◌, ◌^◌, pos, MatchOption, IfOk};
ghost use Rattle.std.specs.Str.{encode_utf8_all};
ghost use Rattle.ae_text.specs.Tokens.{Text, keyword_text, is_digit, Each, IsWord, Spells, IsInRange, digits_value};
ghost use Rattle.ae_text.specs.declared.token.Keyword.{Keyword};

use crate::token::{Keyword, TokenKind};
use sqlite_items::Items;
use std::alloc::{AllocError, Global};

const KEYWORDS: [Keyword; 35] = [
    Keyword::Ints,
    Keyword::Assert,
    Keyword::Atomic,
    Keyword::Bool,
    Keyword::Class,
    Keyword::Else,
    Keyword::Exclusive,
    Keyword::False,
    Keyword::Freeze,
    Keyword::Group,
    Keyword::If,
    Keyword::Immutable,
    Keyword::Int,
    Keyword::Into,
    Keyword::Len,
    Keyword::Lent,
    Keyword::Let,
    Keyword::Method,
    Keyword::New,
    Keyword::None,
    Keyword::Null,
    Keyword::Open,
    Keyword::Print,
    Keyword::Protected,
    Keyword::Return,
    Keyword::Share,
    Keyword::Shared,
    Keyword::Split,
    Keyword::Take,
    Keyword::This,
    Keyword::True,
    Keyword::Unique,
    Keyword::Void,
    Keyword::While,
    Keyword::With,
];

const MAX_INT: u64 = 9_223_372_036_854_775_807;

impl Keyword {
    /// The word as a source writes it.
    pub fn text(self) -> &'static str
        ensures { result.now ≡ keyword_text self }
    {
        match self {
            Keyword::Ints => "Ints",
            Keyword::Assert => "assert",
            Keyword::Atomic => "atomic",
            Keyword::Bool => "bool",
            Keyword::Class => "class",
            Keyword::Else => "else",
            Keyword::Exclusive => "exclusive",
            Keyword::False => "false",
            Keyword::Freeze => "freeze",
            Keyword::Group => "group",
            Keyword::If => "if",
            Keyword::Immutable => "immutable",
            Keyword::Int => "int",
            Keyword::Into => "into",
            Keyword::Len => "len",
            Keyword::Lent => "lent",
            Keyword::Let => "let",
            Keyword::Method => "method",
            Keyword::New => "new",
            Keyword::None => "none",
            Keyword::Null => "null",
            Keyword::Open => "open",
            Keyword::Print => "print",
            Keyword::Protected => "protected",
            Keyword::Return => "return",
            Keyword::Share => "share",
            Keyword::Shared => "shared",
            Keyword::Split => "split",
            Keyword::Take => "take",
            Keyword::This => "this",
            Keyword::True => "true",
            Keyword::Unique => "unique",
            Keyword::Void => "void",
            Keyword::While => "while",
            Keyword::With => "with",
        }
    }
}

fn keyword(s: &[u8]) -> Option<Keyword>
    ensures { MatchOption result ((k : Keyword) → s.now ≢ keyword_text k) (λ k. s.now ≡ keyword_text k) }
{
    for keyword in KEYWORDS {
        if s == keyword.text().as_bytes() {
            return Some(keyword);
        }
    }
    None
}

// The kind of a word, which is a keyword or a name.
pub fn word(alloc: Global, s: &[u8]) -> Result<TokenKind, AllocError>
    ensures { IfOk result (λ k. (cs : Text) → s.now ≡ encode_utf8_all cs → IsWord cs → Spells k cs × IsInRange k cs) }
{
    match keyword(s) {
        Some(keyword) => Ok(TokenKind::Word(keyword)),
        None => Ok(TokenKind::Name(Items::from_slice(alloc, s)?)),
    }
}

// The number that the digits spell, if it is below 2 ^ 63.
pub fn number(s: &[u8]) -> Option<i64>
    requires { Each is_digit s.now }
    ensures { MatchOption result (2 ^ 63 ≤ digits_value s.now)
        (λ n. (n ≡ pos (digits_value s.now)) × (digits_value s.now < 2 ^ 63)) }
{
    let mut n = 0u64;
    for b in s {
        let d = u64::from(*b - b'0');
        if n > (MAX_INT - d) / 10 {
            return None;
        }
        n = n * 10 + d;
    }
    Some(n as i64)
}
