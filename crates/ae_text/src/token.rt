// Tokens: the words, numbers, texts and signs of a source, each with its place.
use crate::refusal::Spot;
use sqlite_items::Items;

/// A reserved word. `Open` is reserved and stands in no form.
#[derive(Clone, Copy, Debug, PartialEq, Eq)]
pub enum Keyword {
    Ints,
    Assert,
    Atomic,
    Bool,
    Class,
    Else,
    Exclusive,
    False,
    Freeze,
    Group,
    If,
    Immutable,
    Int,
    Into,
    Len,
    Lent,
    Let,
    Method,
    New,
    None,
    Null,
    Open,
    Print,
    Protected,
    Return,
    Share,
    Shared,
    Split,
    Take,
    This,
    True,
    Unique,
    Void,
    While,
    With,
}

/// A sign. `Away` is `>>`, as in `>> none`.
#[derive(Clone, Copy, Debug, PartialEq, Eq)]
pub enum Sign {
    OpenBrace,
    CloseBrace,
    OpenParen,
    CloseParen,
    OpenBracket,
    CloseBracket,
    Less,
    Greater,
    Away,
    Comma,
    Semicolon,
    Dot,
    Assign,
    Equal,
    NotEqual,
    LessEqual,
    GreaterEqual,
    Plus,
    Minus,
    Star,
    Slash,
    Percent,
    Not,
    AndAnd,
    OrOr,
}

/// What a token is. A name has its bytes, and a text the bytes that it stands for, with no escape left.
#[derive(Debug, Drop)]
pub enum TokenKind {
    Name(Items<u8>),
    Int(i64),
    Text(Items<u8>),
    Word(Keyword),
    Sign(Sign),
    End,
}

/// A token: what it is, the offsets in bytes of its first byte and of the byte behind it, and its place.
#[derive(Debug, Drop)]
pub struct Token {
    pub kind: TokenKind,
    pub begin: u64,
    pub end: u64,
    pub at: Spot,
}
