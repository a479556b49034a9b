// A token whose name is a number.
use crate::tree::Name;
use ae_text::{Items, Keyword, Sign, Spot};

/// What a token is, where a name is its number.
#[derive(Drop)]
pub enum Lexical {
    Name(Name),
    Int(i64),
    Text(Items<u8>),
    Word(Keyword),
    Sign(Sign),
    End,
}

/// A token as the grammar sees it, with its place.
#[derive(Drop)]
pub struct Lexeme {
    pub kind: Lexical,
    pub at: Spot,
}
