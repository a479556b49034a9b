// Characters by what they are good for, and the spans of them at the front of a text.
ghost use Rattle.std.specs.Prelude.{◌≡◌, [], ◌∷◌, MatchOption, IsTrue};
ghost use Rattle.std.specs.Str.{chars};
ghost use Rattle.ae_text.specs.Tokens.{is_white, is_digit, begins_word, Stops};
ghost use Rattle.ae_text.specs.Scan.{is_in_class, Front, Continues, Spans};

use unicode_ident::{is_xid_continue, is_xid_start};

#[derive(Clone, Copy)]
pub enum Class {
    Digit,
    Word,
    Line,
}

pub fn white(c: char) -> bool
    ensures { result ≡ is_white c }
{
    c == ' ' || c == '\t' || c == '\n' || c == '\r'
}

pub fn digit(c: char) -> bool
    ensures { result ≡ is_digit c }
{
    '0' <= c && c <= '9'
}

pub fn starts_word(c: char) -> bool
    ensures { result ≡ begins_word c }
{
    c == '_' || is_xid_start(c)
}

fn is_in(class: Class, c: char) -> bool
    ensures { result ≡ is_in_class class c }
{
    match class {
        Class::Digit => digit(c),
        Class::Word => is_xid_continue(c),
        Class::Line => c != '\n',
    }
}

// The first character, and what comes after it.
pub fn next<'a>(text: &'a str) -> Option<(char, &'a str)>
    ensures { MatchOption result (chars text.now ≡ []) (λ p. Front text.now (p.0 ∷ []) p.1.now) }
{
    let mut characters = text.chars();
    let first = characters.next()?;
    Some((first, characters.as_str()))
}

// What comes after the first character, if that is of the class.
fn next_in<'a>(class: Class, text: &'a str) -> Option<&'a str>
    ensures { MatchOption result (Stops (is_in_class class) (chars text.now))
        (λ after. Continues (is_in_class class) text.now after.now) }
{
    let (first, after) = next(text)?;
    if is_in(class, first) {
        Some(after)
    } else {
        None
    }
}

// The bytes of the characters of the class at the front, and what comes after them.
pub fn span<'a>(class: Class, text: &'a str) -> (&'a [u8], &'a str)
    ensures { Spans (is_in_class class) text.now result.0.now result.1.now }
{
    let mut after = text;
    'span: while let Some(rest) = next_in(class, after) {
        after = rest;
    }
    (&text.as_bytes()[..text.len() - after.len()], after)
}
