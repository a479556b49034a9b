// Texts between quotes, with their escapes.
ghost use Rattle.std.specs.Prelude.{◌≡◌, [], ◌∷◌, MatchOption, MatchResult, IsTrue};
ghost use Rattle.std.specs.Str.{chars};
ghost use Rattle.ae_text.specs.Tokens.{Stops, in_line};
ghost use Rattle.ae_text.specs.Scan.{Front, EndsText, PartThen, PartsThen, NoQuote, Means, IsUnknown, BadEscapeFault};
ghost use Rattle.ae_text.specs.Scan.{ValueThen, Faults};

use crate::characters::next;
use crate::faults::Fault;
use crate::refusal::Rule;
use sqlite_items::Items;
use std::alloc::Global;

// A character that stands for itself, or the one after a `\`.
#[derive(Clone, Copy)]
pub enum Part {
    Plain(char),
    Escape(char),
}

// The next character of the line, and what comes after it.
fn next_in_line<'a>(text: &'a str) -> Option<(char, &'a str)>
    ensures { MatchOption result (Stops in_line (chars text.now))
        (λ p. Front text.now (p.0 ∷ []) p.1.now × IsTrue (in_line p.0)) }
{
    let (first, rest) = next(text)?;
    if first == '\n' {
        return None;
    }
    Some((first, rest))
}

// The part at the front, and what comes after it.
fn next_part<'a>(text: &'a str) -> Option<(Part, &'a str)>
    ensures { MatchOption result (EndsText (chars text.now)) (λ p. PartThen text.now p.0 p.1.now) }
{
    let (first, rest) = next_in_line(text)?;
    if first == '"' {
        return None;
    }
    if first == '\\' {
        let (second, after) = next_in_line(rest)?;
        return Some((Part::Escape(second), after));
    }
    Some((Part::Plain(first), rest))
}

// What comes after all the parts at the front.
fn parts<'a>(text: &'a str) -> &'a str
    ensures { PartsThen text.now result.now }
{
    let mut rest = text;
    'parts: while let Some((_, after)) = next_part(rest) {
        rest = after;
    }
    rest
}

// What comes after the quote at the front, if there is one.
fn closes<'a>(text: &'a str) -> Option<&'a str>
    ensures { MatchOption result (NoQuote (chars text.now)) (λ after. Front text.now (34 ∷ []) after.now) }
{
    let (first, after) = next(text)?;
    if first == '"' { Some(after) } else { None }
}

// The character for which a part stands.
fn meaning(part: Part) -> Option<char>
    ensures { MatchOption result (IsUnknown part) (Means part) }
{
    match part {
        Part::Plain(c) => Some(c),
        Part::Escape('n') => Some('\n'),
        Part::Escape('t') => Some('\t'),
        Part::Escape(c) if c == '"' || c == '\\' => Some(c),
        Part::Escape(_) => None,
    }
}

// The fault of a text with an escape that stands for nothing: it stands there if the text is closed.
fn bad_escape(ahead: usize, after: &str) -> Fault
    ensures { BadEscapeFault ahead (chars after.now) result }
{
    match closes(parts(after)) {
        Some(_) => Fault::Rule(Rule::BadChar, ahead),
        None => Fault::Rule(Rule::OpenText, 0),
    }
}

// The value of the text at the front, and what comes after it; `inner` is what comes after its first quote.
pub fn text<'a>(
    alloc: Global,
    quoted: &'a str,
    inner: &'a str,
) -> Result<(Items<u8>, &'a str), Fault>
    requires { Front quoted.now (34 ∷ []) inner.now }
    ensures { MatchResult result (λ p. ValueThen quoted.now p.0 p.1.now) (Faults quoted.now) }
{
    let mut value = String::new(alloc);
    let mut rest = inner;
    'parts: while let Some((part, after)) = next_part(rest) {
        match meaning(part) {
            Some(c) => value.push(c)?,
            None => return Err(bad_escape(quoted.len() - rest.len(), after)),
        }
        rest = after;
    }
    match closes(rest) {
        Some(after) => Ok((Items::from_vec(value.into_bytes()), after)),
        None => Err(Fault::Rule(Rule::OpenText, 0)),
    }
}
