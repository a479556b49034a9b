// Where the token stands that a limit on expressions refuses.
ghost use Rattle.std.specs.Prelude.{◌≡◌, ◌↔◌, true, IsTrue};
ghost use Rattle.ae_tree.specs.Refused as refused;
ghost use Rattle.ae_tree.specs.Refused.{IsPlaced};
ghost use Rattle.ae_reading.specs.Reads.{Always, Stopped, Failed};
ghost use Rattle.ae_parser.specs.Sides.{Describes, Grows, IsOpenMark};
ghost use Rattle.ae_parser.specs.Reading.{whole_program, KeepsAllWhole, Stands, Refuses, PlacedFailure};

use ae_reading::{Fail, Why};
use ae_text::{Keyword, Sign};
use ae_tree::{Lexeme, Lexical, Limit};

/// How many tokens of an expression may count.
const MOST_MARKS: usize = 256;

/// What tokens end with: a right side that may still become an expression or a call, or none.
#[derive(Clone, Copy)]
pub(crate) enum Side {
    /// No such side.
    Closed,
    /// One of which so many tokens count, no more than may.
    Few(usize),
    /// One of which more tokens count. The first that is too many stands at this index.
    Many(usize),
}

fn is_assign(kind: &Lexical) -> bool
    ensures { result ≡ true ↔ kind.now ≡ Lexical.Sign Sign.Assign }
{
    matches!(kind, Lexical::Sign(Sign::Assign))
}

/// Whether a call may begin with this token as well as an expression.
fn is_open(kind: &Lexical) -> bool
    ensures { result ≡ refused.is_open kind.now }
{
    matches!(
        kind,
        Lexical::Name(_) | Lexical::Word(Keyword::This) | Lexical::Sign(Sign::Dot | Sign::Less)
    )
}

/// Whether a token of an open side counts: `.` and `<` do, a name and `this` do not.
fn is_mark(kind: &Lexical) -> bool
    requires { IsTrue (refused.is_open kind.now) }
    ensures { result ≡ refused.is_mark kind.now }
{
    matches!(kind, Lexical::Sign(_))
}

/// The side with one token more that counts, which stands at this index.
fn with_mark(side: Side, index: usize) -> Side
    ensures { (next : Lexeme) → IsOpenMark next.kind → Grows side next index result }
{
    match side {
        Side::Few(marks) => {
            if marks < MOST_MARKS {
                Side::Few(marks + 1)
            } else {
                Side::Many(index)
            }
        }
        Side::Closed => Side::Closed,
        Side::Many(first) => Side::Many(first),
    }
}

/// The side with one token more, which stands at this index.
fn with_next(side: Side, next: &Lexeme, index: usize) -> Side
    ensures { Grows side next.now index result }
{
    if is_assign(&next.kind) {
        return Side::Few(0);
    }
    if !is_open(&next.kind) {
        return Side::Closed;
    }
    if is_mark(&next.kind) {
        with_mark(side, index)
    } else {
        side
    }
}

fn side_of(before: &[Lexeme]) -> Side
    ensures { Describes before.now result }
{
    let mut side = Side::Closed;
    for (index, next) in before.iter().enumerate() {
        side = with_next(side, next, index);
    }
    side
}

/// How many tokens before the end of these the refused one stands, where the next one passes the limit on an expression.
fn steps_back(before: &[Lexeme]) -> usize
    ensures { IsPlaced Limit.Depth before.now result }
{
    match side_of(before) {
        Side::Many(index) => before.len() - index,
        Side::Few(_) => 0,
        Side::Closed => 0,
    }
}

/// How many tokens before the end of these the refused one stands, where the next one passes a limit.
fn steps_over(before: &[Lexeme], limit: Limit) -> usize
    ensures { IsPlaced limit before.now result }
{
    match limit {
        Limit::Depth => steps_back(before),
        Limit::Statements => 0,
        Limit::Levels => 0,
        Limit::Params => 0,
    }
}

/// How many tokens before the end of these the refused one stands, where the parser stops at the next one.
fn steps(before: &[Lexeme], why: Why) -> usize
    ensures { Stands why before.now result }
{
    match why {
        Why::Unexpected => 0,
        Why::Over(limit) => steps_over(before, limit),
    }
}

/// How many tokens are left from the refused one on, where so many are from the one at which the parser stops.
fn left_from_refused(lexemes: &[Lexeme], why: Why, left: usize) -> usize
    requires { Stopped whole_program KeepsAllWhole Always lexemes.now why left }
    ensures { Refuses lexemes.now why result }
{
    let before = &lexemes[..lexemes.len() - left];
    left + steps(before, why)
}

/// The failure of a program, with the place of the refused token for the one at which the parser stops.
pub(crate) fn placed(lexemes: &[Lexeme], fail: Fail) -> Fail
    requires { Failed whole_program KeepsAllWhole Always lexemes.now fail }
    ensures placed { PlacedFailure lexemes.now result }
    ensures memory { fail ≡ Fail.Memory → result ≡ Fail.Memory }
{
    match fail {
        Fail::Refused(why, left) => Fail::Refused(why, left_from_refused(lexemes, why, left)),
        Fail::Memory => Fail::Memory,
    }
}
