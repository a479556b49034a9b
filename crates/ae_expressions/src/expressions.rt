// Expressions: operands, and chains of operators, each at a level, which group to the left.
ghost use Rattle.std.specs.Prelude.{◌≡◌, ◌<◌, ◌≤◌, ◌+◌, [], ◌∷◌, MatchOption, IfOk};
ghost use Rattle.ae_tree.specs.Plain.{Expression, Binary};
ghost use Rattle.ae_tree.specs.Shown as shown;
ghost use Rattle.ae_tree.specs.Grammar as grammar;
ghost use Rattle.ae_tree.specs.Limits.{KeepsDepth, marks};
ghost use Rattle.ae_reading.specs.Reads.{Reads, Always, Free};
ghost use Rattle.ae_expressions.specs.Ends.{Ends};
ghost use Rattle.ae_expressions.specs.Productions.{AtMostMarks, AtMostInside, Next, IsClosing, at_level, counted};
ghost use Rattle.ae_expressions.specs.Productions.{enclosed, enclosed_shown, mark_kind, literal, operand};

use crate::operators::operator;
use crate::paths::{over, path};
use crate::starts::{Mark, Start, start_of};
use ae_reading::{Fail, expect_sign, expect_word, is_sign_next, next, unexpected};
use ae_text::{Boxed, Keyword, Sign, Spot};
use ae_tree::{Expr, Lexeme, Lexical, Op};
use std::alloc::{AllocError, Global};

/// How many tokens of a whole expression may count.
const MOST_MARKS: usize = 256;

/// An expression, and how many of its tokens count.
#[derive(Drop)]
pub(crate) struct Counted {
    tree: Expr,
    marks: usize,
}

fn leaf(tree: Expr) -> Counted
    ensures tree { result.tree ≡ tree }
    ensures count { result.marks ≡ 0 }
{
    Counted { tree, marks: 0 }
}

/// The expression of one token that this one is.
fn literal_of(token: &Lexeme) -> Option<Expr>
    ensures { MatchOption result ((y : Expression) → literal y (token.now ∷ []) → ⊥)
        (λ e. literal (shown.expression e) (token.now ∷ [])) }
{
    let at = token.at;
    match &token.kind {
        Lexical::Int(n) => Some(Expr::Int(*n, at)),
        Lexical::Word(word) => match word {
            Keyword::True => Some(Expr::Bool(true, at)),
            Keyword::False => Some(Expr::Bool(false, at)),
            Keyword::Null => Some(Expr::Null(at)),
            _ => None,
        },
        _ => None,
    }
}

/// Reads a number, a truth value or `null`.
fn literal<'a>(ts: &'a [Lexeme]) -> Result<(Counted, &'a [Lexeme]), Fail>
    ensures reads { Reads counted literal Free Always ts.now result }
    ensures count { IfOk result (λ x. x.0.marks ≡ 0) }
{
    let Some((first, rest)) = next(ts) else {
        return unexpected(ts);
    };
    match literal_of(first) {
        Some(tree) => Ok((leaf(tree), rest)),
        None => unexpected(ts),
    }
}

/// Reads the length of an array.
fn length<'a>(
    alloc: Global,
    ts: &'a [Lexeme],
    budget: usize,
) -> Result<(Counted, &'a [Lexeme]), Fail>
    requires few { budget ≤ 256 }
    requires one { 0 < budget }
    ensures reads { Reads counted (operand (Start.Counted Mark.Len)) (AtMostMarks budget) (Ends 5) ts.now result }
    ensures count { IfOk result (λ x. x.0.marks ≡ marks (counted x.0)) }
{
    let (at, rest) = expect_word(ts, Keyword::Len)?;
    let (array, rest) = path(alloc, rest, budget - 1)?;
    let marks = 1 + array.steps.len();
    Ok((
        Counted {
            tree: Expr::Len(array, at),
            marks,
        },
        rest,
    ))
}

/// Reads an expression between this sign and that one.
#[cycle(expression)]
fn enclosed<'a>(
    alloc: Global,
    ts: &'a [Lexeme],
    opening: Sign,
    closing: Sign,
    budget: usize,
) -> Result<((Spot, Counted), &'a [Lexeme]), Fail>
    requires few { budget ≤ 256 }
    requires closes { IsClosing closing }
    ensures reads { Reads enclosed_shown (enclosed opening closing) (AtMostInside budget) Always ts.now result }
    ensures count { IfOk result (λ x. x.0.1.marks ≡ marks (counted x.0.1)) }
{
    let (at, rest) = expect_sign(ts, opening)?;
    let (inner, rest) = chain(alloc, rest, 0, budget)?;
    let (_, rest) = expect_sign(rest, closing)?;
    Ok(((at, inner), rest))
}

/// Reads an expression in parentheses.
#[cycle(expression)]
fn grouped<'a>(
    alloc: Global,
    ts: &'a [Lexeme],
    budget: usize,
) -> Result<(Counted, &'a [Lexeme]), Fail>
    requires few { budget ≤ 256 }
    requires one { 0 < budget }
    ensures reads { Reads counted (operand (Start.Counted Mark.Paren)) (AtMostMarks budget) (Ends 5) ts.now result }
    ensures count { IfOk result (λ x. x.0.marks ≡ marks (counted x.0)) }
{
    let ((at, inner), rest) = enclosed(alloc, ts, Sign::OpenParen, Sign::CloseParen, budget - 1)?;
    let marks = 1 + inner.marks;
    let group = Boxed::new(alloc, inner.tree)?;
    let tree = Expr::Paren(group, at);
    Ok((Counted { tree, marks }, rest))
}

/// Reads an operand with `!` before it.
#[cycle(expression)]
fn negated<'a>(
    alloc: Global,
    ts: &'a [Lexeme],
    budget: usize,
) -> Result<(Counted, &'a [Lexeme]), Fail>
    requires few { budget ≤ 256 }
    requires one { 0 < budget }
    ensures reads { Reads counted (operand (Start.Counted Mark.Not)) (AtMostMarks budget) (Ends 5) ts.now result }
    ensures count { IfOk result (λ x. x.0.marks ≡ marks (counted x.0)) }
{
    let (at, rest) = expect_sign(ts, Sign::Not)?;
    let (inner, rest) = operand(alloc, rest, budget - 1)?;
    let marks = 1 + inner.marks;
    let boxed = Boxed::new(alloc, inner.tree)?;
    let tree = Expr::Not(boxed, at);
    Ok((Counted { tree, marks }, rest))
}

/// Reads an operand with `-` before it.
#[cycle(expression)]
fn minus<'a>(
    alloc: Global,
    ts: &'a [Lexeme],
    budget: usize,
) -> Result<(Counted, &'a [Lexeme]), Fail>
    requires few { budget ≤ 256 }
    requires one { 0 < budget }
    ensures reads { Reads counted (operand (Start.Counted Mark.Minus)) (AtMostMarks budget) (Ends 5) ts.now result }
    ensures count { IfOk result (λ x. x.0.marks ≡ marks (counted x.0)) }
{
    let (at, rest) = expect_sign(ts, Sign::Minus)?;
    let (inner, rest) = operand(alloc, rest, budget - 1)?;
    let marks = 1 + inner.marks;
    let boxed = Boxed::new(alloc, inner.tree)?;
    let tree = Expr::Neg(boxed, at);
    Ok((Counted { tree, marks }, rest))
}

/// Reads a path, and an index where one stands behind it.
#[cycle(expression)]
fn place<'a>(
    alloc: Global,
    ts: &'a [Lexeme],
    budget: usize,
) -> Result<(Counted, &'a [Lexeme]), Fail>
    requires few { budget ≤ 256 }
    ensures reads { Reads counted (operand Start.Place) (AtMostMarks budget) (Ends 5) ts.now result }
    ensures count { IfOk result (λ x. x.0.marks ≡ marks (counted x.0)) }
{
    let (path, rest) = path(alloc, ts, budget)?;
    let steps = path.steps.len();
    if !is_sign_next(rest, Sign::OpenBracket) {
        let tree = Expr::Path(path);
        return Ok((Counted { tree, marks: steps }, rest));
    }
    if steps >= budget {
        return over(rest);
    }
    let ((_, index), rest) = enclosed(
        alloc,
        rest,
        Sign::OpenBracket,
        Sign::CloseBracket,
        budget - steps - 1,
    )?;
    let marks = steps + 1 + index.marks;
    let boxed = Boxed::new(alloc, index.tree)?;
    let tree = Expr::Index(path, boxed);
    Ok((Counted { tree, marks }, rest))
}

/// Reads a form whose first token counts.
#[cycle(expression)]
fn marked<'a>(
    alloc: Global,
    ts: &'a [Lexeme],
    mark: Mark,
    budget: usize,
) -> Result<(Counted, &'a [Lexeme]), Fail>
    requires few { budget ≤ 256 }
    requires next { Next (mark_kind mark) ts.now }
    ensures reads { Reads counted (at_level 5) (AtMostMarks budget) (Ends 5) ts.now result }
    ensures count { IfOk result (λ x. x.0.marks ≡ marks (counted x.0)) }
{
    if budget == 0 {
        return over(ts);
    }
    match mark {
        Mark::Len => length(alloc, ts, budget),
        Mark::Paren => grouped(alloc, ts, budget),
        Mark::Not => negated(alloc, ts, budget),
        Mark::Minus => minus(alloc, ts, budget),
    }
}

/// Reads an operand.
#[cycle(expression)]
fn operand<'a>(
    alloc: Global,
    ts: &'a [Lexeme],
    budget: usize,
) -> Result<(Counted, &'a [Lexeme]), Fail>
    requires few { budget ≤ 256 }
    ensures reads { Reads counted (at_level 5) (AtMostMarks budget) (Ends 5) ts.now result }
    ensures count { IfOk result (λ x. x.0.marks ≡ marks (counted x.0)) }
{
    let Some((first, _)) = next(ts) else {
        return unexpected(ts);
    };
    match start_of(&first.kind) {
        Start::Literal => literal(ts),
        Start::Place => place(alloc, ts, budget),
        Start::Counted(mark) => marked(alloc, ts, mark, budget),
        Start::Other => unexpected(ts),
    }
}

fn binary(alloc: Global, op: Op, left: Counted, right: Counted) -> Result<Counted, AllocError>
    requires { left.marks + right.marks < 256 }
    ensures tree { IfOk result (λ c. counted c ≡ Binary op (counted left) (counted right)) }
    ensures count { IfOk result (λ c. c.marks ≡ left.marks + 1 + right.marks) }
{
    let marks = left.marks + 1 + right.marks;
    let left = Boxed::new(alloc, left.tree)?;
    let right = Boxed::new(alloc, right.tree)?;
    Ok(Counted {
        tree: Expr::Bin(op, left, right),
        marks,
    })
}

/// Reads a sum, or two of them with a comparison between them.
#[cycle(expression)]
fn comparison<'a>(
    alloc: Global,
    ts: &'a [Lexeme],
    budget: usize,
) -> Result<(Counted, &'a [Lexeme]), Fail>
    requires few { budget ≤ 256 }
    ensures reads { Reads counted (at_level 2) (AtMostMarks budget) (Ends 2) ts.now result }
    ensures count { IfOk result (λ x. x.0.marks ≡ marks (counted x.0)) }
{
    let (left, rest) = chain(alloc, ts, 3, budget)?;
    let Some((op, more)) = operator(rest, 2) else {
        return Ok((left, rest));
    };
    if left.marks >= budget {
        return over(rest);
    }
    let (right, after) = chain(alloc, more, 3, budget - left.marks - 1)?;
    let both = binary(alloc, op, left, right)?;
    Ok((both, after))
}

/// Reads parts of the next level with operators of this level between them.
#[cycle(expression)]
fn chain<'a>(
    alloc: Global,
    ts: &'a [Lexeme],
    level: u32,
    budget: usize,
) -> Result<(Counted, &'a [Lexeme]), Fail>
    requires high { level ≤ 5 }
    requires few { budget ≤ 256 }
    ensures reads { Reads counted (at_level level) (AtMostMarks budget) (Ends level) ts.now result }
    ensures count { IfOk result (λ x. x.0.marks ≡ marks (counted x.0)) }
{
    if level == 5 {
        return operand(alloc, ts, budget);
    }
    if level == 2 {
        return comparison(alloc, ts, budget);
    }
    let (mut left, mut rest) = chain(alloc, ts, level + 1, budget)?;
    'more: while let Some((op, more)) = operator(rest, level) {
        if left.marks >= budget {
            return over(rest);
        }
        let (right, after) = chain(alloc, more, level + 1, budget - left.marks - 1)?;
        left = binary(alloc, op, left, right)?;
        rest = after;
    }
    Ok((left, rest))
}

/// Reads an expression with at most 256 tokens that count: operators, `(`, `[`, `.` and `len`.
/// The first token with which no expression goes on is refused, and so is a 257th one that counts.
pub fn expression<'a>(alloc: Global, ts: &'a [Lexeme]) -> Result<(Expr, &'a [Lexeme]), Fail>
    ensures { Reads shown.expression grammar.whole_expression KeepsDepth (Ends 0) ts.now result }
{
    let (counted, rest) = chain(alloc, ts, 0, MOST_MARKS)?;
    Ok((counted.tree, rest))
}
