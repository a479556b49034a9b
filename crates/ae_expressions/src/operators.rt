// The operators between two operands, with their levels.
ghost use Rattle.std.specs.Prelude.{◌≡◌, ◌≢◌, MatchOption};
ghost use Rattle.ae_tree.specs.Grammar as grammar;
ghost use Rattle.ae_expressions.specs.Productions as productions;
ghost use Rattle.ae_expressions.specs.Productions.{NoOperator, IsOperator};

use ae_reading::next;
use ae_text::Sign;
use ae_tree::{Lexeme, Lexical, Op};

/// The operator that a sign is.
fn operator_of(sign: Sign) -> Option<Op>
    ensures { result ≡ productions.operator_of sign }
{
    match sign {
        Sign::OrOr => Some(Op::Or),
        Sign::AndAnd => Some(Op::And),
        Sign::Equal => Some(Op::Eq),
        Sign::NotEqual => Some(Op::Ne),
        Sign::Less => Some(Op::Lt),
        Sign::LessEqual => Some(Op::Le),
        Sign::Greater => Some(Op::Gt),
        Sign::GreaterEqual => Some(Op::Ge),
        Sign::Plus => Some(Op::Add),
        Sign::Minus => Some(Op::Sub),
        Sign::Star => Some(Op::Mul),
        Sign::Slash => Some(Op::Div),
        Sign::Percent => Some(Op::Rem),
        _ => None,
    }
}

/// The level of an operator: the higher binds the tighter.
fn level_of(op: Op) -> u32
    ensures { result ≡ grammar.level op }
{
    match op {
        Op::Or => 0,
        Op::And => 1,
        Op::Eq | Op::Ne | Op::Lt | Op::Le | Op::Gt | Op::Ge => 2,
        Op::Add | Op::Sub => 3,
        Op::Mul | Op::Div | Op::Rem => 4,
    }
}

fn sign_in(kind: &Lexical) -> Option<Sign>
    ensures { MatchOption result ((g : _) → kind.now ≢ Lexical.Sign g) (λ g. kind.now ≡ Lexical.Sign g) }
{
    match kind {
        Lexical::Sign(sign) => Some(*sign),
        _ => None,
    }
}

/// Takes an operator of this level, if one comes next.
pub(crate) fn operator<'a>(ts: &'a [Lexeme], level: u32) -> Option<(Op, &'a [Lexeme])>
    ensures { MatchOption result (NoOperator level ts.now) (λ r. IsOperator level ts.now r.0 r.1.now) }
{
    let (first, rest) = next(ts)?;
    let sign = sign_in(&first.kind)?;
    let op = operator_of(sign)?;
    if level_of(op) == level {
        Some((op, rest))
    } else {
        None
    }
}
