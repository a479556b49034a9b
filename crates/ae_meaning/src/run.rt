// Runs a program in source order.
ghost use Rattle.std.specs.Prelude.{◌≡◌, ◌≢◌, ◌++◌, ◌∷◌, [], map, IfOk, IfErr, OnOk, IsSome, MatchOption};
ghost use Rattle.std.specs.Fmt.{signed_decimal};
ghost use Rattle.ae_tree.specs.Plain.{End};
ghost use Rattle.ae_tree.specs.Shown.{expression, right_side, action, braced, definition, code as plain};
ghost use Rattle.ae_tree.specs.Built.{Built};
ghost use Rattle.ae_meaning.specs.Values.{today_value};
ghost use Rattle.ae_meaning.specs.Meaning.{today_one, today_many, main_body, begin, meaning_of_run, today_seq};
ghost use Rattle.ae_meaning.specs.Running.{env_of, held, FindsValue, sought, AnswersAs};

use crate::locals::Locals;
use crate::report::{Ending, Meant};
use crate::value::{Fault, value_of};
use ae_code::Checked;
use ae_text::{Items, Memory, Spot};
use ae_tree::{Block, Expr, MAIN, Method, Program, Rhs, Stmt, StmtKind};
use std::alloc::{AllocError, Global};

/// The locals, and the bytes printed so far.
#[derive(Drop)]
pub struct Running {
    pub locals: Locals,
    pub log: Vec<u8>,
}

/// Why the rest is not run: the run ended, or it came to a form that does not run yet, or memory was refused.
#[derive(Clone, Copy, Debug, PartialEq, Eq)]
pub enum Stop {
    Ended(Ending),
    Lack,
    Memory,
}

impl From<AllocError> for Stop {
    ghost use Rattle.ae_meaning.specs.declared.run.Stop.{Stop};

    ghost from_gives = { λ _ e. e ≡ Stop.Memory };

    fn from(_error: AllocError) -> Stop {
        Stop::Memory
    }
}

// The value of an expression of the statement at this place.
fn found(expr: &Expr, locals: &Locals, at: Spot) -> Result<i64, Stop>
    ensures { FindsValue (today_value (expression expr.now) (env_of locals.now)) at result }
{
    match value_of(expr, locals) {
        Ok(value) => Ok(value),
        Err(Fault::Trap(code)) => Err(Stop::Ended(Ending::Trap { code, at })),
        Err(Fault::Lack) => Err(Stop::Lack),
    }
}

// The value of a right side.
fn right(rhs: &Rhs, locals: &Locals, at: Spot) -> Result<i64, Stop>
    ensures { FindsValue (sought (right_side rhs.now) (env_of locals.now)) at result }
{
    match rhs {
        Rhs::Expr(expr) => found(expr, locals, at),
        Rhs::Take(..) | Rhs::Ints(..) | Rhs::New(..) | Rhs::Call(_) => Err(Stop::Lack),
    }
}

// The number and a line feed.
fn print(alloc: Global, log: &mut Vec<u8>, value: i64) -> Result<(), AllocError>
    ensures { OnOk result (log.new.items ≡ log.old.items ++ (signed_decimal value ++ 10 ∷ [])) }
{
    let text = format!(in alloc; "{value}\n")?;
    log.extend_from_slice(text.as_bytes())
}

/// Runs one statement. Where it does not go through and memory was not refused, the locals stay as they were.
#[tactic(auto, using(crate::proofs::Rules::forms))]
pub fn run_stmt(alloc: Global, stmt: &Stmt, state: &mut Running) -> Result<(), Stop>
    ensures answer { AnswersAs (today_one stmt.now.at (action stmt.now.kind) (held state.old)) result (held state.new) }
    ensures kept { IfErr result (λ stop. stop ≢ Stop.Memory → env_of state.new.locals ≡ env_of state.old.locals) }
{
    let at = stmt.at;
    match &stmt.kind {
        StmtKind::Let(_, name, rhs) | StmtKind::Assign(name, rhs) => {
            let value = right(rhs, &state.locals, at)?;
            state.locals.put(name.name, value)?;
            Ok(())
        }
        StmtKind::PrintExpr(expr) => {
            let value = found(expr, &state.locals, at)?;
            print(alloc, &mut state.log, value)?;
            Ok(())
        }
        StmtKind::Field(..)
        | StmtKind::Index(..)
        | StmtKind::Call(_)
        | StmtKind::If(..)
        | StmtKind::While(..)
        | StmtKind::Group(_)
        | StmtKind::Split(..)
        | StmtKind::Atomic(..)
        | StmtKind::Freeze(_)
        | StmtKind::Share(..)
        | StmtKind::PrintText(_)
        | StmtKind::Assert(_)
        | StmtKind::Return(_) => Err(Stop::Lack),
    }
}

// The statements of a block, up to the first that does not go through.
#[tactic(auto, using(crate::proofs::Rules::forms))]
fn run_block(alloc: Global, block: &Block, state: &mut Running) -> Result<(), Stop>
    ensures { AnswersAs (today_many (braced block.now).lines (held state.old)) result (held state.new) }
{
    for stmt in block.stmts.as_slice() {
        run_stmt(alloc, stmt, state)?;
    }
    Ok(())
}

// The first top-level method named main.
#[tactic(auto, using(crate::proofs::Rules::forms))]
fn main_method(program: &Program) -> Option<&Method>
    ensures { MatchOption result (main_body (map definition program.now.methods) ≡ End)
        (λ m. main_body (map definition program.now.methods) ≡ (braced m.now.body).lines) }
{
    for method in program.methods.as_slice() {
        if method.class.is_none() && method.name.name == MAIN {
            return Some(method);
        }
    }
    None
}

// Runs the method main from no locals and nothing printed.
#[tactic(auto, using(crate::proofs::Rules::forms))]
fn run_main(alloc: Global, program: &Program) -> Result<Meant, Memory>
    ensures ending { IfOk result (λ m. m.ending
        ≡ (meaning_of_run (today_many (main_body (map definition program.now.methods)) begin)).ending) }
    ensures out { IfOk result (λ m. m.out
        ≡ (meaning_of_run (today_many (main_body (map definition program.now.methods)) begin)).out) }
{
    let mut state = Running {
        locals: Locals::new(alloc),
        log: Vec::new(alloc),
    };
    let answer = match main_method(program) {
        Some(main) => run_block(alloc, &main.body, &mut state),
        None => Ok(()),
    };
    let ending = match answer {
        Ok(()) => Some(Ending::Done),
        Err(Stop::Ended(ending)) => Some(ending),
        Err(Stop::Lack) => None,
        Err(Stop::Memory) => return Err(Memory),
    };
    let out = Items::from_vec(state.log);
    Ok(Meant { ending, out })
}

/// Runs an accepted program of the forms that run in source order, up to its first ending. No program uses `ints` and
/// `fuel` yet.
#[tactic(auto, using(crate::proofs::Rules::forms))]
pub fn evaluate(alloc: Global, code: &Checked, ints: &[i64], fuel: u32) -> Result<Meant, Memory>
    requires built { Built (plain code.now.program) }
    ensures ending { IfOk result (λ m. m.ending ≡ (today_seq (plain code.now.program) ints.now fuel).ending) }
    ensures out { IfOk result (λ m. m.out ≡ (today_seq (plain code.now.program) ints.now fuel).out) }
    ensures ends { IfOk result (λ m. IsSome m.ending) }
{
    run_main(alloc, code.program())
}
