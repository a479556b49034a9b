// Statements of a block, one after another, and the end of the block.
ghost use Rattle.std.specs.Prelude.{◌≡◌, ◌+◌, ◌∷◌, IsTrue, MatchOption, false, true};
ghost use Rattle.ae_tree.specs.Plain.{Assigns, Declares, End, Next, Returned};
ghost use Rattle.ae_tree.specs.Shown.{action, invocation, lines_from, right_side};
ghost use Rattle.ae_tree.specs.declared.tree.StmtKind.TheVariants as kind;
ghost use Rattle.ae_acts.specs.Acts.{is_flat, is_no_call};
ghost use Rattle.ae_levels.specs.Going.{IsSound};
ghost use Rattle.ae_levels.specs.Halting.{LeadsTo};
ghost use Rattle.ae_levels.specs.Levels.{level_cost, levels_cost};
ghost use Rattle.ae_machine.specs.declared.frame.Frame.TheVariants as fr;
ghost use Rattle.ae_machine.specs.Calling.{CallsFor};
ghost use Rattle.ae_machine.specs.Frames.{aim, block_from, level, levels};
ghost use Rattle.ae_machine.specs.Tasks.{IsAt, IsAtStatement, IsPast, code_in, cost_at, whole_of};

use crate::calls::begin_call;
use crate::frame::{Frame, Rest, Target};
use crate::steps::{begin_if, begin_if_else, begin_while, push};
use crate::task::Task;
use ae_acts::act;
use ae_levels::{Halt, blocks_open_and_end, calls_come_back, statements_go_on, stopped_at};
use ae_running::Running;
use ae_tree::{Block, Call, Expr, NameAt, Rhs, Stmt, StmtKind, Ty};

// The end of a block: the names end that were bound since it began.
fn end_block<'a>(task: &Task<'a>, rest: Rest<'a>, run: &mut Running, frames: &Vec<Frame<'a>>)
    requires { IsAt task.now run.old (block_from rest End ∷ levels frames.now.items) }
    ensures at { IsAt task.now run.new (levels frames.now.items) }
    ensures out { run.new.out ≡ run.old.out }
{
    blocks_open_and_end();
    let _ = task;
    let _ = frames;
    run.env.forget(rest.mark);
}

// Whether a right side is no call.
fn is_no_call(rhs: &Rhs) -> bool
    ensures { result ≡ is_no_call (right_side rhs.now) }
{
    match rhs {
        Rhs::Expr(_) | Rhs::Take(..) | Rhs::Ints(..) | Rhs::New(..) => true,
        Rhs::Call(_) => false,
    }
}

// Whether a statement has no block and calls nothing.
#[tactic(auto, using(ae_tree::specs::Shown::shows))]
fn is_flat(stmt: &StmtKind) -> bool
    ensures { result ≡ is_flat (action stmt.now) }
{
    match stmt {
        StmtKind::Let(_, _, rhs) | StmtKind::Assign(_, rhs) => is_no_call(rhs),
        StmtKind::Field(..)
        | StmtKind::Index(..)
        | StmtKind::Group(_)
        | StmtKind::Freeze(_)
        | StmtKind::Share(..)
        | StmtKind::PrintExpr(_)
        | StmtKind::PrintText(_)
        | StmtKind::Assert(_)
        | StmtKind::Return(_) => true,
        StmtKind::Call(_)
        | StmtKind::If(_, _, None)
        | StmtKind::If(_, _, Some(_))
        | StmtKind::While(..)
        | StmtKind::Split(..)
        | StmtKind::Atomic(..) => false,
    }
}

// A statement without blocks and calls is done, and the others of its block are next.
fn do_flat<'a>(
    task: &Task<'a>,
    rest: Rest<'a>,
    stmt: &Stmt,
    others: &[Stmt],
    run: &mut Running,
    frames: &Vec<Frame<'a>>,
) -> Result<(), Halt>
    requires flat { IsTrue (is_flat (action stmt.now.kind)) }
    requires begun { IsAtStatement task.now run.old rest stmt.now.at (action stmt.now.kind)
        (block_from rest (lines_from others.now) ∷ levels frames.now.items) }
    ensures { LeadsTo (whole_of task.now) run.new.out.items (IsPast task.now run.new
        (block_from rest.entry (lines_from others.now) ∷ levels frames.now.items)
        (cost_at task.now rest.entry (action stmt.now.kind)
        (block_from rest.entry (lines_from others.now) ∷ levels frames.now.items))) result }
{
    statements_go_on();
    let _ = others;
    let _ = frames;
    match act(&task.tabled, rest.method, stmt, run) {
        Ok(()) => Ok(()),
        Err(stop) => Err(stopped_at(stop, stmt.at)),
    }
}

// The call on a right side, if it is one.
fn called(rhs: &Rhs) -> Option<&Call>
    ensures { MatchOption result (is_no_call (right_side rhs.now) ≡ true)
        (λ call. right_side rhs.now ≡ Returned (invocation call.now)) }
{
    match rhs {
        Rhs::Call(call) => Some(call),
        Rhs::Expr(_) | Rhs::Take(..) | Rhs::Ints(..) | Rhs::New(..) => None,
    }
}

// A call whose result goes to this target begins, by the statement that it stands in.
fn call_for<'a>(
    task: &'a Task<'a>,
    rest: Rest<'a>,
    stmt: &Stmt,
    call: &'a Call,
    target: Target<'a>,
    run: &mut Running,
    frames: &mut Vec<Frame<'a>>,
) -> Result<(), Halt>
    requires sound { IsSound (code_in task.now) }
    requires calling { CallsFor (action stmt.now.kind) (invocation call.now) (aim target) }
    requires begun { IsAtStatement task.now run.old rest stmt.now.at (action stmt.now.kind) (levels frames.old.items) }
    ensures { LeadsTo (whole_of task.now) run.new.out.items (IsPast task.now run.new (levels frames.new.items)
        (cost_at task.now rest.entry (action stmt.now.kind) (levels frames.old.items))) result }
{
    calls_come_back();
    begin_call(
        task, rest.fuel, rest.depth, stmt.at, call, target, run, frames,
    )
}

// A local is declared by a call.
fn declares<'a>(
    task: &'a Task<'a>,
    rest: Rest<'a>,
    stmt: &'a Stmt,
    ty: &'a Ty,
    name: NameAt,
    rhs: &'a Rhs,
    run: &mut Running,
    frames: &mut Vec<Frame<'a>>,
) -> Result<(), Halt>
    requires sound { IsSound (code_in task.now) }
    requires is { action stmt.now.kind ≡ Declares ty.now name (right_side rhs.now) }
    requires calls { is_flat (action stmt.now.kind) ≡ false }
    requires begun { IsAtStatement task.now run.old rest stmt.now.at (action stmt.now.kind) (levels frames.old.items) }
    ensures { LeadsTo (whole_of task.now) run.new.out.items (IsPast task.now run.new (levels frames.new.items)
        (cost_at task.now rest.entry (action stmt.now.kind) (levels frames.old.items))) result }
{
    match called(rhs) {
        Some(call) => {
            let target = Target::New(ty, name.name);
            call_for(task, rest, stmt, call, target, run, frames)
        }
        None => unreachable!(),
    }
}

// A local is assigned by a call.
fn assigns<'a>(
    task: &'a Task<'a>,
    rest: Rest<'a>,
    stmt: &'a Stmt,
    name: NameAt,
    rhs: &'a Rhs,
    run: &mut Running,
    frames: &mut Vec<Frame<'a>>,
) -> Result<(), Halt>
    requires sound { IsSound (code_in task.now) }
    requires is { action stmt.now.kind ≡ Assigns name (right_side rhs.now) }
    requires calls { is_flat (action stmt.now.kind) ≡ false }
    requires begun { IsAtStatement task.now run.old rest stmt.now.at (action stmt.now.kind) (levels frames.old.items) }
    ensures { LeadsTo (whole_of task.now) run.new.out.items (IsPast task.now run.new (levels frames.new.items)
        (cost_at task.now rest.entry (action stmt.now.kind) (levels frames.old.items))) result }
{
    match called(rhs) {
        Some(call) => {
            let target = Target::Old(name.name);
            call_for(task, rest, stmt, call, target, run, frames)
        }
        None => unreachable!(),
    }
}

// An `if` begins, with or without an `else`.
fn branches<'a>(
    task: &'a Task<'a>,
    rest: Rest<'a>,
    stmt: &'a Stmt,
    test: &'a Expr,
    body: &'a Block,
    other: &'a Option<Block>,
    run: &mut Running,
    frames: &mut Vec<Frame<'a>>,
) -> Result<(), Halt>
    requires is { action stmt.now.kind ≡ action (kind.If test.now body.now other.now) }
    requires begun { IsAtStatement task.now run.old rest stmt.now.at (action stmt.now.kind) (levels frames.old.items) }
    ensures { LeadsTo (whole_of task.now) run.new.out.items (IsPast task.now run.new (levels frames.new.items)
        (cost_at task.now rest.entry (action stmt.now.kind) (levels frames.old.items))) result }
{
    match other {
        None => begin_if(task, rest, stmt.at, test, body, run, frames),
        Some(other) => begin_if_else(task, rest, stmt.at, test, body, other, run, frames),
    }
}

// A statement opens its blocks, or begins its call.
#[tactic(auto, using(ae_tree::specs::Shown::shows))]
fn statement<'a>(
    task: &'a Task<'a>,
    rest: Rest<'a>,
    stmt: &'a Stmt,
    run: &mut Running,
    frames: &mut Vec<Frame<'a>>,
) -> Result<(), Halt>
    requires sound { IsSound (code_in task.now) }
    requires opens { is_flat (action stmt.now.kind) ≡ false }
    requires begun { IsAtStatement task.now run.old rest stmt.now.at (action stmt.now.kind) (levels frames.old.items) }
    ensures { LeadsTo (whole_of task.now) run.new.out.items (IsPast task.now run.new (levels frames.new.items)
        (cost_at task.now rest.entry (action stmt.now.kind) (levels frames.old.items))) result }
{
    match &stmt.kind {
        StmtKind::Let(ty, name, rhs) => declares(task, rest, stmt, ty, *name, rhs, run, frames),
        StmtKind::Assign(name, rhs) => assigns(task, rest, stmt, *name, rhs, run, frames),
        StmtKind::Call(call) => call_for(task, rest, stmt, call, Target::Nowhere, run, frames),
        StmtKind::If(test, body, other) => {
            branches(task, rest, stmt, test, body, other, run, frames)
        }
        StmtKind::While(test, body) => { begin_while(task, rest, stmt.at, test, body, run, frames) }
        StmtKind::Split(..) | StmtKind::Atomic(..) => unreachable!(),
        StmtKind::Field(..)
        | StmtKind::Index(..)
        | StmtKind::Group(_)
        | StmtKind::Freeze(_)
        | StmtKind::Share(..)
        | StmtKind::PrintExpr(_)
        | StmtKind::PrintText(_)
        | StmtKind::Assert(_)
        | StmtKind::Return(_) => unreachable!(),
    }
}

// A statement with blocks, or a call, begins, and the others wait behind it.
fn open_statement<'a>(
    task: &'a Task<'a>,
    behind: Rest<'a>,
    stmt: &'a Stmt,
    run: &mut Running,
    frames: &mut Vec<Frame<'a>>,
) -> Result<(), Halt>
    requires sound { IsSound (code_in task.now) }
    requires opens { is_flat (action stmt.now.kind) ≡ false }
    requires at { IsAt task.now run.old (block_from behind (Next stmt.now.at (action stmt.now.kind)
        (lines_from behind.stmts.now)) ∷ levels frames.old.items) }
    ensures { LeadsTo (whole_of task.now) run.new.out.items (IsPast task.now run.new (levels frames.new.items)
        (level_cost (code_in task.now) (block_from behind.entry (Next stmt.now.at (action stmt.now.kind)
        (lines_from behind.entry.stmts.now))) + levels_cost (code_in task.now) (levels frames.old.items))) result }
{
    statements_go_on();
    match push(frames, Frame::Rest(behind)) {
        Ok(()) => statement(task, behind, stmt, run, frames),
        Err(halt) => Err(halt),
    }
}

/// A block is gone on with: its statements without blocks and calls are done one after another, up to one that opens
/// something, which begins, and the others wait behind it; or the block ends.
pub(crate) fn go_on<'a>(
    task: &'a Task<'a>,
    rest: Rest<'a>,
    run: &mut Running,
    frames: &mut Vec<Frame<'a>>,
) -> Result<(), Halt>
    requires sound { IsSound (code_in task.now) }
    requires at { IsAt task.now run.old (level (fr.Rest rest) ∷ levels frames.old.items) }
    ensures { LeadsTo (whole_of task.now) run.new.out.items (IsPast task.now run.new (levels frames.new.items)
        (level_cost (code_in task.now) (level (fr.Rest rest.entry))
        + levels_cost (code_in task.now) (levels frames.old.items))) result }
{
    statements_go_on();
    let mut stmts = rest.stmts;
    while let Some((stmt, others)) = stmts.split_first() {
        if !is_flat(&stmt.kind) {
            let behind = Rest {
                stmts: others,
                ..rest
            };
            return open_statement(task, behind, stmt, run, frames);
        }
        match do_flat(task, rest, stmt, others, run, frames) {
            Ok(()) => {}
            Err(halt) => return Err(halt),
        }
        stmts = others;
    }
    end_block(task, rest, run, frames);
    Ok(())
}
