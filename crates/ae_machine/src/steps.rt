// What statements with blocks open, and how levels are added.
ghost use Rattle.std.specs.Prelude.{◌≡◌, ◌<◌, ◌∷◌, IfErr, OnOk, length};
ghost use Rattle.ae_tree.specs.Plain.{Chooses, ChoosesElse, Repeats, Next};
ghost use Rattle.ae_tree.specs.Shown.{action, braced, definition, expression, lines_from};
ghost use Rattle.ae_values.specs.Environments.{running_binds};
ghost use Rattle.ae_levels.specs.Levels.{InBlock, levels_cost};
ghost use Rattle.ae_machine.specs.Frames.{level, levels};
ghost use Rattle.ae_levels.specs.Halting.{LeadsTo};
ghost use Rattle.ae_machine.specs.Tasks.{IsAt, IsAtStatement, IsPast, cost_at, code_in, names_in, whole_of};
ghost use Rattle.ae_levels.specs.declared.halt.Halt.TheVariants as halt;

use crate::frame::{Frame, Rest, Turns};
use crate::task::Task;
use ae_levels::{Halt, blocks_open_and_end, loops_turn, stopped_at};
use ae_running::{Running, truth_of};
use ae_text::Spot;
use ae_tree::{Block, Expr, Method};

// One frame more, the innermost.
pub(crate) fn push<'a>(frames: &mut Vec<Frame<'a>>, frame: Frame<'a>) -> Result<(), Halt>
    ensures pushed { OnOk result (levels frames.new.items ≡ level frame.entry ∷ levels frames.old.items) }
    ensures refused { IfErr result (λ e. e ≡ halt.Memory) }
{
    match frames.push(frame) {
        Ok(()) => Ok(()),
        Err(_) => Err(Halt::Memory),
    }
}

// A block of this method begins, with this fuel, so deep in calls.
pub(crate) fn open<'a>(
    method: &'a Method,
    fuel: u32,
    depth: u32,
    block: &'a Block,
    run: &Running,
    frames: &mut Vec<Frame<'a>>,
) -> Result<(), Halt>
    ensures opened { OnOk result (levels frames.new.items ≡ InBlock fuel depth (definition method.now)
        (braced block.now).lines (length (names_in run.now)) ∷ levels frames.old.items) }
    ensures refused { IfErr result (λ e. e ≡ halt.Memory) }
{
    push(
        frames,
        Frame::Rest(Rest {
            method,
            stmts: block.stmts.as_slice(),
            fuel,
            depth,
            mark: run.env.mark(),
        }),
    )
}

/// An `if` without an `else`: its block begins, where the test is true.
pub(crate) fn begin_if<'a>(
    task: &Task<'a>,
    rest: Rest<'a>,
    at: Spot,
    test: &Expr,
    body: &'a Block,
    run: &Running,
    frames: &mut Vec<Frame<'a>>,
) -> Result<(), Halt>
    requires { IsAtStatement task.now run.now rest at
        (Chooses (expression test.now) (braced body.now).no (braced body.now).lines) (levels frames.old.items) }
    ensures { LeadsTo (whole_of task.now) run.now.out.items (IsPast task.now run.now (levels frames.new.items)
        (cost_at task.now rest.entry (Chooses (expression test.now) (braced body.now).no (braced body.now).lines)
        (levels frames.old.items))) result }
{
    blocks_open_and_end();
    match truth_of(&task.tabled, run, test) {
        Ok(holds) => {
            if holds {
                open(rest.method, rest.fuel, rest.depth, body, run, frames)
            } else {
                Ok(())
            }
        }
        Err(stop) => Err(stopped_at(stop, at)),
    }
}

/// An `if` with an `else`: the block that the test says begins.
pub(crate) fn begin_if_else<'a>(
    task: &Task<'a>,
    rest: Rest<'a>,
    at: Spot,
    test: &Expr,
    body: &'a Block,
    other: &'a Block,
    run: &Running,
    frames: &mut Vec<Frame<'a>>,
) -> Result<(), Halt>
    requires { IsAtStatement task.now run.now rest at (ChoosesElse (expression test.now) (braced body.now).no
        (braced body.now).lines (braced other.now).no (braced other.now).lines) (levels frames.old.items) }
    ensures { LeadsTo (whole_of task.now) run.now.out.items (IsPast task.now run.now (levels frames.new.items)
        (cost_at task.now rest.entry (ChoosesElse (expression test.now) (braced body.now).no
        (braced body.now).lines (braced other.now).no (braced other.now).lines) (levels frames.old.items))) result }
{
    blocks_open_and_end();
    match truth_of(&task.tabled, run, test) {
        Ok(holds) => {
            if holds {
                open(rest.method, rest.fuel, rest.depth, body, run, frames)
            } else {
                open(rest.method, rest.fuel, rest.depth, other, run, frames)
            }
        }
        Err(stop) => Err(stopped_at(stop, at)),
    }
}

/// A loop: its first turn begins.
pub(crate) fn begin_while<'a>(
    task: &Task<'a>,
    rest: Rest<'a>,
    at: Spot,
    test: &'a Expr,
    body: &'a Block,
    run: &Running,
    frames: &mut Vec<Frame<'a>>,
) -> Result<(), Halt>
    requires { IsAtStatement task.now run.now rest at
        (Repeats (expression test.now) (braced body.now).no (braced body.now).lines) (levels frames.old.items) }
    ensures { LeadsTo (whole_of task.now) run.now.out.items (IsPast task.now run.now (levels frames.new.items)
        (cost_at task.now rest.entry (Repeats (expression test.now) (braced body.now).no (braced body.now).lines)
        (levels frames.old.items))) result }
{
    loops_turn();
    let _ = task;
    let _ = run;
    push(
        frames,
        Frame::Turns(Turns {
            method: rest.method,
            at,
            test,
            body,
            fuel: rest.fuel,
            depth: rest.depth,
        }),
    )
}
