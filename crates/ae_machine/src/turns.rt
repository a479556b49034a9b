// The turns of a loop.
ghost use Rattle.std.specs.Prelude.{◌≡◌, ◌+◌, ◌∷◌, true};
ghost use Rattle.ae_tree.specs.Shown.{expression};
ghost use Rattle.ae_semantics.specs.Expressions as meant;
ghost use Rattle.ae_semantics.specs.Places.{Fine};
ghost use Rattle.ae_running.specs.Seen.{seen};
ghost use Rattle.ae_levels.specs.Halting.{LeadsTo};
ghost use Rattle.ae_levels.specs.Levels.{level_cost, levels_cost};
ghost use Rattle.ae_machine.specs.declared.frame.Frame.TheVariants as fr;
ghost use Rattle.ae_machine.specs.Frames.{level, levels};
ghost use Rattle.ae_machine.specs.Tasks.{IsAt, IsPast, code_in, whole_of};

use crate::frame::{Frame, Turns};
use crate::steps::{open, push};
use crate::task::Task;
use ae_levels::{Halt, levels_cost_less, loops_turn, stopped_at};
use ae_running::{Running, truth_of};
use ae_semantics::Ending;

// A turn begins, which takes one of the fuel.
fn begin_turn<'a>(
    task: &Task<'a>,
    turns: Turns<'a>,
    run: &Running,
    frames: &mut Vec<Frame<'a>>,
) -> Result<(), Halt>
    requires at { IsAt task.now run.now (level (fr.Turns turns) ∷ levels frames.old.items) }
    requires holds { meant.truth_of (code_in task.now) (seen run.now) (expression turns.test.now) ≡ Fine true }
    ensures { LeadsTo (whole_of task.now) run.now.out.items (IsPast task.now run.now (levels frames.new.items)
        (level_cost (code_in task.now) (level (fr.Turns turns.entry)) + levels_cost (code_in task.now) (levels frames.old.items)))
        result }
{
    loops_turn();
    levels_cost_less();
    let _ = task;
    if turns.fuel == 0 {
        return Err(Halt::Ends(Ending::Fuel { at: turns.at }));
    }
    let next = Turns {
        fuel: turns.fuel - 1,
        ..turns
    };
    match push(frames, Frame::Turns(next)) {
        Ok(()) => open(
            turns.method,
            turns.fuel - 1,
            turns.depth,
            turns.body,
            run,
            frames,
        ),
        Err(halt) => Err(halt),
    }
}

/// A loop is gone on with at a turn: where the test is true its block begins, and the next turn waits behind it; where it
/// is false the loop is over.
pub(crate) fn turn<'a>(
    task: &Task<'a>,
    turns: Turns<'a>,
    run: &Running,
    frames: &mut Vec<Frame<'a>>,
) -> Result<(), Halt>
    requires { IsAt task.now run.now (level (fr.Turns turns) ∷ levels frames.old.items) }
    ensures { LeadsTo (whole_of task.now) run.now.out.items (IsPast task.now run.now (levels frames.new.items)
        (level_cost (code_in task.now) (level (fr.Turns turns.entry)) + levels_cost (code_in task.now) (levels frames.old.items)))
        result }
{
    loops_turn();
    levels_cost_less();
    match truth_of(&task.tabled, run, turns.test) {
        Ok(holds) => {
            if holds {
                begin_turn(task, turns, run, frames)
            } else {
                Ok(())
            }
        }
        Err(stop) => Err(stopped_at(stop, turns.at)),
    }
}
