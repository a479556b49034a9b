// Calls that begin, and calls that come back.
ghost use Rattle.std.specs.Prelude.{◌+◌, ◌∷◌, suc};
ghost use Rattle.ae_tree.specs.Shown.{invocation};
ghost use Rattle.ae_values.specs.Environments.{waiting_binds};
ghost use Rattle.ae_running.specs.Seen.{seen};
ghost use Rattle.ae_steps.specs.Costs.{costs};
ghost use Rattle.ae_levels.specs.Going.{CallBegun, IsSound};
ghost use Rattle.ae_levels.specs.Halting.{LeadsTo};
ghost use Rattle.ae_levels.specs.Levels.{level_cost, levels_cost};
ghost use Rattle.ae_machine.specs.Calling.{IsJudgedCall};
ghost use Rattle.ae_machine.specs.declared.frame.Frame.TheVariants as fr;
ghost use Rattle.ae_machine.specs.Frames.{aim, level, levels};
ghost use Rattle.ae_machine.specs.Tasks.{IsAt, IsPast, code_in, names_in, whole_of};

use crate::frame::{Frame, Target, Waiting};
use crate::receiving::receive;
use crate::steps::{open, push};
use crate::task::Task;
use ae_frames::{calls_are_entered, calls_are_left, enter, leave, needed_groups_stay};
use ae_levels::{Halt, calls_come_back, levels_cost_less, stopped_at};
use ae_names::declared_names_are_free;
use ae_running::Running;
use ae_semantics::Ending;
use ae_starts::{entered_names_are_known, names_stand_apart};
use ae_text::Spot;
use ae_tree::Call;

/// A call begins: it is entered, which at depth 1,000 is trap 6, takes one of the fuel, and its method's body begins; what
/// is kept of the caller waits behind it.
pub(crate) fn begin_call<'a>(
    task: &'a Task<'a>,
    fuel: u32,
    depth: u32,
    at: Spot,
    call: &'a Call,
    target: Target<'a>,
    run: &mut Running,
    frames: &mut Vec<Frame<'a>>,
) -> Result<(), Halt>
    requires sound { IsSound (code_in task.now) }
    requires begun { CallBegun (code_in task.now) (whole_of task.now) (names_in run.old) (waiting_binds run.old.env)
        (seen run.old) run.old.out.items fuel depth at (invocation call.now) (aim target) (levels frames.old.items) }
    requires judged { IsJudgedCall (code_in task.now) (names_in run.old) (invocation call.now) }
    ensures { LeadsTo (whole_of task.now) run.new.out.items (IsPast task.now run.new (levels frames.new.items)
        (suc (suc (costs (code_in task.now) fuel).call) + levels_cost (code_in task.now) (levels frames.old.items))) result }
{
    calls_come_back();
    levels_cost_less();
    names_stand_apart();
    entered_names_are_known();
    calls_are_entered();
    let entered = match enter(&task.tabled, call, run) {
        Ok(entered) => entered,
        Err(stop) => return Err(stopped_at(stop, at)),
    };
    if depth >= 1000 {
        return Err(Halt::Ends(Ending::Trap { code: 6, at }));
    }
    if fuel == 0 {
        return Err(Halt::Ends(Ending::Fuel { at }));
    }
    let method = entered.method;
    let waiting = Waiting {
        at,
        call,
        left: entered.left,
        target,
    };
    match push(frames, Frame::Waiting(waiting)) {
        Ok(()) => open(method, fuel - 1, depth + 1, &method.body, run, frames),
        Err(halt) => Err(halt),
    }
}

/// A call comes back: what its method left goes to the caller, which runs again, and the result where it is wanted.
pub(crate) fn come_back<'a>(
    task: &Task<'a>,
    waiting: Waiting<'a>,
    run: &mut Running,
    frames: &Vec<Frame<'a>>,
) -> Result<(), Halt>
    requires sound { IsSound (code_in task.now) }
    requires at { IsAt task.now run.old (level (fr.Waiting waiting) ∷ levels frames.now.items) }
    ensures { LeadsTo (whole_of task.now) run.new.out.items (IsPast task.now run.new (levels frames.now.items)
        (level_cost (code_in task.now) (level (fr.Waiting waiting.entry)) + levels_cost (code_in task.now)
        (levels frames.now.items))) result }
{
    calls_come_back();
    names_stand_apart();
    calls_are_entered();
    calls_are_left();
    needed_groups_stay();
    declared_names_are_free();
    let _ = frames;
    let Waiting {
        at,
        call,
        left,
        target,
    } = waiting;
    let _ = call;
    let result = match leave(&task.tabled, left, run) {
        Ok(result) => result,
        Err(stop) => return Err(stopped_at(stop, at)),
    };
    match receive(task.tabled.alloc, run, target, result) {
        Ok(()) => Ok(()),
        Err(stop) => Err(stopped_at(stop, at)),
    }
}
