// A run, step by step, and what it comes to.
ghost use Rattle.std.specs.Prelude.{◌≡◌, ◌+◌, ◌∷◌, [], IfOk};
ghost use Rattle.ae_levels.specs.Going.{IsSound};
ghost use Rattle.ae_levels.specs.Halting.{LeadsTo};
ghost use Rattle.ae_levels.specs.Levels.{level_cost, levels_cost};
ghost use Rattle.ae_levels.specs.Meanings.{MeansSo};
ghost use Rattle.ae_machine.specs.Frames.{level, levels};
ghost use Rattle.ae_machine.specs.Tasks.{IsAt, IsPast, code_in, whole_of};

use crate::begin::begin;
use crate::calls::come_back;
use crate::frame::Frame;
use crate::statements::go_on;
use crate::task::Task;
use crate::turns::turn;
use ae_levels::{Halt, runs_mean_so};
use ae_running::Running;
use ae_semantics::Ending;
use ae_text::Memory;

/// What a run came to: how it ended, and the bytes that it printed.
#[derive(Drop)]
pub struct Meant {
    pub ending: Ending,
    pub out: Vec<u8>,
}

// The innermost level is gone on with.
fn step<'a>(
    task: &'a Task<'a>,
    frame: Frame<'a>,
    run: &mut Running,
    frames: &mut Vec<Frame<'a>>,
) -> Result<(), Halt>
    requires sound { IsSound (code_in task.now) }
    requires at { IsAt task.now run.old (level frame ∷ levels frames.old.items) }
    ensures { LeadsTo (whole_of task.now) run.new.out.items (IsPast task.now run.new (levels frames.new.items)
        (level_cost (code_in task.now) (level frame.entry) + levels_cost (code_in task.now) (levels frames.old.items))) result }
{
    match frame {
        Frame::Rest(rest) => go_on(task, rest, run, frames),
        Frame::Turns(turns) => turn(task, turns, run, frames),
        Frame::Waiting(waiting) => come_back(task, waiting, run, frames),
    }
}

// Step by step, until nothing is left to do.
fn steps<'a>(task: &'a Task<'a>, run: &mut Running, frames: &mut Vec<Frame<'a>>) -> Result<(), Halt>
    requires sound { IsSound (code_in task.now) }
    requires at { IsAt task.now run.old (levels frames.old.items) }
    ensures { LeadsTo (whole_of task.now) run.new.out.items (IsAt task.now run.new []) result }
{
    while let Some(frame) = frames.pop() {
        match step(task, frame, run, frames) {
            Ok(()) => {}
            Err(halt) => return Err(halt),
        }
    }
    Ok(())
}

/// The run of an accepted program in which nothing is split, in source order: its ending and its bytes are the meaning's.
/// All that is under way stands on the heap, so that nothing that a source makes deep takes the machine's stack. Takes
/// memory; where that is refused nothing is told of the run.
pub fn evaluate<'a>(task: &'a Task<'a>) -> Result<Meant, Memory>
    requires { IsSound (code_in task.now) }
    ensures { IfOk result (λ m. MeansSo (code_in task.now) task.now.ints.now task.now.fuel m.ending m.out.items) }
{
    runs_mean_so();
    let alloc = task.tabled.alloc;
    let mut frames = Vec::new(alloc);
    let mut run = begin(task, &mut frames)?;
    match steps(task, &mut run, &mut frames) {
        Ok(()) => Ok(Meant {
            ending: Ending::Done,
            out: run.out,
        }),
        Err(Halt::Ends(ending)) => Ok(Meant {
            ending,
            out: run.out,
        }),
        Err(Halt::Lack) => unreachable!(),
        Err(Halt::Memory) => Err(Memory),
    }
}
