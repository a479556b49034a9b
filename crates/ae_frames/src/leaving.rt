// A call is left.
ghost use Rattle.std.specs.Prelude.{◌≡◌, OnOk, drop, take};
ghost use Rattle.ae_values.specs.Environments.{running_binds, waiting_binds};
ghost use Rattle.ae_values.specs.Shapes.{shapes};
ghost use Rattle.ae_reads.specs.Answers.{ReadsAs};
ghost use Rattle.ae_running.specs.Seen.{seen};
ghost use Rattle.ae_semantics.specs.Calls.{without_moved};
ghost use Rattle.ae_stores.specs.Changes.{KeepsRest};
ghost use Rattle.ae_frames.specs.Awaiting.{Awaits, LeavesAs, left_as_kept};
ghost use Rattle.ae_frames.specs.Returns.{all_written, cames_of, groups_put, returneds_of, holders_of, AreGroups};

use crate::left::Left;
use crate::opening::Waiting;
use crate::restoring::{bring_all, lose_all, put_groups};
use crate::returned::{Came, Returned};
use crate::taking::{take_groups, take_values};
use ae_judge::Tabled;
use ae_reads::Stop;
use ae_running::Running;
use ae_tree::Name;
use ae_values::Val;
use std::mem::replace;

// All that was taken out of the callee comes back to the caller, which runs again.
fn restore(
    run: &mut Running,
    gone: Vec<Name>,
    returned: Vec<Returned>,
    came: Vec<Came>,
) -> Result<(), Stop>
    requires { AreGroups (holders_of returned.items) (shapes (running_binds run.old.env)) }
    ensures written { ReadsAs (all_written (cames_of came.items)
        (groups_put (returneds_of returned.items) (without_moved gone.items (seen run.old)))) (λ done. seen run.new)
        result }
    ensures keeps { KeepsRest run.old run.new }
{
    lose_all(run, gone);
    put_groups(run, returned);
    bring_all(run, came)
}

/// A call is left: what its method left of the groups that were lent and of the unique objects that were given comes
/// back to the places from where the caller gave them, names that were given away have no value, and the caller's names
/// run again. The answer is what the method returned, if it returned anything; what the caller had returned stands. A
/// value that comes back and is not there is a lack, and trap 8 is where a local or a member of the caller would become
/// too high. Takes memory for what comes back. After a fault the run is at its end: of its names nothing is promised,
/// and what it printed stays.
pub fn leave(tabled: &Tabled, left: Left, run: &mut Running) -> Result<Option<Val>, Stop>
    requires { Awaits left.waiting (shapes (running_binds run.old.env)) (waiting_binds run.old.env) }
    ensures left { LeavesAs (left_as_kept left run.old) result run.old run.new }
    ensures names { OnOk result (shapes (running_binds run.new.env)
        ≡ shapes (drop left.waiting.base (waiting_binds run.old.env))) }
    ensures waiting { OnOk result (waiting_binds run.new.env
        ≡ take left.waiting.base (waiting_binds run.old.env)) }
    ensures out { run.new.out ≡ run.old.out }
{
    let Left {
        waiting,
        gone,
        result: kept,
    } = left;
    let Waiting { base, back, lent } = waiting;
    let came = match take_values(tabled.alloc, &mut run.env, back) {
        Ok(came) => came,
        Err(_) => return Err(Stop::Memory),
    };
    let returned = match take_groups(tabled.alloc, &mut run.env, lent) {
        Ok(returned) => returned,
        Err(_) => return Err(Stop::Memory),
    };
    let result = replace(&mut run.result, kept);
    run.env.leave(base);
    match restore(run, gone, returned, came) {
        Ok(()) => Ok(result),
        Err(stop) => Err(stop),
    }
}
