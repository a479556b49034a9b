// Where the result of a call goes.
ghost use Rattle.std.specs.Prelude.{◌≡◌, ◌++◌, IfSome, OnOk, option_map};
ghost use Rattle.ae_values.specs.Environments.{waiting_binds};
ghost use Rattle.ae_values.specs.Shown.{shown, IsMeasured};
ghost use Rattle.ae_reads.specs.Answers.{ReadsAs};
ghost use Rattle.ae_running.specs.Seen.{seen};
ghost use Rattle.ae_levels.specs.Levels.{names_aimed};
ghost use Rattle.ae_machine.specs.Frames.{aim};
ghost use Rattle.ae_machine.specs.Results.{IsFree, received_as};
ghost use Rattle.ae_machine.specs.Tasks.{names_in};

use crate::frame::Target;
use ae_acts::{assign, declare};
use ae_reads::Stop;
use ae_running::Running;
use ae_tree::form_of;
use ae_values::Val;
use std::alloc::Global;

/// The result of a call goes where it is wanted. A result that is wanted and not there is a lack, and one that is too high
/// for a local is trap 8. Takes memory for the form of a new local alone.
pub(crate) fn receive(
    alloc: Global,
    run: &mut Running,
    target: Target,
    returned: Option<Val>,
) -> Result<(), Stop>
    requires free { IsFree (names_in run.old) (aim target) }
    requires measured { IfSome returned IsMeasured }
    ensures done { ReadsAs (received_as (names_in run.old) (aim target.entry) (option_map shown returned) (seen run.old))
        (λ done. seen run.new) result }
    ensures names { OnOk result (names_in run.new ≡ names_in run.old ++ names_aimed (aim target.entry)) }
    ensures waiting { OnOk result (waiting_binds run.new.env ≡ waiting_binds run.old.env) }
    ensures out { run.new.out ≡ run.old.out }
{
    match target {
        Target::Nowhere => Ok(()),
        Target::New(ty, name) => match returned {
            Some(value) => match form_of(alloc, ty) {
                Ok(form) => declare(run, name, form, value),
                Err(_) => Err(Stop::Memory),
            },
            None => Err(Stop::Lack),
        },
        Target::Old(name) => match returned {
            Some(value) => assign(run, name, value),
            None => Err(Stop::Lack),
        },
    }
}
