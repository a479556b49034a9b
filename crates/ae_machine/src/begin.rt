// A run begins, with the body of `main`.
ghost use Rattle.std.specs.Prelude.{◌≡◌, ◌∷◌, [], None, OnOk, IfOk, length};
ghost use Rattle.ae_tree.specs.Shown.{definition};
ghost use Rattle.ae_semantics.specs.Means.{main_state};
ghost use Rattle.ae_semantics.specs.Values.{Owned, Array};
ghost use Rattle.ae_values.specs.Environments.{running_binds, waiting_binds};
ghost use Rattle.ae_values.specs.Shown.{shown, IsMeasured};
ghost use Rattle.ae_running.specs.Seen.{seen};
ghost use Rattle.ae_starts.specs.Mains.{BeginsSo, HasMain, main_names};
ghost use Rattle.ae_levels.specs.Going.{IsSound};
ghost use Rattle.ae_machine.specs.Frames.{levels};
ghost use Rattle.ae_machine.specs.Tasks.{IsAt, IsUntouched, code_in, names_in};

use crate::frame::Frame;
use crate::steps::open;
use crate::task::Task;
use ae_calls::method_at;
use ae_levels::runs_mean_so;
use ae_running::Running;
use ae_starts::main_begins;
use ae_text::Memory;
use ae_tree::{MAIN, Method, form_of};
use ae_values::{Env, Object, Val, binds_change_one_name};
use std::alloc::{AllocError, Global};

// Integers as an array that stands here.
#[tactic(auto, using(ae_values::specs::Shown::shows))]
fn integers(alloc: Global, ints: &[i64]) -> Result<Val, AllocError>
    ensures value { IfOk result (λ v. shown v ≡ Owned (Array ints.now)) }
    ensures measured { IfOk result IsMeasured }
{
    let items = Vec::from_slice(alloc, ints)?;
    Ok(Val::Object(Box::new(alloc, Object::Ints(items))?))
}

// A run in which nothing has happened yet.
fn untouched(task: &Task) -> Result<Running, AllocError>
    ensures { IfOk result IsUntouched }
{
    let alloc = task.tabled.alloc;
    Ok(Running {
        env: Env::new(alloc, task.tabled.program.names.len())?,
        result: None,
        out: Vec::new(alloc),
    })
}

// The integers are bound to the parameter of `main`, where it has one.
fn bind_ints(task: &Task, method: &Method, run: &mut Running) -> Result<(), Memory>
    requires untouched { IsUntouched run.old }
    requires begins { BeginsSo (code_in task.now) (definition method.now) }
    ensures names { OnOk result (names_in run.new ≡ main_names (code_in task.now) (definition method.now)) }
    ensures state { OnOk result (seen run.new ≡ main_state (code_in task.now) (definition method.now) task.now.ints.now) }
    ensures waiting { OnOk result (waiting_binds run.new.env ≡ []) }
    ensures out { run.new.out ≡ run.old.out }
{
    binds_change_one_name();
    match method.params.as_slice().first() {
        Some(param) => {
            let value = match integers(task.tabled.alloc, task.ints) {
                Ok(value) => value,
                Err(_) => return Err(Memory),
            };
            let form = form_of(task.tabled.alloc, &param.ty)?;
            run.env.declare(param.name.name, form, value)
        }
        None => Ok(()),
    }
}

// The body of `main` begins.
fn begin_body<'a>(
    task: &'a Task<'a>,
    number: u32,
    method: &'a Method,
    run: &mut Running,
    frames: &mut Vec<Frame<'a>>,
) -> Result<(), Memory>
    requires sound { IsSound (code_in task.now) }
    requires main { HasMain (code_in task.now) number (definition method.now) }
    requires untouched { IsUntouched run.old }
    requires none { frames.old.items ≡ [] }
    ensures { OnOk result (IsAt task.now run.new (levels frames.new.items)) }
{
    main_begins();
    runs_mean_so();
    let _ = number;
    bind_ints(task, method, run)?;
    match open(method, task.fuel, 1, &method.body, run, frames) {
        Ok(()) => Ok(()),
        Err(_) => Err(Memory),
    }
}

/// A run begins: its `main` is found, the integers are bound to its parameter, where it has one, and its body is what is
/// to be done. Takes memory for these.
pub(crate) fn begin<'a>(task: &'a Task<'a>, frames: &mut Vec<Frame<'a>>) -> Result<Running, Memory>
    requires sound { IsSound (code_in task.now) }
    requires none { frames.old.items ≡ [] }
    ensures { IfOk result (λ run. IsAt task.now run (levels frames.new.items)) }
{
    main_begins();
    let mut run = match untouched(task) {
        Ok(run) => run,
        Err(_) => return Err(Memory),
    };
    let number = match task.tabled.table.top(MAIN) {
        Some(number) => number,
        None => unreachable!(),
    };
    match method_at(&task.tabled, number) {
        Some(method) => {
            begin_body(task, number, method, &mut run, frames)?;
            Ok(run)
        }
        None => unreachable!(),
    }
}
