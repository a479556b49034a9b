// A call is entered.
ghost use Rattle.std.specs.Prelude.{◌≡◌, Some, IfOk, drop, take, map};
ghost use Rattle.ae_tree.specs.Shown.{definition, invocation};
ghost use Rattle.ae_rules.specs.Lookups as lookup;
ghost use Rattle.ae_rules.specs.Calls.{givens};
ghost use Rattle.ae_semantics.specs.Calls as spec;
ghost use Rattle.ae_semantics.specs.Calls.{group_given};
ghost use Rattle.ae_values.specs.Environments.{running_binds, waiting_binds};
ghost use Rattle.ae_values.specs.Shapes.{shapes};
ghost use Rattle.ae_judge.specs.Tabled.{code_of};
ghost use Rattle.ae_calls.specs.Callee.{callee_shown};
ghost use Rattle.ae_running.specs.Seen.{seen};
ghost use Rattle.ae_frames.specs.Entries.{NamesApart, entered_call, entered};
ghost use Rattle.ae_frames.specs.Asking.{asked_in, AreSpared};
ghost use Rattle.ae_frames.specs.Givens.{arguments_of, takers_of};
ghost use Rattle.ae_frames.specs.Awaiting.{Awaits};
ghost use Rattle.ae_frames.specs.Entering.{IsEntered, EntersAs, waiting_state};

use crate::arguments::arguments;
use crate::callees::callee;
use crate::collecting::collect;
use crate::given::{Arg, Asked, Parameter};
use crate::gone::all_given_away;
use crate::left::Left;
use crate::opening::open;
use crate::takers::takers;
use ae_calls::{Callee, groups_in};
use ae_judge::Tabled;
use ae_reads::Stop;
use ae_running::Running;
use ae_text::Memory;
use ae_tree::{Call, Method};
use std::mem::replace;

/// A method that was entered, with its number, and what is kept of its caller.
#[derive(Drop)]
pub struct Entered<'a> {
    pub number: u32,
    pub method: &'a Method,
    pub left: Left,
}

// The body of the method that was found begins, with these arguments, where the caller has lost what it does not keep.
fn open_body<'a>(
    tabled: &Tabled,
    callee: Callee<'a>,
    takers: Vec<Parameter>,
    args: Vec<Arg>,
    call: &Call,
    run: &mut Running,
) -> Result<Entered<'a>, Memory>
    requires apart { NamesApart (code_of tabled.now) }
    requires takers { takers_of takers.items ≡ spec.takers (code_of tabled.now) (definition callee.method.now) }
    requires number { lookup.method_at (code_of tabled.now) callee.number ≡ Some (definition callee.method.now) }
    ensures entered { IfOk result (λ e. IsEntered (entered_call (code_of tabled.now) (seen run.old) (callee_shown callee.entry)
        (group_given (seen run.old) (callee_shown callee.entry) (invocation call.now)) (arguments_of args.items))
        (invocation call.now) (seen run.old) e run.new) }
    ensures locals { IfOk result (λ e. (waiting_state e.left.waiting.base e.left.result run.new.env).locals
        ≡ (seen run.old).locals) }
    ensures waiting_shapes { IfOk result (λ e. shapes (drop e.left.waiting.base (waiting_binds run.new.env))
        ≡ shapes (running_binds run.old.env)) }
    ensures outer { IfOk result (λ e. take e.left.waiting.base (waiting_binds run.new.env)
        ≡ waiting_binds run.old.env) }
    ensures awaits { IfOk result (λ e. Awaits e.left.waiting (shapes (running_binds run.new.env)) (waiting_binds
        run.new.env)) }
    ensures out { run.new.out ≡ run.old.out }
{
    let gone = match all_given_away(tabled.alloc, takers.as_slice(), call) {
        Ok(gone) => gone,
        Err(memory) => return Err(memory),
    };
    let new = match groups_in(tabled.alloc, &callee, call.groups.as_slice()) {
        Ok(new) => new,
        Err(_) => return Err(Memory),
    };
    let result = replace(&mut run.result, None);
    let needs = callee.method.needs.as_slice();
    match open(tabled.alloc, &mut run.env, &new, needs, takers, args) {
        Ok(waiting) => Ok(Entered {
            number: callee.number,
            method: callee.method,
            left: Left {
                waiting,
                gone,
                result,
            },
        }),
        Err(memory) => Err(memory),
    }
}

// The body of the method that was found begins, with what these arguments come to.
fn begin<'a>(
    tabled: &Tabled,
    callee: Callee<'a>,
    takers: Vec<Parameter>,
    asked: Vec<Asked>,
    call: &Call,
    run: &mut Running,
) -> Result<Entered<'a>, Memory>
    requires apart { NamesApart (code_of tabled.now) }
    requires takers { takers_of takers.items ≡ spec.takers (code_of tabled.now) (definition callee.method.now) }
    requires spared { AreSpared (takers_of takers.items) (givens (invocation call.now)) asked.items }
    requires number { lookup.method_at (code_of tabled.now) callee.number ≡ Some (definition callee.method.now) }
    ensures entered { IfOk result (λ e. IsEntered (entered_call (code_of tabled.now) (seen run.old) (callee_shown callee.entry)
        (group_given (seen run.old) (callee_shown callee.entry) (invocation call.now)) (map (asked_in (seen run.old)) asked.items))
        (invocation call.now) (seen run.old) e run.new) }
    ensures waiting_shapes { IfOk result (λ e. shapes (drop e.left.waiting.base (waiting_binds run.new.env))
        ≡ shapes (running_binds run.old.env)) }
    ensures outer { IfOk result (λ e. take e.left.waiting.base (waiting_binds run.new.env)
        ≡ waiting_binds run.old.env) }
    ensures awaits { IfOk result (λ e. Awaits e.left.waiting (shapes (running_binds run.new.env)) (waiting_binds
        run.new.env)) }
    ensures out { run.new.out ≡ run.old.out }
{
    let args = match collect(tabled.alloc, run, asked) {
        Ok(args) => args,
        Err(memory) => return Err(memory),
    };
    match open_body(tabled, callee, takers, args, call, run) {
        Ok(entered) => Ok(entered),
        Err(memory) => Err(memory),
    }
}

/// A call is entered: the method is found, the receiver and the arguments are evaluated from left to right, and then
/// the names of the caller wait and those with which the body begins are bound. Nothing was returned in the new call.
/// The answer has what `leave` wants. After a fault the run is at its end: of its names nothing is promised, and what
/// it printed stays.
pub fn enter<'a>(tabled: &'a Tabled, call: &Call, run: &mut Running) -> Result<Entered<'a>, Stop>
    requires { NamesApart (code_of tabled.now) }
    ensures entered { EntersAs (entered (code_of tabled.now) (invocation call.now) (seen run.old)) (invocation call.now)
        (seen run.old) run.new result }
    ensures waiting_shapes { IfOk result (λ e. shapes (drop e.left.waiting.base (waiting_binds run.new.env))
        ≡ shapes (running_binds run.old.env)) }
    ensures outer { IfOk result (λ e. take e.left.waiting.base (waiting_binds run.new.env)
        ≡ waiting_binds run.old.env) }
    ensures awaits { IfOk result (λ e. Awaits e.left.waiting (shapes (running_binds run.new.env)) (waiting_binds
        run.new.env)) }
    ensures out { run.new.out ≡ run.old.out }
{
    let callee = match callee(tabled, run, call) {
        Ok(callee) => callee,
        Err(stop) => return Err(stop),
    };
    let takers = match takers(tabled, callee.method) {
        Ok(takers) => takers,
        Err(_) => return Err(Stop::Memory),
    };
    let asked = match arguments(tabled, run, takers.as_slice(), call) {
        Ok(asked) => asked,
        Err(stop) => return Err(stop),
    };
    match begin(tabled, callee, takers, asked, call, run) {
        Ok(entered) => Ok(entered),
        Err(_) => Err(Stop::Memory),
    }
}
