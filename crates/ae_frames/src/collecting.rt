// The arguments of a call collected: what the caller does not keep is taken out of its locals.
ghost use Rattle.std.specs.Prelude.{◌≡◌, IfOk, OnOk, map};
ghost use Rattle.ae_values.specs.Shown.{shown, IsMeasured};
ghost use Rattle.ae_running.specs.Seen.{seen};
ghost use Rattle.ae_stores.specs.Changes.{KeepsRest};
ghost use Rattle.ae_stores.specs.Stand.{standing_or_null};
ghost use Rattle.ae_frames.specs.Asking.{asked_in, is_once, left_by, locals_left, names_standing, nulled_if};
ghost use Rattle.ae_frames.specs.Asking.{with_locals};
ghost use Rattle.ae_frames.specs.Givens.{argument_of, arguments_of};

use crate::given::{Arg, Asked, Origin, Standing};
use ae_reads::Base;
use ae_running::Running;
use ae_stores::{copy_standing, take_standing};
use ae_text::Memory;
use ae_tree::Name;
use ae_values::Val;
use std::alloc::Global;

// The locals in which values of arguments stand, one for each argument. Takes memory for them.
fn locals_of(alloc: Global, asked: &[Asked]) -> Result<Vec<Name>, Memory>
    ensures { IfOk result (λ xs. xs.items ≡ names_standing asked.now) }
{
    let mut names = Vec::new(alloc);
    for one in asked {
        match one {
            Asked::Stands(standing) => match names.push(standing.name) {
                Ok(()) => {}
                Err(_) => return Err(Memory),
            },
            Asked::Read(_) => {}
        }
    }
    Ok(names)
}

// Whether a name stands once among these.
fn is_sole(names: &[Name], name: Name) -> bool
    ensures { result ≡ is_once name names.now }
{
    let mut found = false;
    for other in names {
        if *other == name {
            if found {
                return false;
            }
            found = true;
        }
    }
    found
}

// The value that stands in a local: where it is the only one that is handed over out of that local it is taken out,
// and else it is copied.
fn value_of(
    alloc: Global,
    run: &mut Running,
    standing: &Standing,
    sole: bool,
) -> Result<Val, Memory>
    ensures value { IfOk result (λ v. shown v ≡ standing_or_null (seen run.old) standing.now.name standing.now.fields.items) }
    ensures measured { IfOk result IsMeasured }
    ensures left { OnOk result (seen run.new ≡ nulled_if sole standing.now.name standing.now.fields.items (seen run.old)) }
    ensures keeps { KeepsRest run.old run.new }
{
    let fields = standing.fields.as_slice();
    if sole {
        Ok(take_standing(run, standing.name, fields))
    } else {
        copy_standing(alloc, run, standing.name, fields)
    }
}

// One argument with its value.
fn collected(alloc: Global, run: &mut Running, asked: Asked, locals: &[Name]) -> Result<Arg, Memory>
    ensures given { IfOk result (λ x. argument_of x ≡ asked_in (seen run.old) asked) }
    ensures left { OnOk result (seen run.new ≡ left_by locals.now asked (seen run.old)) }
    ensures keeps { KeepsRest run.old run.new }
{
    match asked {
        Asked::Read(arg) => Ok(arg),
        Asked::Stands(standing) => {
            let sole = is_sole(locals, standing.name);
            let value = match value_of(alloc, run, &standing, sole) {
                Ok(value) => value,
                Err(memory) => return Err(memory),
            };
            let Standing { name, fields } = standing;
            Ok(Arg {
                value,
                from: Some(Origin {
                    base: Base::Local(name),
                    fields,
                }),
            })
        }
    }
}

/// The arguments with their values. What stands in a local and is alone there in being handed over is taken out of it,
/// and null stands in its place then; where two values of one local are handed over, both are copied. Takes memory for
/// the list, and for what is copied; after a refusal some may have been taken out.
pub(crate) fn collect(
    alloc: Global,
    run: &mut Running,
    mut asked: Vec<Asked>,
) -> Result<Vec<Arg>, Memory>
    ensures given { IfOk result (λ xs. arguments_of xs.items ≡ map (asked_in (seen run.old)) asked.items) }
    ensures left { OnOk result (seen run.new ≡ with_locals (locals_left asked.items (seen run.old).locals)
        (seen run.old)) }
    ensures keeps { KeepsRest run.old run.new }
{
    let mut args = Vec::new(alloc);
    let locals = match locals_of(alloc, asked.as_slice()) {
        Ok(locals) => locals,
        Err(memory) => return Err(memory),
    };
    asked.reverse();
    while let Some(one) = asked.pop() {
        let arg = match collected(alloc, run, one, locals.as_slice()) {
            Ok(arg) => arg,
            Err(memory) => return Err(memory),
        };
        match args.push(arg) {
            Ok(()) => {}
            Err(_) => return Err(Memory),
        }
    }
    Ok(args)
}
