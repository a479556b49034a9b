// Where a path leads: the form of the place, and what is held of it.
ghost use Rattle.std.specs.Prelude.{◌≡◌, []};
ghost use Rattle.ae_rules.specs.Answers.{Answers, done};
ghost use Rattle.ae_rules.specs.Context as context;
ghost use Rattle.ae_rules.specs.Groups as group;
ghost use Rattle.ae_rules.specs.Lookups.{is_empty};
ghost use Rattle.ae_rules.specs.Walks as spec;
ghost use Rattle.ae_scope.specs.Scope.{context_of};
ghost use Rattle.ae_judge.specs.Tabled.{code_of};
ghost use Rattle.ae_judge.specs.Views.{place_of};

use crate::answer::deny;
use crate::forms::copy_form;
use crate::lookups::{field_form, field_in};
use crate::tabled::Tabled;
use ae_rules::Held;
use ae_scope::Scope;
use ae_text::{Deny, Rule, Spot};
use ae_tree::{Form, Name, NameAt, Path, Perm};

/// Where a path leads: the form of the place, and what is held of the object there.
#[derive(Drop)]
pub struct Place {
    pub form: Form,
    pub held: Held,
}

/// A member of a group, or its log, is reached: refused where the group is not open. Takes no memory.
pub fn group_access(scope: &Scope, name: Name, at: Spot) -> Result<(), Deny>
    ensures { Answers (group.group_access (context_of scope.now).group name at) done result }
{
    if scope.opens(name) {
        Ok(())
    } else {
        Err(deny(Rule::NeedsGroup, at))
    }
}

/// An object of which this is held is reached: refused where nothing is held, and where the group that it is in is not
/// open. Takes no memory.
pub fn access(scope: &Scope, at: Spot, held: Held) -> Result<(), Deny>
    ensures { Answers (context.access (context_of scope.now) at held) done result }
{
    match held {
        Held::Unique | Held::Split(_) | Held::Immutable | Held::Lent => Ok(()),
        Held::Shared(name) | Held::Inner(name) => group_access(scope, name, at),
        Held::None => Err(deny(Rule::NoPermission, at)),
    }
}

// What is held lets the object be changed.
fn may_change(held: Held) -> bool
    ensures { result ≡ context.may_change held }
{
    match held {
        Held::Unique | Held::Shared(_) | Held::Inner(_) => true,
        Held::Split(_) | Held::Immutable | Held::Lent | Held::None => false,
    }
}

/// What is held in a unique field, by what is held of the object that has it.
pub fn held_inside(held: Held) -> Held
    ensures { result ≡ spec.held_inside held }
{
    match held {
        Held::Unique => Held::Unique,
        Held::Split(_) => Held::None,
        Held::Immutable => Held::Immutable,
        Held::Lent => Held::Lent,
        Held::Shared(name) | Held::Inner(name) => Held::Inner(name),
        Held::None => Held::None,
    }
}

/// What is held in a field of this form, by what is held of the object that has it.
pub fn held_in_field(whole: Held, form: &Form) -> Held
    ensures { result ≡ spec.held_in_field whole form.now }
{
    match form {
        Form::Int | Form::Bool => Held::None,
        Form::Object(perm, _) => match perm {
            Perm::Unique => held_inside(whole),
            Perm::Immutable => Held::Immutable,
            Perm::Lent => Held::None,
            Perm::Shared(name) => Held::Shared(*name),
        },
    }
}

/// A step from a place to a field of the object there. Refused where the field is not there, and where the object may
/// not be reached. Takes memory for the groups of the field's form alone.
pub fn step(
    tabled: &Tabled,
    scope: &Scope,
    at: Spot,
    x: NameAt,
    from: &Place,
) -> Result<Place, Deny>
    ensures { Answers (spec.step (code_of tabled.now) (context_of scope.now) at x (place_of from.now)) place_of result }
{
    match field_in(tabled, &from.form, x.name) {
        Some(found) => {
            access(scope, at, from.held)?;
            let form = field_form(tabled.alloc, found.class, found.groups, found.field)?;
            let held = held_in_field(from.held, &form);
            Ok(Place { form, held })
        }
        None => Err(deny(Rule::UnknownField, x.at)),
    }
}

/// The place that a visible local stands for. Refused where no local has the name. Takes memory for the groups of its
/// form alone.
pub fn root_place(tabled: &Tabled, scope: &Scope, root: NameAt) -> Result<Place, Deny>
    ensures { Answers (spec.walk (code_of tabled.now) (context_of scope.now) (record { root = root; steps = [] }))
        place_of result }
{
    match scope.find(root.name) {
        Some(local) => {
            let form = copy_form(tabled.alloc, &local.form)?;
            Ok(Place {
                form,
                held: local.held,
            })
        }
        None => Err(deny(Rule::UnknownName, root.at)),
    }
}

// A walk along these steps from a visible local.
fn walk_along(tabled: &Tabled, scope: &Scope, root: NameAt, steps: &[NameAt]) -> Result<Place, Deny>
    ensures { Answers (spec.walk (code_of tabled.now) (context_of scope.now)
        (record { root = root; steps = steps.now })) place_of result }
{
    let mut place = root_place(tabled, scope, root)?;
    for x in steps {
        place = step(tabled, scope, root.at, *x, &place)?;
    }
    Ok(place)
}

/// Where a path leads from a visible local. Refused where the root is not visible, where a step's field is not there,
/// and where the object that has the field may not be reached. Takes memory for the groups of forms alone.
pub fn walk(tabled: &Tabled, scope: &Scope, path: &Path) -> Result<Place, Deny>
    ensures { Answers (spec.walk (code_of tabled.now) (context_of scope.now) path.now) place_of result }
{
    walk_along(tabled, scope, path.root, path.steps.as_slice())
}

/// The object at a path's end is changed: refused where it may not be reached, or what is held of it allows no change.
/// Takes no memory.
pub fn write_access(scope: &Scope, at: Spot, held: Held) -> Result<(), Deny>
    ensures { Answers (spec.write_access (context_of scope.now) at held) done result }
{
    access(scope, at, held)?;
    if may_change(held) {
        Ok(())
    } else {
        Err(deny(Rule::NeedsUnique, at))
    }
}

/// All steps of a path but the last, and none of a path without steps. Takes no memory.
#[tactic(auto, using(crate::proofs::WalkLemmas::all_but_the_last))]
pub fn without_last(steps: &[NameAt]) -> &[NameAt]
    ensures { result.now ≡ spec.without_last steps.now }
{
    if steps.is_empty() {
        steps
    } else {
        &steps[..steps.len() - 1]
    }
}

/// The object that has a path's last field is changed: the path to it is walked, and then it is as for any object.
pub fn owner_write_access(tabled: &Tabled, scope: &Scope, path: &Path) -> Result<(), Deny>
    ensures { Answers (spec.owner_write_access (code_of tabled.now) (context_of scope.now) path.now) done result }
{
    let from = walk_along(
        tabled,
        scope,
        path.root,
        without_last(path.steps.as_slice()),
    )?;
    write_access(scope, path.root.at, from.held)
}

/// A name without steps. Takes no memory.
pub fn is_name(path: &Path) -> bool
    ensures { result ≡ spec.is_name path.now }
{
    path.steps.is_empty()
}
