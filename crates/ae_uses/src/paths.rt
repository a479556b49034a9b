// What a path uses, step by step.
ghost use Rattle.std.specs.Prelude.{◌≡◌, MatchOption, None, Some, IfOk, OnOk};
ghost use Rattle.ae_rules.specs.Uses as spec;
ghost use Rattle.ae_rules.specs.Verdict.{Holds};
ghost use Rattle.ae_rules.specs.Walks as walks;
ghost use Rattle.ae_scope.specs.Scope.{context_of};
ghost use Rattle.ae_judge.specs.Tabled.{code_of};
ghost use Rattle.ae_judge.specs.Views.{place_of};
ghost use Rattle.ae_uses.specs.Used.{Adds, given_by};

use crate::judged::where_held;
use crate::used::Used;
use ae_judge::{Place, Tabled, root_place, step, without_last};
use ae_rules::Held;
use ae_scope::Scope;
use ae_tree::{Name, NameAt, Path};
use std::alloc::AllocError;

/// The steps of a path from a local are used. The answer is where it leads, where the walk breaks no rule.
pub fn walk_used(
    tabled: &Tabled,
    scope: &Scope,
    root: NameAt,
    steps: &[NameAt],
    used: &mut Used,
) -> Result<Option<Place>, AllocError>
    ensures uses { OnOk result (Adds used.old (spec.walk_uses (code_of tabled.now) (context_of scope.now)
        (record { root = root; steps = steps.now })) used.new) }
    ensures place { IfOk result (λ o. MatchOption o
        (given_by (walks.walk (code_of tabled.now) (context_of scope.now) (record { root = root; steps = steps.now }))
        ≡ None)
        (λ w. walks.walk (code_of tabled.now) (context_of scope.now) (record { root = root; steps = steps.now })
        ≡ Holds (place_of w))) }
{
    let Some(mut place) = where_held(root_place(tabled, scope, root))? else {
        return Ok(None);
    };
    for x in steps {
        used.reaches(place.held)?;
        place = match where_held(step(tabled, scope, root.at, *x, &place))? {
            Some(next) => next,
            None => return Ok(None),
        };
    }
    Ok(Some(place))
}

/// A path that is read is used, and its steps.
#[tactic(auto, using(crate::proofs::UsedLemmas::adds))]
pub fn path_used(
    tabled: &Tabled,
    scope: &Scope,
    path: &Path,
    used: &mut Used,
) -> Result<(), AllocError>
    ensures { OnOk result (Adds used.old (spec.path_uses (code_of tabled.now) (context_of scope.now) path.now)
        used.new) }
{
    used.reads(path.root.name)?;
    walk_used(tabled, scope, path.root, path.steps.as_slice(), used)?;
    Ok(())
}

/// The object at a path's end is reached.
#[tactic(auto, using(crate::proofs::UsedLemmas::adds))]
pub fn end_used(
    tabled: &Tabled,
    scope: &Scope,
    path: &Path,
    used: &mut Used,
) -> Result<(), AllocError>
    ensures { OnOk result (Adds used.old (spec.end_uses (code_of tabled.now) (context_of scope.now) path.now)
        used.new) }
{
    match walk_used(tabled, scope, path.root, path.steps.as_slice(), used)? {
        Some(place) => {
            used.reaches(place.held)?;
            Ok(())
        }
        None => Ok(()),
    }
}

// The root of a path to an object that is written: it is written itself, where the object is held Unique.
fn root_written(held: Held, root: Name, used: &mut Used) -> Result<(), AllocError>
    ensures { OnOk result (Adds used.old (spec.root_written held root) used.new) }
{
    match held {
        Held::Unique => used.writes(root),
        Held::Split(_)
        | Held::Immutable
        | Held::Lent
        | Held::Shared(_)
        | Held::Inner(_)
        | Held::None => used.reads(root),
    }
}

/// The object at the end of these steps from a local is written.
#[tactic(auto, using(crate::proofs::UsedLemmas::adds))]
pub fn write_used(
    tabled: &Tabled,
    scope: &Scope,
    root: NameAt,
    steps: &[NameAt],
    used: &mut Used,
) -> Result<(), AllocError>
    ensures { OnOk result (Adds used.old (spec.write_uses (code_of tabled.now) (context_of scope.now)
        (record { root = root; steps = steps.now })) used.new) }
{
    match walk_used(tabled, scope, root, steps, used)? {
        Some(place) => {
            used.reaches(place.held)?;
            root_written(place.held, root.name, used)?;
            Ok(())
        }
        None => Ok(()),
    }
}

/// The object that has a path's last field is written.
pub fn owner_written(
    tabled: &Tabled,
    scope: &Scope,
    path: &Path,
    used: &mut Used,
) -> Result<(), AllocError>
    ensures { OnOk result (Adds used.old (spec.write_uses (code_of tabled.now) (context_of scope.now)
        (walks.owner path.now)) used.new) }
{
    let steps = without_last(path.steps.as_slice());
    write_used(tabled, scope, path.root, steps, used)?;
    Ok(())
}
