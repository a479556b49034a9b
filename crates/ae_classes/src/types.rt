// Which types may be written where some groups are known.
ghost use Rattle.ae_tree.specs.Shown.{code};
ghost use Rattle.ae_rules.specs.Answers.{Answers, done};
ghost use Rattle.ae_rules.specs.Types as spec;
ghost use Rattle.ae_classes.specs.Classes.{GivesClasses};

use crate::answer::deny;
use crate::known::KnownGroups;
use crate::lookups::class_called;
use ae_text::{Deny, Rule, Spot};
use ae_tree::{IO, KindAt, Name, NameAt, PermAt, Program, Ty};
use indexmap::IndexMap;

/// A group that may be written in a type or as a group of a call or of `new`: it is known, and is not `io`.
pub fn is_group<G: KnownGroups>(known: &G, group: NameAt) -> Result<(), Deny>
    ensures { Answers (spec.is_group (G.known known.now) group) done result }
{
    if known.knows(group.name) && group.name != IO {
        Ok(())
    } else {
        Err(deny(Rule::UnknownGroup, group.at))
    }
}

/// As many groups as are wanted, or else the refusal stands at this place; and then each is known.
pub fn groups_fit<G: KnownGroups>(
    known: &G,
    wanted: usize,
    at: Spot,
    groups: &[NameAt],
) -> Result<(), Deny>
    ensures { Answers (spec.groups_fit (G.known known.now) wanted at groups.now) done result }
{
    if groups.len() != wanted {
        return Err(deny(Rule::GroupCount, at));
    }
    for group in groups {
        is_group(known, *group)?;
    }
    Ok(())
}

/// A permission: `lent` only where it is allowed, and `shared` of a known group alone.
pub fn forms_perm<G: KnownGroups>(known: &G, may_lend: bool, perm: &PermAt) -> Result<(), Deny>
    ensures { Answers (spec.forms_perm (G.known known.now) may_lend perm.now) done result }
{
    match perm {
        PermAt::Unique(_) | PermAt::Immutable(_) => Ok(()),
        PermAt::Lent(at) => {
            if may_lend {
                Ok(())
            } else {
                Err(deny(Rule::LentEscapes, *at))
            }
        }
        PermAt::Shared(_, group) => is_group(known, *group),
    }
}

/// A kind: integers, or a declared class with known groups, as many as it has.
pub fn forms_kind<G: KnownGroups>(
    program: &Program,
    classes: &IndexMap<Name, u32>,
    known: &G,
    kind: &KindAt,
) -> Result<(), Deny>
    requires { GivesClasses classes.now (code program.now) }
    ensures { Answers (spec.forms_kind (code program.now) (G.known known.now) kind.now) done result }
{
    match kind {
        KindAt::Ints(_) => Ok(()),
        KindAt::Class(name, groups) => match class_called(program, classes, name.name) {
            Some(class) => groups_fit(known, class.groups.len(), name.at, groups.as_slice()),
            None => Err(deny(Rule::UnknownClass, name.at)),
        },
    }
}

/// A type where these groups are known: first its permission and then its kind. Refused by the first rule that it
/// breaks: `lent` where it is not allowed, a group that is not known or is `io`, a class that is not declared, or
/// another number of groups than the class has.
pub fn forms_type<G: KnownGroups>(
    program: &Program,
    classes: &IndexMap<Name, u32>,
    known: &G,
    may_lend: bool,
    ty: &Ty,
) -> Result<(), Deny>
    requires { GivesClasses classes.now (code program.now) }
    ensures { Answers (spec.forms_type (code program.now) (G.known known.now) may_lend ty.now) done result }
{
    match ty {
        Ty::Int(_) | Ty::Bool(_) => Ok(()),
        Ty::Object(perm, kind) => {
            forms_perm(known, may_lend, perm)?;
            forms_kind(program, classes, known, kind)
        }
    }
}
