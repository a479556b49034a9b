// The third clause: groups, types, parameters and needs.
ghost use Rattle.std.specs.Prelude.{◌≡◌};
ghost use Rattle.ae_tree.specs.Names.{io};
ghost use Rattle.ae_tree.specs.Form.{form, perm_of};
ghost use Rattle.ae_tree.specs.Shown.{code, definition};
ghost use Rattle.ae_rules.specs.Verdict.{in_turn, each, if_there};
ghost use Rattle.ae_rules.specs.Answers.{Answers, Leaves, done};
ghost use Rattle.ae_rules.specs.Lookups as lookup;
ghost use Rattle.ae_rules.specs.Lookups.{has_name};
ghost use Rattle.ae_rules.specs.Table as spec;
ghost use Rattle.ae_classes.specs.Classes.{GivesClasses};

use crate::answer::deny;
use crate::known::{KnownGroups, is_new};
use crate::lookups::{class_at, method_at};
use crate::types::{forms_perm, forms_type};
use ae_text::{Deny, Items, Rule, Spot};
use ae_tree::{
    Class, Decl, Field, GroupNeed, IO, Me, Method, Name, NameAt, Param, PermAt, Program, Ty,
};
use indexmap::IndexMap;
use std::alloc::Global;

// The most groups that a declaration may have.
const MOST_GROUPS: u32 = 16;

// The groups that are known outside a declaration, and its own, of which each is new.
fn declares_groups(
    alloc: Global,
    outer: &Items<Name>,
    groups: &[NameAt],
) -> Result<Items<Name>, Deny>
    ensures { Answers (spec.declares_groups spec.most_groups groups.now (has_name outer.now)) has_name result }
{
    let mut known = Items::from_slice(alloc, outer.as_slice())?;
    let mut room = MOST_GROUPS;
    for group in groups {
        if room == 0 {
            return Err(deny(Rule::TooManyGroups, group.at));
        }
        is_new(Rule::GroupTwice, *group, &mut known)?;
        room -= 1;
    }
    Ok(known)
}

// A field has a type that is no `lent` one.
fn field_holds(
    program: &Program,
    classes: &IndexMap<Name, u32>,
    known: &Items<Name>,
    field: &Field,
) -> Result<(), Deny>
    requires { GivesClasses classes.now (code program.now) }
    ensures { Answers (spec.field_holds (code program.now) (has_name known.now) field.now) done result }
{
    forms_type(program, classes, known, false, &field.ty)
}

fn fields_hold(
    program: &Program,
    classes: &IndexMap<Name, u32>,
    known: &Items<Name>,
    fields: &[Field],
) -> Result<(), Deny>
    requires { GivesClasses classes.now (code program.now) }
    ensures { Answers (each (spec.field_holds (code program.now) (has_name known.now)) fields.now) done result }
{
    for field in fields {
        field_holds(program, classes, known, field)?;
    }
    Ok(())
}

// A result has a type that is no `lent` one.
fn result_holds(
    program: &Program,
    classes: &IndexMap<Name, u32>,
    known: &Items<Name>,
    result_type: &Option<Ty>,
) -> Result<(), Deny>
    requires { GivesClasses classes.now (code program.now) }
    ensures { Answers (spec.result_holds (code program.now) (has_name known.now) result_type.now) done result }
{
    match result_type {
        Some(ty) => forms_type(program, classes, known, false, ty),
        None => Ok(()),
    }
}

// An object with this permission may be given away for good.
fn perm_goes(perm: &PermAt, at: Spot) -> Result<(), Deny>
    ensures { Answers (spec.perm_goes (perm_of perm.now) at) done result }
{
    match perm {
        PermAt::Unique(_) | PermAt::Immutable(_) | PermAt::Shared(..) => Ok(()),
        PermAt::Lent(_) => Err(deny(Rule::LentEscapes, at)),
    }
}

// A parameter of this type may be marked as given away.
fn form_goes(ty: &Ty, at: Spot) -> Result<(), Deny>
    ensures { Answers (spec.form_goes (form ty.now) at) done result }
{
    match ty {
        Ty::Int(_) | Ty::Bool(_) => Err(deny(Rule::TypeMismatch, at)),
        Ty::Object(perm, _) => perm_goes(perm, at),
    }
}

// The receiver's permission, and its mark.
fn me_holds(known: &Items<Name>, me: &Me) -> Result<(), Deny>
    ensures { Answers (spec.me_holds (has_name known.now) me.now) done result }
{
    forms_perm(known, true, &me.perm)?;
    match me.away {
        Some(at) => perm_goes(&me.perm, at),
        None => Ok(()),
    }
}

// The receiver, where there is one.
fn receiver_holds(known: &Items<Name>, me: &Option<Me>) -> Result<(), Deny>
    ensures { Answers (if_there me.now (spec.me_holds (has_name known.now))) done result }
{
    match me {
        Some(me) => me_holds(known, me),
        None => Ok(()),
    }
}

// A parameter: its type, its mark, and its name, which joins those before.
fn param_holds(
    program: &Program,
    classes: &IndexMap<Name, u32>,
    known: &Items<Name>,
    param: &Param,
    earlier: &mut Items<Name>,
) -> Result<(), Deny>
    requires { GivesClasses classes.now (code program.now) }
    ensures { Leaves (spec.param_holds (code program.now) (has_name known.now) param.now
        (has_name earlier.old)) (has_name earlier.new) result }
{
    forms_type(program, classes, known, true, &param.ty)?;
    if let Some(at) = param.away {
        form_goes(&param.ty, at)?;
    }
    is_new(Rule::DuplicateLocal, param.name, earlier)
}

fn params_hold(
    program: &Program,
    classes: &IndexMap<Name, u32>,
    known: &Items<Name>,
    params: &[Param],
    earlier: &mut Items<Name>,
) -> Result<(), Deny>
    requires { GivesClasses classes.now (code program.now) }
    ensures { Leaves (in_turn (spec.param_holds (code program.now) (has_name known.now)) params.now
        (has_name earlier.old)) (has_name earlier.new) result }
{
    for param in params {
        param_holds(program, classes, known, param, earlier)?;
    }
    Ok(())
}

// A need of a known group, `io` among them, which joins those before.
fn need_holds(known: &Items<Name>, need: &GroupNeed, earlier: &mut Items<Name>) -> Result<(), Deny>
    ensures { Leaves (spec.need_holds (has_name known.now) need.now (has_name earlier.old))
        (has_name earlier.new) result }
{
    if !known.knows(need.group.name) {
        return Err(deny(Rule::UnknownGroup, need.group.at));
    }
    is_new(Rule::GroupTwice, need.group, earlier)
}

fn needs_hold(
    known: &Items<Name>,
    needs: &[GroupNeed],
    earlier: &mut Items<Name>,
) -> Result<(), Deny>
    ensures { Leaves (in_turn (spec.need_holds (has_name known.now)) needs.now (has_name earlier.old))
        (has_name earlier.new) result }
{
    for need in needs {
        need_holds(known, need, earlier)?;
    }
    Ok(())
}

// A method, where some groups are known outside it.
fn method_holds(
    alloc: Global,
    program: &Program,
    classes: &IndexMap<Name, u32>,
    outer: &Items<Name>,
    method: &Method,
) -> Result<(), Deny>
    requires { GivesClasses classes.now (code program.now) }
    ensures { Answers (spec.method_holds (code program.now) (has_name outer.now)
        (definition method.now)) done result }
{
    let known = declares_groups(alloc, outer, method.groups.as_slice())?;
    result_holds(program, classes, &known, &method.result)?;
    receiver_holds(&known, &method.me)?;
    let mut names = Items::from_slice(alloc, known.as_slice())?;
    params_hold(
        program,
        classes,
        &known,
        method.params.as_slice(),
        &mut names,
    )?;
    let mut asked = Items::new(alloc);
    needs_hold(&known, method.needs.as_slice(), &mut asked)?;
    Ok(())
}

// The method with this number, where some groups are known outside it.
fn numbered_holds(
    alloc: Global,
    program: &Program,
    classes: &IndexMap<Name, u32>,
    outer: &Items<Name>,
    number: u32,
) -> Result<(), Deny>
    requires { GivesClasses classes.now (code program.now) }
    ensures { Answers (if_there (lookup.method_at (code program.now) number)
        (spec.method_holds (code program.now) (has_name outer.now))) done result }
{
    match method_at(program, number) {
        Some(method) => method_holds(alloc, program, classes, outer, method),
        None => Ok(()),
    }
}

fn methods_hold(
    alloc: Global,
    program: &Program,
    classes: &IndexMap<Name, u32>,
    outer: &Items<Name>,
    numbers: &[u32],
) -> Result<(), Deny>
    requires { GivesClasses classes.now (code program.now) }
    ensures { Answers (each (λ n. if_there (lookup.method_at (code program.now) n)
        (spec.method_holds (code program.now) (has_name outer.now))) numbers.now) done result }
{
    for number in numbers {
        numbered_holds(alloc, program, classes, outer, *number)?;
    }
    Ok(())
}

// A class: its groups, its fields and its methods.
fn class_holds(
    alloc: Global,
    program: &Program,
    classes: &IndexMap<Name, u32>,
    outer: &Items<Name>,
    class: &Class,
) -> Result<(), Deny>
    requires classes { GivesClasses classes.now (code program.now) }
    requires outer { has_name outer.now ≡ spec.and_also io spec.no_names }
    ensures { Answers (spec.class_holds (code program.now) class.now) done result }
{
    let known = declares_groups(alloc, outer, class.groups.as_slice())?;
    fields_hold(program, classes, &known, class.fields.as_slice())?;
    methods_hold(alloc, program, classes, &known, class.methods.as_slice())
}

// A declaration, outside of which `io` alone is known.
fn decl_holds(
    alloc: Global,
    program: &Program,
    classes: &IndexMap<Name, u32>,
    outer: &Items<Name>,
    decl: Decl,
) -> Result<(), Deny>
    requires classes { GivesClasses classes.now (code program.now) }
    requires outer { has_name outer.now ≡ spec.and_also io spec.no_names }
    ensures { Answers (spec.decl_holds (code program.now) decl) done result }
{
    match decl {
        Decl::Class(number) => match class_at(program, number) {
            Some(class) => class_holds(alloc, program, classes, outer, class),
            None => Ok(()),
        },
        Decl::Method(number) => numbered_holds(alloc, program, classes, outer, number),
    }
}

// Each declaration, in order.
pub fn decls_hold(
    alloc: Global,
    program: &Program,
    classes: &IndexMap<Name, u32>,
) -> Result<(), Deny>
    requires { GivesClasses classes.now (code program.now) }
    ensures { Answers (each (spec.decl_holds (code program.now)) program.now.decls) done result }
{
    let mut outer = Items::new(alloc);
    outer.push(IO)?;
    for decl in program.decls.as_slice() {
        decl_holds(alloc, program, classes, &outer, *decl)?;
    }
    Ok(())
}
