// The forms of the parameters of a method in a call.
ghost use Rattle.std.specs.Prelude.{◌≡◌, ◌++◌, None, Some, IfOk};
ghost use Rattle.ae_tree.specs.Form.{bare_names as names_of};
ghost use Rattle.ae_rules.specs.Forms as forms;
ghost use Rattle.ae_tree.specs.Shown.{definition};
ghost use Rattle.ae_rules.specs.Calls as spec;
ghost use Rattle.ae_rules.specs.Lookups as lookup;
ghost use Rattle.ae_judge.specs.Tabled.{code_of};
ghost use Rattle.ae_calls.specs.Callee.{callee_shown};
ghost use Rattle.ae_calls.specs.Param.{new_in, slot_of, object_slot_of};

use crate::callees::Callee;
use ae_judge::{Tabled, form_with, names_with, perm_with};
use ae_text::Items;
use ae_tree::{Form, Kind, Me, Method, Name, NameAt, Param, Perm};
use std::alloc::{AllocError, Global};

/// The groups of a method and of its class, and what stands for each of them in a call.
#[derive(Drop)]
pub struct GroupsIn {
    pub names: Items<Name>,
    pub groups: Items<Name>,
}

// Names, and behind them others without their places.
fn joined(alloc: Global, first: &[Name], second: &[NameAt]) -> Result<Items<Name>, AllocError>
    ensures { IfOk result (λ xs. xs ≡ first.now ++ names_of second.now) }
{
    let mut names = Items::from_slice(alloc, first)?;
    for item in second {
        names.push(item.name)?;
    }
    Ok(names)
}

/// What stands for the groups of the method that is called, and of its class, where these groups are given. Takes
/// memory for groups alone.
pub fn groups_in(alloc: Global, callee: &Callee, groups: &[NameAt]) -> Result<GroupsIn, AllocError>
    ensures { IfOk result (λ new. new_in new ≡ spec.group_in (callee_shown callee.now) groups.now) }
{
    let names = joined(
        alloc,
        callee.names.as_slice(),
        callee.method.groups.as_slice(),
    )?;
    let groups = joined(alloc, callee.groups.as_slice(), groups)?;
    Ok(GroupsIn { names, groups })
}

/// A parameter's form in a call, and whether what is given to it is gone.
#[derive(Drop)]
pub struct ParamSlot {
    pub form: Form,
    pub away: bool,
}

/// The slot of a parameter. Takes memory for groups alone.
pub fn param_slot(alloc: Global, new: &GroupsIn, param: &Param) -> Result<ParamSlot, AllocError>
    ensures { IfOk result (λ slot. slot_of slot ≡ spec.param_slot (new_in new.now) param.now) }
{
    let form = form_with(
        alloc,
        new.names.as_slice(),
        new.groups.as_slice(),
        &param.ty,
    )?;
    Ok(ParamSlot {
        form,
        away: param.away.is_some(),
    })
}

// The kind of the objects of the class with this number, with each group replaced.
fn own_kind(tabled: &Tabled, new: &GroupsIn, class: Option<u32>) -> Result<Kind, AllocError>
    ensures { IfOk result (λ k. k ≡ forms.kind_with (new_in new.now) (lookup.own_kind (code_of tabled.now) class)) }
{
    match class {
        Some(number) => match tabled.program.classes.get(number as usize) {
            Some(class) => {
                let names = new.names.as_slice();
                let own = names_with(
                    tabled.alloc,
                    names,
                    new.groups.as_slice(),
                    class.groups.as_slice(),
                )?;
                Ok(Kind::Class(class.name.name, own))
            }
            None => Ok(Kind::Ints),
        },
        None => Ok(Kind::Ints),
    }
}

/// The receiver's permission and kind in a call, and whether what is given to it is gone.
#[derive(Drop)]
pub struct MeSlot {
    pub perm: Perm,
    pub kind: Kind,
    pub away: bool,
}

/// The slot of the receiver, which is of its class's kind. Takes memory for groups alone.
pub fn me_slot(
    tabled: &Tabled,
    new: &GroupsIn,
    method: &Method,
    me: &Me,
) -> Result<MeSlot, AllocError>
    ensures { IfOk result (λ slot. object_slot_of slot
        ≡ spec.me_slot (code_of tabled.now) (new_in new.now) (definition method.now) me.now) }
{
    let kind = own_kind(tabled, new, method.class)?;
    Ok(MeSlot {
        perm: perm_with(new.names.as_slice(), new.groups.as_slice(), &me.perm),
        kind,
        away: me.away.is_some(),
    })
}
