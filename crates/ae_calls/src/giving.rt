// The arguments of a call, each given to its slot.
ghost use Rattle.std.specs.Prelude.{◌≡◌, ◌++◌, List, length, map, zip, filter_map, if◌then◌else◌, None, Some, OnOk};
ghost use Rattle.std.specs.List.{cons_option};
ghost use Rattle.ae_tree.specs.Shown.{expression};
ghost use Rattle.ae_tree.specs.Plain.{Read};
ghost use Rattle.ae_rules.specs.Answers.{Answers, Leaves, done};
ghost use Rattle.ae_rules.specs.Verdict.{in_turn};
ghost use Rattle.ae_rules.specs.Calls as spec;
ghost use Rattle.ae_rules.specs.Effects.{gone_name};
ghost use Rattle.ae_scope.specs.Scope.{context_of};
ghost use Rattle.ae_judge.specs.Tabled.{code_of};
ghost use Rattle.ae_calls.specs.Roots.{roots_of};

use crate::params::{GroupsIn, MeSlot, ParamSlot, param_slot};
use crate::roots::Roots;
use ae_judge::{
    Scalar, Source, Tabled, deny, expression_spot, into_immutable, into_shared, is_name,
    is_object_of, is_same_perm, is_value, may_leave, moves, name_into, source_in, walk,
};
use ae_rules::Held;
use ae_scope::Scope;
use ae_text::{Deny, Rule, Spot};
use ae_tree::{Expr, Form, Kind, Name, Param, Path, Perm};
use std::alloc::{AllocError, Global};

// What a unique parameter is given is held Unique; where it does not come back, it is a name without steps.
fn to_unique(away: bool, named: bool, held: Held, at: Spot) -> Result<(), Deny>
    ensures { Answers (spec.to_unique away named held at) done result }
{
    match held {
        Held::None => Err(deny(Rule::NoPermission, at)),
        Held::Unique => {
            if !away || named {
                Ok(())
            } else {
                Err(deny(Rule::NeedsUnique, at))
            }
        }
        Held::Split(_) | Held::Immutable | Held::Lent | Held::Shared(_) | Held::Inner(_) => {
            Err(deny(Rule::NeedsUnique, at))
        }
    }
}

fn may_be_lent(held: Held) -> bool
    ensures { result ≡ spec.may_be_lent held }
{
    match held {
        Held::Unique | Held::Immutable | Held::Lent => true,
        Held::Split(_) | Held::Shared(_) | Held::Inner(_) | Held::None => false,
    }
}

// What is held may be given to a parameter with this permission.
fn to_param(perm: Perm, away: bool, named: bool, held: Held, at: Spot) -> Result<(), Deny>
    ensures { Answers (spec.to_param perm away named held at) done result }
{
    match perm {
        Perm::Unique => to_unique(away, named, held, at),
        Perm::Lent => {
            if may_be_lent(held) {
                Ok(())
            } else {
                Err(deny(Rule::NoPermission, at))
            }
        }
        Perm::Immutable => {
            may_leave(held, at)?;
            into_immutable(held, at)
        }
        Perm::Shared(group) => {
            may_leave(held, at)?;
            into_shared(group, held, at)
        }
    }
}

/// What an object's slot asks for, and whether what is given to it is gone.
#[derive(Clone, Copy)]
pub struct ObjectSlot<'a> {
    pub perm: Perm,
    pub kind: &'a Kind,
    pub away: bool,
}

// A path to a slot: its kind, then its root, then its permission.
fn path_to_param(
    tabled: &Tabled,
    scope: &Scope,
    slot: ObjectSlot,
    path: &Path,
    at: Spot,
    roots: &mut Roots,
) -> Result<(), Deny>
    ensures { Leaves (spec.path_to_param (code_of tabled.now) (context_of scope.now) slot.entry.perm slot.entry.kind.now
        slot.entry.away path.now at (roots_of roots.old)) (roots_of roots.new) result }
{
    let held = {
        let place = walk(tabled, scope, path)?;
        if !is_object_of(slot.kind, &place.form) {
            return Err(deny(Rule::TypeMismatch, at));
        }
        place.held
    };
    match roots.root_apart(is_same_perm(Perm::Unique, slot.perm), path, at) {
        Ok(()) => {}
        Err(fail) => return Err(fail),
    }
    to_param(slot.perm, slot.away, is_name(path), held, at)?;
    Ok(())
}

// An argument against a form, in the context before the statement.
fn to_form(
    tabled: &Tabled,
    scope: &Scope,
    slot: &ParamSlot,
    expr: &Expr,
    roots: &mut Roots,
) -> Result<(), Deny>
    ensures { Leaves (spec.to_form (code_of tabled.now) (context_of scope.now) slot.now.form slot.now.away
        (expression expr.now) (roots_of roots.old)) (roots_of roots.new) result }
{
    match &slot.form {
        Form::Int => {
            is_value(tabled, scope, Scalar::Int, expr)?;
            Ok(())
        }
        Form::Bool => {
            is_value(tabled, scope, Scalar::Bool, expr)?;
            Ok(())
        }
        Form::Object(perm, kind) => match source_in(expr) {
            Some(found) => match found {
                Source::Null => Ok(()),
                Source::From(path) => {
                    let object = ObjectSlot {
                        perm: *perm,
                        kind,
                        away: slot.away,
                    };
                    path_to_param(tabled, scope, object, path, expression_spot(expr), roots)?;
                    Ok(())
                }
            },
            None => Err(deny(Rule::TypeMismatch, expression_spot(expr))),
        },
    }
}

/// The arguments of a call so far: their roots, and the names that are given away for good.
#[derive(Drop)]
pub struct Given {
    pub roots: Roots,
    pub gone: Vec<Name>,
}

impl Given {
    ghost use Rattle.std.specs.Prelude.{[], ℕ};
    ghost use Rattle.ae_calls.specs.Param.{new_in, slot_of, object_slot_of};

    /// No arguments yet. Takes no memory.
    pub fn new(alloc: Global) -> Given
        ensures roots { roots_of result.roots ≡ spec.no_roots }
        ensures gone { result.gone.items ≡ [] }
    {
        Given {
            roots: Roots::new(alloc),
            gone: Vec::new(alloc),
        }
    }

    // The name that goes for good where its slot is one for good, behind those before.
    #[tactic(auto, using(crate::proofs::GivenLemmas::one_more_goes))]
    fn goes(&mut self, away: bool, name: Option<Name>) -> Result<(), AllocError>
        ensures gone { OnOk result ((rest : List ℕ)
            → self.new.gone.items ++ rest ≡ self.old.gone.items ++ cons_option (if away then name else None) rest) }
        ensures roots { OnOk result (roots_of self.new.roots ≡ roots_of self.old.roots) }
    {
        if !away {
            return Ok(());
        }
        match name {
            Some(name) => {
                self.gone.push(name)?;
                Ok(())
            }
            None => Ok(()),
        }
    }

    /// The receiver, in the context before the statement.
    pub fn receive(
        &mut self,
        tabled: &Tabled,
        scope: &Scope,
        slot: &MeSlot,
        path: &Path,
    ) -> Result<(), Deny>
        ensures answer { Leaves (spec.to_slot (code_of tabled.now) (context_of scope.now)
            (object_slot_of slot.now, Read path.now) (roots_of self.old.roots)) (roots_of self.new.roots) result }
        ensures gone { OnOk result ((rest : List ℕ) → self.new.gone.items ++ rest
            ≡ self.old.gone.items ++ cons_option (gone_name (object_slot_of slot.now, Read path.now)) rest) }
    {
        let object = ObjectSlot {
            perm: slot.perm,
            kind: &slot.kind,
            away: slot.away,
        };
        path_to_param(tabled, scope, object, path, path.root.at, &mut self.roots)?;
        self.goes(slot.away, moves(slot.perm, path))?;
        Ok(())
    }

    /// One more argument, in the context before the statement.
    pub fn give(
        &mut self,
        tabled: &Tabled,
        scope: &Scope,
        slot: &ParamSlot,
        expr: &Expr,
    ) -> Result<(), Deny>
        ensures answer { Leaves (spec.to_slot (code_of tabled.now) (context_of scope.now)
            (slot_of slot.now, expression expr.now) (roots_of self.old.roots)) (roots_of self.new.roots) result }
        ensures gone { OnOk result ((rest : List ℕ) → self.new.gone.items ++ rest
            ≡ self.old.gone.items ++ cons_option (gone_name (slot_of slot.now, expression expr.now)) rest) }
    {
        to_form(tabled, scope, slot, expr, &mut self.roots)?;
        self.goes(slot.away, name_into(&slot.form, expr))?;
        Ok(())
    }

    /// As many arguments as a method has parameters, each to its slot.
    pub fn give_all(
        &mut self,
        tabled: &Tabled,
        scope: &Scope,
        new: &GroupsIn,
        params: &[Param],
        args: &[Expr],
    ) -> Result<(), Deny>
        requires { length args.now ≡ length params.now }
        ensures answer { Leaves (in_turn (spec.to_slot (code_of tabled.now) (context_of scope.now))
            (zip (map (spec.param_slot (new_in new.now)) params.now) (map expression args.now))
            (roots_of self.old.roots)) (roots_of self.new.roots) result }
        ensures gone { OnOk result (self.new.gone.items ≡ self.old.gone.items ++ filter_map gone_name
            (zip (map (spec.param_slot (new_in new.now)) params.now) (map expression args.now))) }
    {
        for i in 0..args.len() {
            let slot = param_slot(tabled.alloc, new, &params[i])?;
            self.give(tabled, scope, &slot, &args[i])?;
        }
        Ok(())
    }
}
