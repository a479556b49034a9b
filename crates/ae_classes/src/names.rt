// Maps by name, in which each name is once.
ghost use Rattle.std.specs.Prelude.{◌≡◌, nat_eq, None, OnOk, not};
ghost use Rattle.indexmap.specs.IndexMap.{get};
ghost use Rattle.ae_rules.specs.Verdict.{require};
ghost use Rattle.ae_rules.specs.Answers.{Answers, Leaves, done};
ghost use Rattle.ae_rules.specs.Table as spec;
ghost use Rattle.ae_classes.specs.Named.{named_in, AreSmall, HasOneMore};

use crate::answer::deny;
use ae_text::{Deny, Rule};
use ae_tree::{Name, NameAt};
use indexmap::IndexMap;
use std::alloc::AllocError;

// The map has no such name yet.
pub fn unless_named<V>(rule: Rule, name: NameAt, names: &IndexMap<Name, V>) -> Result<(), Deny>
    ensures { Answers (require (not (named_in names.now name.name)) rule name.at) done result }
{
    match names.get(&name.name) {
        Some(_) => Err(deny(rule, name.at)),
        None => Ok(()),
    }
}

// A name that the map does not have gets a value.
pub fn put<V: Copy>(names: &mut IndexMap<Name, V>, name: Name, value: V) -> Result<(), AllocError>
    requires { get nat_eq names.old name ≡ None }
    ensures put { OnOk result (HasOneMore name value names.old names.new) }
    ensures small { OnOk result (AreSmall names.old → AreSmall names.new) }
{
    names.insert(name, value)?;
    Ok(())
}

// A name that the map does not have yet gets a value.
pub fn put_new<V: Copy>(
    rule: Rule,
    name: NameAt,
    value: V,
    names: &mut IndexMap<Name, V>,
) -> Result<(), Deny>
    ensures answer { Leaves (spec.is_new rule name (named_in names.old)) (named_in names.new) result }
    ensures put { OnOk result (HasOneMore name.name value names.old names.new) }
{
    unless_named(rule, name, names)?;
    put(names, name.name, value)?;
    Ok(())
}
