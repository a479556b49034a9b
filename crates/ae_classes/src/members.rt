// The second clause: the fields and methods of a class have names of their own.
ghost use Rattle.std.specs.Prelude.{◌≡◌, ◌∷◌, [], ℕ, nat_eq, length, None, OnOk, IfOk};
ghost use Rattle.std.specs.Option.{option_or};
ghost use Rattle.indexmap.specs.IndexMap.{get, keys, IsUnique};
ghost use Rattle.ae_tree.specs.Shown.{code};
ghost use Rattle.ae_text.specs.declared.refusal.Rule.TheVariants as rule;
ghost use Rattle.ae_rules.specs.Verdict.{in_turn, each};
ghost use Rattle.ae_rules.specs.Answers.{Answers, Leaves};
ghost use Rattle.ae_rules.specs.Table as spec;
ghost use Rattle.ae_classes.specs.Named.{named_in, AreSmall};
ghost use Rattle.ae_classes.specs.Classes.{GivesMembers, GivesAllMembers, field_names, field_among};
ghost use Rattle.ae_classes.specs.Classes.{method_names, method_among, passed};

use crate::lookups::method_at;
use crate::names::{put, put_new, unless_named};
use ae_rules::Member;
use ae_text::{Deny, Items, Rule};
use ae_tree::{Class, Field, Name, Program};
use indexmap::IndexMap;
use std::alloc::Global;

// The place of a field as a number of 32 bits: names are such numbers, and those before it are all different from each
// other and from its own.
fn field_number(place: usize, name: Name, members: &IndexMap<Name, Member>) -> u32
    requires count { length (keys members.now) ≡ place }
    requires new { get nat_eq members.now name ≡ None }
    requires small { AreSmall members.now }
    requires unique { IsUnique nat_eq members.now }
    ensures { result ≡ place }
{
    place as u32
}

// The fields of a class by name.
fn fields_by_name(alloc: Global, fields: &[Field]) -> Result<IndexMap<Name, Member>, Deny>
    ensures answer { Answers (in_turn (spec.is_new rule.DuplicateMember)
        (field_names fields.now) spec.no_names) named_in result }
    ensures gives { IfOk result (λ m. (x : ℕ) → get nat_eq m x ≡ field_among fields.now x) }
{
    let mut members = IndexMap::new(alloc);
    for (place, field) in fields.iter().enumerate() {
        let name = field.name;
        unless_named(Rule::DuplicateMember, name, &members)?;
        let number = field_number(place, name.name, &members);
        put(&mut members, name.name, Member::Field(number))?;
    }
    Ok(members)
}

// The method with this number has a name of its own, and is there by it then.
fn put_method(
    program: &Program,
    number: u32,
    members: &mut IndexMap<Name, Member>,
) -> Result<(), Deny>
    ensures answer { Leaves (in_turn (spec.is_new rule.DuplicateMember)
        (method_names (code program.now) (number ∷ [])) (named_in members.old)) (named_in members.new) result }
    ensures gives { OnOk result ((x : ℕ) → get nat_eq members.new x
        ≡ option_or (get nat_eq members.old x) (method_among (code program.now) (number ∷ []) x)) }
{
    match method_at(program, number) {
        Some(method) => put_new(
            Rule::DuplicateMember,
            method.name,
            Member::Method(number),
            members,
        ),
        None => Ok(()),
    }
}

// The methods of a class join its fields.
fn put_methods(
    program: &Program,
    numbers: &[u32],
    members: &mut IndexMap<Name, Member>,
) -> Result<(), Deny>
    ensures answer { Leaves (in_turn (spec.is_new rule.DuplicateMember)
        (method_names (code program.now) numbers.now) (named_in members.old)) (named_in members.new) result }
    ensures gives { OnOk result ((x : ℕ) → get nat_eq members.new x
        ≡ option_or (get nat_eq members.old x) (method_among (code program.now) numbers.now x)) }
{
    for number in numbers {
        put_method(program, *number, members)?;
    }
    Ok(())
}

// The members of a class by name, where each has a name of its own.
fn members_of(
    alloc: Global,
    program: &Program,
    class: &Class,
) -> Result<IndexMap<Name, Member>, Deny>
    ensures answer { Answers (spec.members_differ (code program.now) class.now) passed result }
    ensures gives { IfOk result (λ m. GivesMembers m (code program.now) class.now) }
{
    let mut members = fields_by_name(alloc, class.fields.as_slice())?;
    put_methods(program, class.methods.as_slice(), &mut members)?;
    Ok(members)
}

// For each class its members by name, where in each class each has a name of its own.
pub fn members_differ(
    alloc: Global,
    program: &Program,
) -> Result<Items<IndexMap<Name, Member>>, Deny>
    ensures answer { Answers (each (spec.members_differ (code program.now)) program.now.classes) passed result }
    ensures gives { IfOk result (λ ms. GivesAllMembers ms (code program.now)) }
{
    let mut members = Items::new(alloc);
    for class in program.classes.as_slice() {
        members.push(members_of(alloc, program, class)?)?;
    }
    Ok(members)
}
