// The groups that a method needs are lent by its caller.
ghost use Rattle.std.specs.Prelude.{◌≡◌, ◌++◌, [], ◌∷◌, None, Some, true, false, IfSome, OnOk, IfOk, if◌then◌else◌};
ghost use Rattle.std.specs.Option.{option_copied};
ghost use Rattle.std.specs.List.{cons_option};
ghost use Rattle.ae_rules.specs.Verdict.{given};
ghost use Rattle.ae_semantics.specs.Places.{with};
ghost use Rattle.ae_values.specs.declared.env.Bound.TheVariants as bound;
ghost use Rattle.ae_values.specs.Environments.{bound_under, group_bound, running_binds, waiting_binds};
ghost use Rattle.ae_values.specs.Shapes.{shapes};
ghost use Rattle.ae_reads.specs.Answers.{one_name};
ghost use Rattle.ae_frames.specs.Bounds.{is_lendable};
ghost use Rattle.ae_frames.specs.Granting as spec;
ghost use Rattle.ae_frames.specs.Granting.{groups_seen, holder_by, got, got_after, named_so, all_got, all_lent};
ghost use Rattle.ae_frames.specs.Granting.{lent_from};
ghost use Rattle.ae_frames.specs.Granting.{with_placeholders};
ghost use Rattle.ae_frames.specs.Shown.{lents_of, got_of, IsThere};

use crate::granted::{Granted, Lent};
use ae_calls::GroupsIn;
use ae_judge::in_place;
use ae_text::Memory;
use ae_tree::{GroupNeed, Name};
use ae_values::{Bound, Env, Image};
use std::alloc::Global;

/// What there is under a name that may have a group.
#[derive(Clone, Copy)]
pub enum There {
    Nothing,
    Other(Name),
    Itself,
}

// What there is under a name.
fn what_there(bound: Option<&Bound>) -> There
    ensures { IsThere (option_copied bound.entry) result }
{
    match bound {
        Some(Bound::Whole(Image::Store(_))) => There::Itself,
        Some(Bound::Whole(Image::Log(_))) => There::Nothing,
        Some(Bound::Cell(_)) => There::Itself,
        Some(Bound::Other(name)) => There::Other(*name),
        Some(Bound::Value(..)) => There::Nothing,
        Some(Bound::Moved(_)) => There::Nothing,
        Some(Bound::Pieces(_)) => There::Nothing,
        None => There::Nothing,
    }
}

// The caller's name under which what there is of a group of the method stands.
fn holder(env: &Env, new: &GroupsIn, group: Name) -> Name
    ensures { result ≡ holder_by (groups_seen env.now) new.now group }
{
    let name = in_place(new.names.as_slice(), new.groups.as_slice(), group);
    match what_there(env.get(name)) {
        There::Other(other) => other,
        There::Nothing => name,
        There::Itself => name,
    }
}

// The first of these needs that is for the group that the caller has under this name.
fn first_need(env: &Env, new: &GroupsIn, needs: &[GroupNeed], name: Name) -> Option<Name>
    ensures { result ≡ spec.first_need (holder_by (groups_seen env.now) new.now) needs.now name }
{
    for need in needs {
        if holder(env, new, need.group.name) == name {
            return Some(need.group.name);
        }
    }
    None
}

// What a method gets of the group that the caller has under this name: the group, for which a placeholder stays, or its
// other name, or where an earlier need has the group the name of that one. There is none exactly where there is nothing
// of the group.
fn lend_one(env: &mut Env, name: Name, first: Option<Name>) -> Option<Bound>
    ensures got { given result None (group_bound one_name) ≡ got_after first (groups_seen env.old name) }
    ensures lendable { IfSome result (λ b. is_lendable b ≡ true) }
    ensures bound { bound_under env.new ≡ (if spec.is_lent (got_after first (groups_seen env.old name))
        then with name (Some (bound.Cell 0)) (bound_under env.old) else bound_under env.old) }
    ensures waiting { waiting_binds env.new ≡ waiting_binds env.old }
    ensures shapes { shapes (running_binds env.new) ≡ shapes (running_binds env.old) }
{
    match what_there(env.get(name)) {
        There::Nothing => None,
        There::Other(other) => match first {
            Some(need) => Some(Bound::Other(need)),
            None => Some(Bound::Other(other)),
        },
        There::Itself => match first {
            Some(need) => Some(Bound::Other(need)),
            None => env.replace(name, Bound::Cell(0)),
        },
    }
}

// Notes that a group was lent from this name, where it is the group itself.
fn note_lent(lent: &mut Vec<Lent>, bound: &Bound, group: Name, holder: Name) -> Result<(), Memory>
    requires { is_lendable bound.now ≡ true }
    ensures { OnOk result (lents_of lent.new.items ≡ lents_of lent.old.items
        ++ cons_option (lent_from holder group (group_bound one_name bound.now)) []) }
{
    match what_there(Some(bound)) {
        There::Itself => match lent.push(Lent { group, holder }) {
            Ok(()) => Ok(()),
            Err(_) => Err(Memory),
        },
        There::Other(_) => Ok(()),
        There::Nothing => Ok(()),
    }
}

/// What a method gets of the groups that it needs, and the groups that were lent for it.
#[derive(Drop)]
pub struct Lending {
    pub granted: Vec<Granted>,
    pub lent: Vec<Lent>,
}

impl Lending {
    // Nothing yet.
    fn new(alloc: Global) -> Lending
        ensures granted { result.granted.items ≡ [] }
        ensures lent { result.lent.items ≡ [] }
    {
        Lending {
            granted: Vec::new(alloc),
            lent: Vec::new(alloc),
        }
    }

    // One more group is got, under this name, from the caller's name `holder`.
    fn add(&mut self, group: Name, holder: Name, bound: Bound) -> Result<(), Memory>
        requires { is_lendable bound ≡ true }
        ensures got { OnOk result (got_of self.new.granted.items ≡ got_of self.old.granted.items
            ++ cons_option (named_so group (group_bound one_name bound)) []) }
        ensures lent { OnOk result (lents_of self.new.lent.items ≡ lents_of self.old.lent.items
            ++ cons_option (lent_from holder group (group_bound one_name bound)) []) }
    {
        match note_lent(&mut self.lent, &bound, group, holder) {
            Ok(()) => {}
            Err(memory) => return Err(memory),
        }
        match self.granted.push(Granted { group, bound }) {
            Ok(()) => Ok(()),
            Err(_) => Err(Memory),
        }
    }
}

// What is got for a need of this group after earlier ones goes behind what there is.
fn lend_for(
    env: &mut Env,
    new: &GroupsIn,
    earlier: &[GroupNeed],
    group: Name,
    lending: &mut Lending,
) -> Result<(), Memory>
    ensures got { OnOk result (got_of lending.new.granted.items ≡ got_of lending.old.granted.items ++ cons_option
        (named_so group (got (holder_by (groups_seen env.old) new.now) (groups_seen env.old) earlier.now group)) []) }
    ensures lent { OnOk result (lents_of lending.new.lent.items ≡ lents_of lending.old.lent.items ++ cons_option
        (lent_from (holder_by (groups_seen env.old) new.now group) group
        (got (holder_by (groups_seen env.old) new.now) (groups_seen env.old) earlier.now group)) []) }
    ensures bound { bound_under env.new ≡ with_placeholders (cons_option
        (lent_from (holder_by (groups_seen env.old) new.now group) group
        (got (holder_by (groups_seen env.old) new.now) (groups_seen env.old) earlier.now group)) [])
        (bound_under env.old) }
    ensures waiting { waiting_binds env.new ≡ waiting_binds env.old }
    ensures shapes { shapes (running_binds env.new) ≡ shapes (running_binds env.old) }
{
    let name = holder(env, new, group);
    let first = first_need(env, new, earlier, name);
    match lend_one(env, name, first) {
        Some(bound) => lending.add(group, name, bound),
        None => Ok(()),
    }
}

/// The groups that a method needs, as the caller has them, under the names of the needs: the caller keeps placeholders
/// of the same shape for the groups that are lent. What a second need of one group gets is the name of the first. Takes
/// memory for the answer; after a refusal some groups may be lost.
pub(crate) fn lend(
    alloc: Global,
    env: &mut Env,
    new: &GroupsIn,
    needs: &[GroupNeed],
) -> Result<Lending, Memory>
    ensures got { IfOk result (λ l. got_of l.granted.items
        ≡ all_got (holder_by (groups_seen env.old) new.now) (groups_seen env.old) [] needs.now) }
    ensures lent { IfOk result (λ l. lents_of l.lent.items
        ≡ all_lent (holder_by (groups_seen env.old) new.now) (groups_seen env.old) [] needs.now) }
    ensures bound { IfOk result (λ l. bound_under env.new ≡ with_placeholders (lents_of l.lent.items) (bound_under
        env.old)) }
    ensures waiting { waiting_binds env.new ≡ waiting_binds env.old }
    ensures shapes { shapes (running_binds env.new) ≡ shapes (running_binds env.old) }
{
    let mut lending = Lending::new(alloc);
    for at in 0..needs.len() {
        match lend_for(env, new, &needs[..at], needs[at].group.name, &mut lending) {
            Ok(()) => {}
            Err(memory) => return Err(memory),
        }
    }
    Ok(lending)
}
