// What was used, each resource once and in order.
ghost use Rattle.std.specs.Prelude.{◌≡◌, ◌++◌, ◌↔◌, ℕ, Contains, map, nat_eq, IfOk, OnOk};
ghost use Rattle.std.specs.HashSet.{contains};
ghost use Rattle.ae_rules.specs.Edges.{IsRising};
ghost use Rattle.ae_rules.specs.Lookups.{has_name};
ghost use Rattle.ae_uses.specs.Joined.{AreJoined, local_as, group_as};

use crate::used::Used;
use ae_rules::{Footprint, Mode, Resource, Use};
use ae_text::Items;
use ae_tree::Name;
use std::alloc::{AllocError, Global};
use std::collections::HashSet;

// Each name once and in rising order.
fn each_once(names: &mut Vec<Name>)
    ensures in_order { IsRising names.new.items }
    ensures same { (x : ℕ) → Contains names.new.items x ↔ Contains names.old.items x }
{
    names.sort_unstable();
    names.dedup();
}

// The names of both lists, each once and in rising order.
fn joined(alloc: Global, first: &[Name], second: &[Name]) -> Result<Vec<Name>, AllocError>
    ensures { IfOk result (λ v. AreJoined first.now second.now v.items) }
{
    let mut names = Vec::new(alloc);
    names.extend_from_slice(first)?;
    names.extend_from_slice(second)?;
    each_once(&mut names);
    Ok(names)
}

// The names as a set.
fn set_of(alloc: Global, names: &[Name]) -> Result<HashSet<Name>, AllocError>
    ensures { IfOk result (λ set. (x : ℕ) → contains nat_eq set x ≡ has_name names.now x) }
{
    let mut set = HashSet::new(alloc);
    for name in names {
        set.insert(*name)?;
    }
    Ok(set)
}

// The uses of these locals: those of the set are written, and the others are read.
fn put_locals(
    uses: &mut Items<Use>,
    names: &[Name],
    written: &HashSet<Name>,
) -> Result<(), AllocError>
    ensures { OnOk result (uses.new ≡ uses.old ++ map (local_as (contains nat_eq written.now)) names.now) }
{
    for name in names {
        let mode = if written.contains(name) {
            Mode::Write
        } else {
            Mode::Read
        };
        uses.push(Use {
            what: Resource::Local(*name),
            mode,
        })?;
    }
    Ok(())
}

// The uses of these groups: those of the set as a whole, and the others together with others.
fn put_groups(
    uses: &mut Items<Use>,
    names: &[Name],
    whole: &HashSet<Name>,
) -> Result<(), AllocError>
    ensures { OnOk result (uses.new ≡ uses.old ++ map (group_as (contains nat_eq whole.now)) names.now) }
{
    for name in names {
        let mode = if whole.contains(name) {
            Mode::GroupWhole
        } else {
            Mode::GroupShared
        };
        uses.push(Use {
            what: Resource::Group(*name),
            mode,
        })?;
    }
    Ok(())
}

impl Used {
    ghost use Rattle.std.specs.Prelude.{◌≡◌, IfOk};
    ghost use Rattle.ae_rules.specs.declared.uses.Resource.{Resource};
    ghost use Rattle.ae_uses.specs.Footprint.{IsFootprintOf};
    ghost use Rattle.ae_uses.specs.Used.{IsCompact, used_as};

    /// Each name once in its list; what was used stays the same. So what is handed on to the blocks around a statement
    /// costs what the statement uses, and not how often. Takes no memory, and costs n log n.
    pub fn compact(&mut self)
        ensures same { (r : Resource) → used_as self.new r ≡ used_as self.old r }
        ensures once { IsCompact self.new }
    {
        each_once(&mut self.read);
        each_once(&mut self.written);
        each_once(&mut self.together);
        each_once(&mut self.whole);
    }

    /// What was used, each resource once: locals first and then groups, each by number. Costs n log n.
    pub fn footprint(&self, alloc: Global) -> Result<Footprint, AllocError>
        ensures { IfOk result (λ f. IsFootprintOf (used_as self.now) f.uses) }
    {
        let written = set_of(alloc, &self.written)?;
        let whole = set_of(alloc, &self.whole)?;
        let locals = joined(alloc, &self.read, &self.written)?;
        let groups = joined(alloc, &self.together, &self.whole)?;
        let mut uses = Items::new(alloc);
        put_locals(&mut uses, &locals, &written)?;
        put_groups(&mut uses, &groups, &whole)?;
        Ok(Footprint { uses })
    }
}
