// For which earlier statements the uses of a statement wait.
ghost use Rattle.std.specs.Prelude.{◌≡◌, ◌++◌, ℕ, [], nat_eq, IfOk, OnOk, if◌then◌else◌};
ghost use Rattle.ae_rules.specs.declared.uses.Resource.{Resource};
ghost use Rattle.ae_rules.specs.Edges.{is_strong};
ghost use Rattle.ae_graph.specs.Rising.{IsRisingOf};
ghost use Rattle.ae_graph.specs.Opened.{kept, kept_of, added, is_same, after_uses, waited, waited_by};

use crate::rising::rising;
use ae_rules::{Mode, Resource, Use};
use ae_text::Items;
use ae_tree::Name;
use ae_uses::compatible;
use std::alloc::{AllocError, Global};
use std::collections::HashMap;

// A use of a resource by a statement.
#[derive(Clone, Copy, Debug, PartialEq, Eq)]
pub struct Past {
    pub stmt: u32,
    pub mode: Mode,
}

// For each resource the uses for which a later one may wait: the last one that shuts out every other, and those after it.
#[derive(Drop)]
pub struct OpenUses {
    pub locals: HashMap<Name, Items<Past>>,
    pub groups: HashMap<Name, Items<Past>>,
}

// Whether a use in this mode shuts out every other.
fn shuts_out(mode: Mode) -> bool
    ensures { result ≡ is_strong mode }
{
    matches!(mode, Mode::Write | Mode::GroupWhole)
}

fn with_past(alloc: Global, past: Items<Past>, one: Past) -> Result<Items<Past>, AllocError>
    ensures { IfOk result (λ ps. ps ≡ added past one) }
{
    let mut past = if shuts_out(one.mode) {
        Items::new(alloc)
    } else {
        past
    };
    past.push(one)?;
    Ok(past)
}

// One more use of a name.
fn put_name(
    alloc: Global,
    names: &mut HashMap<Name, Items<Past>>,
    name: Name,
    one: Past,
) -> Result<(), AllocError>
    ensures { OnOk result ((y : ℕ)
        → kept names.new y ≡ (if nat_eq name y then added (kept names.old y) one else kept names.old y)) }
{
    let past = match names.remove(&name) {
        Some(past) => past,
        None => Items::new(alloc),
    };
    names.insert(name, with_past(alloc, past, one)?)?;
    Ok(())
}

// The statements for which a use in this mode waits are put behind those that are there.
fn put_waits(past: &[Past], mode: Mode, waits: &mut Vec<u32>) -> Result<(), AllocError>
    ensures { OnOk result (waits.new.items ≡ waits.old.items ++ waited mode past.now) }
{
    for one in past {
        if !compatible(one.mode, mode) {
            waits.push(one.stmt)?;
        }
    }
    Ok(())
}

impl OpenUses {
    // Nothing was used.
    pub fn new(alloc: Global) -> OpenUses
        ensures { (r : Resource) → kept_of result r ≡ [] }
    {
        OpenUses {
            locals: HashMap::new(alloc),
            groups: HashMap::new(alloc),
        }
    }

    fn of(&self, what: Resource) -> &[Past]
        ensures { result.now ≡ kept_of self.now what }
    {
        let past = match what {
            Resource::Local(name) => self.locals.get(&name),
            Resource::Group(name) => self.groups.get(&name),
        };
        match past {
            Some(past) => past.as_slice(),
            None => &[],
        }
    }

    // For which statements these uses wait, in rising order.
    pub fn waits(&self, alloc: Global, uses: &[Use]) -> Result<Items<u32>, AllocError>
        ensures { IfOk result (IsRisingOf (waited_by (kept_of self.now) uses.now)) }
    {
        let mut waits = Vec::new(alloc);
        for one in uses {
            put_waits(self.of(one.what), one.mode, &mut waits)?;
        }
        Ok(rising(waits))
    }

    fn put(&mut self, alloc: Global, what: Resource, one: Past) -> Result<(), AllocError>
        ensures { OnOk result ((r : Resource)
            → kept_of self.new r ≡ (if is_same what r then added (kept_of self.old r) one else kept_of self.old r)) }
    {
        match what {
            Resource::Local(name) => put_name(alloc, &mut self.locals, name, one),
            Resource::Group(name) => put_name(alloc, &mut self.groups, name, one),
        }
    }

    // The uses of one more statement.
    pub fn put_all(&mut self, alloc: Global, stmt: u32, uses: &[Use]) -> Result<(), AllocError>
        ensures { OnOk result ((r : Resource) → kept_of self.new r ≡ after_uses stmt r (kept_of self.old r) uses.now) }
    {
        for one in uses {
            let past = Past {
                stmt,
                mode: one.mode,
            };
            self.put(alloc, one.what, past)?;
        }
        Ok(())
    }
}
