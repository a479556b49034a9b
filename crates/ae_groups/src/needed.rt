// The groups of the needs of a call.
ghost use Rattle.std.specs.Prelude.{◌≡◌, IfOk};
ghost use Rattle.ae_rules.specs.Groups as group;

use ae_tree::{Name, Need};
use std::alloc::{AllocError, Global};
use std::collections::HashSet;

fn are_shared(one: Need, other: Need) -> bool
    ensures { result ≡ group.are_shared one other }
{
    match one {
        Need::Shared => match other {
            Need::Shared => true,
            Need::Exclusive | Need::Protected => false,
        },
        Need::Exclusive | Need::Protected => false,
    }
}

/// The groups of some needs, and those of them that are not needed shared.
#[derive(Drop)]
pub struct NeededGroups {
    all: HashSet<Name>,
    unshared: HashSet<Name>,
}

impl NeededGroups {
    ghost use Rattle.std.specs.Prelude.{◌≡◌, OnOk};
    ghost use Rattle.ae_groups.specs.Needed.{needed_of, no_needs, with_need, hits};

    /// No needs yet. Takes no memory.
    pub fn new(alloc: Global) -> NeededGroups
        ensures { needed_of result ≡ no_needs }
    {
        NeededGroups {
            all: HashSet::new(alloc),
            unshared: HashSet::new(alloc),
        }
    }

    /// One of the needs is of the same group, and not both are shared. Takes no memory.
    pub fn hits(&self, need: Need, g: Name) -> bool
        ensures { result ≡ hits (needed_of self.now) (need, g) }
    {
        if are_shared(need, need) {
            self.unshared.contains(&g)
        } else {
            self.all.contains(&g)
        }
    }

    /// One need more.
    pub fn add(&mut self, need: Need, g: Name) -> Result<(), AllocError>
        ensures { OnOk result (needed_of self.new ≡ with_need (need, g) (needed_of self.old)) }
    {
        self.all.insert(g)?;
        if !are_shared(need, need) {
            self.unshared.insert(g)?;
        }
        Ok(())
    }
}

// One group has two needs that are not both shared.
pub fn any_clash(alloc: Global, needs: &[(Need, Name)]) -> Result<bool, AllocError>
    ensures { IfOk result (λ b. b ≡ group.any_clash needs.now) }
{
    let mut earlier = NeededGroups::new(alloc);
    for need in needs {
        if earlier.hits(need.0, need.1) {
            return Ok(true);
        }
        earlier.add(need.0, need.1)?;
    }
    Ok(false)
}
