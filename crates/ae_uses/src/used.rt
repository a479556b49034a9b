// What was used so far.
use ae_rules::Held;
use ae_tree::Name;
use std::alloc::{AllocError, Global};

/// What was used so far: the locals that were read or written, and the groups that were used together with others or as
/// a whole. A name may stand in it more than once.
#[derive(Drop)]
pub struct Used {
    pub read: Vec<Name>,
    pub written: Vec<Name>,
    pub together: Vec<Name>,
    pub whole: Vec<Name>,
}

impl Used {
    ghost use Rattle.std.specs.Prelude.{◌≡◌, OnOk};
    ghost use Rattle.ae_rules.specs.declared.uses.Resource.{Resource};
    ghost use Rattle.ae_rules.specs.Uses.{nothing, read_use, write_use, together, whole_group, reach_use};
    ghost use Rattle.ae_uses.specs.Used.{Adds, used_as};

    /// Nothing was used. Takes no memory.
    pub fn new(alloc: Global) -> Used
        ensures { used_as result ≡ nothing }
    {
        Used {
            read: Vec::new(alloc),
            written: Vec::new(alloc),
            together: Vec::new(alloc),
            whole: Vec::new(alloc),
        }
    }

    /// A local is read.
    #[tactic(auto, using(crate::proofs::UsedLemmas::one_more))]
    pub fn reads(&mut self, name: Name) -> Result<(), AllocError>
        ensures { OnOk result (Adds self.old (read_use name) self.new) }
    {
        Ok(self.read.push(name)?)
    }

    /// A local is written.
    #[tactic(auto, using(crate::proofs::UsedLemmas::one_more))]
    pub fn writes(&mut self, name: Name) -> Result<(), AllocError>
        ensures { OnOk result (Adds self.old (write_use name) self.new) }
    {
        Ok(self.written.push(name)?)
    }

    /// A group is used together with others.
    #[tactic(auto, using(crate::proofs::UsedLemmas::one_more))]
    pub fn shares(&mut self, name: Name) -> Result<(), AllocError>
        ensures { OnOk result (Adds self.old (together name) self.new) }
    {
        Ok(self.together.push(name)?)
    }

    /// A group is used as a whole.
    #[tactic(auto, using(crate::proofs::UsedLemmas::one_more))]
    pub fn takes_whole(&mut self, name: Name) -> Result<(), AllocError>
        ensures { OnOk result (Adds self.old (whole_group name) self.new) }
    {
        Ok(self.whole.push(name)?)
    }

    /// An object of which this is held is reached: a member of a group with the whole group.
    #[tactic(auto, using(crate::proofs::UsedLemmas::one_more))]
    pub fn reaches(&mut self, held: Held) -> Result<(), AllocError>
        ensures { OnOk result (Adds self.old (reach_use held) self.new) }
    {
        match held {
            Held::Shared(name) | Held::Inner(name) => self.takes_whole(name),
            Held::Unique | Held::Split(_) | Held::Immutable | Held::Lent | Held::None => Ok(()),
        }
    }
}
