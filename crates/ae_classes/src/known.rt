// Which groups are known, and names that none before has.
ghost use Rattle.std.specs.Prelude.{◌≡◌};
ghost use Rattle.ae_rules.specs.Answers.{Leaves};
ghost use Rattle.ae_rules.specs.Lookups.{Names, has_name};
ghost use Rattle.ae_rules.specs.Table as spec;

use crate::answer::deny;
use ae_text::{Deny, Items, Rule};
use ae_tree::{Name, NameAt};

/// Where groups are known by their names: the groups of a declaration, or those of a scope.
pub trait KnownGroups {
    /// The names of the groups that are known.
    ghost known: { Self → Names };

    /// Whether a group with this name is known, `io` among them. Takes no memory.
    fn knows(&self, group: Name) -> bool
        ensures { result ≡ known self.now group };
}

impl KnownGroups for Items<Name> {
    ghost use Rattle.ae_rules.specs.Lookups.{has_name};

    ghost known = { has_name };

    fn knows(&self, group: Name) -> bool {
        self.as_slice().contains(&group)
    }
}

// A name that none of these is joins them.
pub fn is_new(rule: Rule, name: NameAt, earlier: &mut Items<Name>) -> Result<(), Deny>
    ensures { Leaves (spec.is_new rule name (has_name earlier.old)) (has_name earlier.new) result }
{
    if earlier.knows(name.name) {
        return Err(deny(rule, name.at));
    }
    earlier.push(name.name)?;
    Ok(())
}
