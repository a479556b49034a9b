// What a method knows of groups at its start.
ghost use Rattle.std.specs.Prelude.{◌≡◌, length, All, MatchOption, IfSome, IfOk, OnOk};
ghost use Rattle.ae_tree.specs.Shown.{code, definition};
ghost use Rattle.ae_tree.specs.WellShaped.{ClassNamed};
ghost use Rattle.ae_rules.specs.Judges as spec;
ghost use Rattle.ae_rules.specs.Lookups as lookup;
ghost use Rattle.ae_groups.specs.Contexts.{needed};

use crate::context::GroupContext;
use ae_rules::GroupPerm;
use ae_text::Memory;
use ae_tree::{Class, GroupNeed, IO, Kind, Method, Name, NameAt, Need, Program};
use std::alloc::{AllocError, Global};

/// The permission of a group at the start of a method that needs it so.
pub fn permission_needed(need: Need) -> GroupPerm
    ensures { result ≡ spec.permission_needed need }
{
    match need {
        Need::Exclusive => GroupPerm::Exclusive,
        Need::Shared => GroupPerm::Shared,
        Need::Protected => GroupPerm::Protected,
    }
}

/// The permission of a known group at the start of a method with these needs.
pub fn permission_at_start(needs: &[GroupNeed], group: Name) -> GroupPerm
    ensures { result ≡ needed needs.now group }
{
    for need in needs {
        if need.group.name == group {
            return permission_needed(need.need);
        }
    }
    GroupPerm::None
}

// The class that a method stands in.
#[tactic(auto, using(ae_rules::proofs::BelowLemmas::found_has))]
fn own_class<'a>(p: &'a Program, method: &Method) -> Option<&'a Class>
    requires { All (ClassNamed (length p.now.names)) p.now.classes }
    ensures kind { MatchOption result (lookup.own_kind (code p.now) method.now.class ≡ Kind.Ints)
        (λ k. lookup.own_kind (code p.now) method.now.class ≡ lookup.kind_of_class k.now) }
    ensures named { IfSome result (λ k. ClassNamed (length p.now.names) k.now) }
{
    match method.class {
        Some(number) => match p.classes.get(number as usize) {
            Some(class) => Some(class),
            None => None,
        },
        None => None,
    }
}

impl GroupContext {
    ghost use Rattle.std.specs.Prelude.{◌≡◌, ◌<◌, length, All, IfOk, Some, option_map};
    ghost use Rattle.ae_tree.specs.Form.{bare_names};
    ghost use Rattle.ae_tree.specs.Names.{io};
    ghost use Rattle.ae_tree.specs.Shown.{code, definition};
    ghost use Rattle.ae_tree.specs.WellShaped.{AreNamed, ClassNamed, MethodNamed, WellShaped};
    ghost use Rattle.ae_rules.specs.Judges as spec;
    ghost use Rattle.ae_rules.specs.Lookups as lookup;
    ghost use Rattle.ae_groups.specs.Contexts.{known_groups, with_needed};

    // These groups are known, each with the permission of its need.
    fn know_all(&mut self, needs: &[GroupNeed], groups: &[NameAt])
        requires { AreNamed (length self.old.perms.items) groups.now }
        ensures groups { known_groups self.new ≡ with_needed needs.now (bare_names groups.now) (known_groups self.old) }
        ensures table { length self.new.perms.items ≡ length self.old.perms.items }
    {
        for group in groups {
            self.set(group.name, Some(permission_at_start(needs, group.name)));
        }
    }

    // The groups of a method's class are known.
    fn know_own(&mut self, p: &Program, method: &Method)
        requires classes { All (ClassNamed (length p.now.names)) p.now.classes }
        requires table { length self.old.perms.items ≡ length p.now.names }
        ensures groups { known_groups self.new ≡ with_needed method.now.needs
            (lookup.groups_of (lookup.own_kind (code p.now) method.now.class)) (known_groups self.old) }
        ensures table { length self.new.perms.items ≡ length self.old.perms.items }
    {
        match own_class(p, method) {
            Some(class) => self.know_all(method.needs.as_slice(), class.groups.as_slice()),
            None => {}
        }
    }

    /// What a method knows of groups at its start: those of its class, its own and `io`, each with the permission of its
    /// need.
    pub fn start(alloc: Global, p: &Program, method: &Method) -> Result<GroupContext, AllocError>
        requires named { MethodNamed (length p.now.names) (definition method.now) }
        requires classes { All (ClassNamed (length p.now.names)) p.now.classes }
        requires names { io < length p.now.names }
        ensures groups { IfOk result (λ c. known_groups c ≡ spec.groups_at_start (code p.now) (definition method.now)) }
        ensures table { IfOk result (λ c. length c.perms.items ≡ length p.now.names) }
    {
        let needs = method.needs.as_slice();
        let mut groups = GroupContext::new(alloc, p.names.len())?;
        groups.set(IO, Some(permission_at_start(needs, IO)));
        groups.know_own(p, method);
        groups.know_all(needs, method.groups.as_slice());
        Ok(groups)
    }

    /// What the method with this number knows of groups at its start.
    pub fn of(alloc: Global, p: &Program, method: u32) -> Result<GroupContext, Memory>
        requires within { method < length p.now.methods }
        requires shaped { WellShaped (code p.now) }
        ensures groups { IfOk result (λ c. option_map (λ m. (spec.start (code p.now) m).group)
            (lookup.method_at (code p.now) method) ≡ Some (known_groups c)) }
        ensures table { IfOk result (λ c. length c.perms.items ≡ length p.now.names) }
    {
        match GroupContext::start(alloc, p, &p.methods.as_slice()[method as usize]) {
            Ok(groups) => Ok(groups),
            Err(_) => Err(Memory),
        }
    }
}
