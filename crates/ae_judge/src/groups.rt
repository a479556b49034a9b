// Groups that are named, and types that are formed, where a scope tells which groups are known.
ghost use Rattle.std.specs.Prelude.{false};
ghost use Rattle.ae_rules.specs.Answers.{Answers, done};
ghost use Rattle.ae_rules.specs.Groups.{known};
ghost use Rattle.ae_rules.specs.Types as spec;
ghost use Rattle.ae_scope.specs.Scope.{context_of};
ghost use Rattle.ae_judge.specs.Tabled.{code_of};

use crate::tabled::Tabled;
use ae_classes::KnownGroups;
use ae_scope::Scope;
use ae_text::{Deny, Spot};
use ae_tree::{Name, NameAt, Ty};

// The groups that a scope knows.
#[derive(Clone, Copy)]
struct ScopeGroups<'a> {
    scope: &'a Scope,
}

impl<'a> KnownGroups for ScopeGroups<'a> {
    ghost use Rattle.ae_rules.specs.Groups.{known as known_in};
    ghost use Rattle.ae_scope.specs.Scope.{context_of};

    ghost known = { λ s. known_in (context_of s.scope.now).group };

    fn knows(&self, group: Name) -> bool {
        self.scope.knows(group)
    }
}

/// A group that is known, and is not `io`; else this is refused. Takes no memory.
pub fn is_group(scope: &Scope, group: NameAt) -> Result<(), Deny>
    ensures { Answers (spec.is_group (known (context_of scope.now).group) group) done result }
{
    ae_classes::is_group(&ScopeGroups { scope }, group)
}

/// As many groups as are wanted, or else refused at this place; and each is known, but for `io`. Takes no memory.
pub fn groups_fit(scope: &Scope, wanted: usize, at: Spot, groups: &[NameAt]) -> Result<(), Deny>
    ensures { Answers (spec.groups_fit (known (context_of scope.now).group) wanted at groups.now) done result }
{
    ae_classes::groups_fit(&ScopeGroups { scope }, wanted, at, groups)
}

/// A type of a local: refused where it is lent, where its class is not declared, and where its groups are not known or
/// not as many as the class has. Takes no memory.
pub fn forms_type(tabled: &Tabled, scope: &Scope, ty: &Ty) -> Result<(), Deny>
    ensures { Answers (spec.forms_type (code_of tabled.now) (known (context_of scope.now).group) false ty.now)
        done result }
{
    ae_classes::forms_type(
        tabled.program,
        &tabled.table.classes,
        &ScopeGroups { scope },
        false,
        ty,
    )
}
