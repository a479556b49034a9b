// The blocks of a method, as far as their graphs go by them.
ghost use Rattle.std.specs.Prelude.{◌≡◌, ℕ, length, IfOk, Some};
ghost use Rattle.ae_tree.specs.Shown.{definition};
ghost use Rattle.ae_tree.specs.Limits.{Within};
ghost use Rattle.ae_tree.specs.WellShaped.{WellShaped};
ghost use Rattle.ae_rules.specs.Blocks.{scenes};
ghost use Rattle.ae_rules.specs.Judges.{Accepts};
ghost use Rattle.ae_rules.specs.Lookups.{method_at};
ghost use Rattle.ae_judge.specs.Tabled.{code_of};
ghost use Rattle.ae_scope.specs.Scope.{Empty};
ghost use Rattle.ae_graph.specs.Drawn.{AreDrawable};

use ae_bodies::method_uses;
use ae_code::Method;
use ae_judge::Tabled;
use ae_rules::names_are_of_the_program;
use ae_scope::Scope;
use ae_text::{Items, Memory};
use ae_uses::OpenedBlock;
use std::alloc::Global;

// A scope in which nothing is known, for this many names.
pub fn empty_scope(alloc: Global, names: usize) -> Result<Scope, Memory>
    ensures { IfOk result (Empty names) }
{
    match Scope::new(alloc, names) {
        Ok(scope) => Ok(scope),
        Err(_) => Err(Memory),
    }
}

// The blocks of a method that are not inside an atomic block, in the order in which they are opened. The scope is empty
// before, and after.
pub fn drawable_blocks(
    tabled: &Tabled,
    method: &Method,
    scope: &mut Scope,
) -> Result<Items<OpenedBlock>, Memory>
    requires accepted { Accepts (code_of tabled.now) }
    requires shaped { WellShaped (code_of tabled.now) }
    requires within { Within (code_of tabled.now) }
    requires method { (n : ℕ) × (method_at (code_of tabled.now) n ≡ Some (definition method.now)) }
    requires empty { Empty (length tabled.now.program.now.names) scope.old }
    ensures drawable { IfOk result (AreDrawable (code_of tabled.now)
        (scenes (code_of tabled.now) (definition method.now))) }
    ensures empty { IfOk result (λ blocks. Empty (length tabled.now.program.now.names) scope.new) }
{
    names_are_of_the_program();
    method_uses(tabled, method, scope)
}
