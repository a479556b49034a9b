// What the statements of a method use, block by block.
ghost use Rattle.std.specs.Prelude.{◌≡◌, ℕ, length, IfOk, OnOk, Some};
ghost use Rattle.ae_tree.specs.Shown.{code as plain, definition};
ghost use Rattle.ae_tree.specs.WellShaped.{WellShaped};
ghost use Rattle.ae_rules.specs.Blocks.{scenes};
ghost use Rattle.ae_rules.specs.Judges.{Accepts};
ghost use Rattle.ae_rules.specs.Lookups.{method_at};
ghost use Rattle.ae_judge.specs.Tabled.{code_of};
ghost use Rattle.ae_scope.specs.Scope.{Empty};
ghost use Rattle.ae_uses.specs.Opened.{AreOpenedFor};
ghost use Rattle.ae_bodies.specs.Passed.{IsPassed};

use crate::blocks::block_used;
use ae_check::start;
use ae_code::{Checked, Method};
use ae_judge::Tabled;
use ae_scope::Scope;
use ae_text::{Deny, Items, Memory};
use ae_uses::OpenedBlock;
use std::alloc::Global;

/// What judging a method of an accepted program goes by. Takes no memory.
pub fn tabled_of<'a>(alloc: Global, code: &'a Checked) -> Tabled<'a>
    requires shaped { WellShaped (plain code.now.program) }
    ensures program { code_of result ≡ plain code.now.program }
    ensures names { length result.program.now.names ≡ length code.now.program.names }
    ensures accepted { Accepts (code_of result) }
{
    Tabled::of(alloc, code.program(), code.table())
}

// The blocks of a method, from its start.
fn body_used(
    tabled: &Tabled,
    method: &Method,
    scope: &mut Scope,
) -> Result<Items<OpenedBlock>, Deny>
    requires accepted { Accepts (code_of tabled.now) }
    requires shaped { WellShaped (code_of tabled.now) }
    requires method { (n : ℕ) × (method_at (code_of tabled.now) n ≡ Some (definition method.now)) }
    requires empty { Empty (length tabled.now.program.now.names) scope.old }
    ensures uses { IsPassed (AreOpenedFor (code_of tabled.now) (scenes (code_of tabled.now) (definition method.now)))
        result }
    ensures table { OnOk result (length scope.new.at.items ≡ length tabled.now.program.now.names) }
{
    start(tabled, method, scope)?;
    let mut opened = Vec::new(tabled.alloc);
    block_used(tabled, method, scope, &method.body, &mut opened)?;
    Ok(Items::from_vec(opened))
}

/// The blocks of a method of an accepted program that are not inside an atomic block, in the order in which they are
/// opened, each with what its statements use. Nothing is known in the scope before, nor after.
pub fn method_uses(
    tabled: &Tabled,
    method: &Method,
    scope: &mut Scope,
) -> Result<Items<OpenedBlock>, Memory>
    requires accepted { Accepts (code_of tabled.now) }
    requires shaped { WellShaped (code_of tabled.now) }
    requires method { (n : ℕ) × (method_at (code_of tabled.now) n ≡ Some (definition method.now)) }
    requires empty { Empty (length tabled.now.program.now.names) scope.old }
    ensures uses { IfOk result (AreOpenedFor (code_of tabled.now) (scenes (code_of tabled.now) (definition method.now))) }
    ensures empty { IfOk result (λ opened. Empty (length tabled.now.program.now.names) scope.new) }
{
    match body_used(tabled, method, scope) {
        Ok(opened) => {
            scope.clear();
            Ok(opened)
        }
        Err(Deny::Refused(_)) => unreachable!(),
        Err(Deny::Memory) => Err(Memory),
    }
}
