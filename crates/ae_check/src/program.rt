// Whole programs: their methods in source order.
ghost use Rattle.std.specs.Prelude.{◌≡◌, IfOk};
ghost use Rattle.ae_tree.specs.Shown.{code};
ghost use Rattle.ae_tree.specs.WellShaped.{WellShaped};
ghost use Rattle.ae_rules.specs.Answers.{Answers, done};
ghost use Rattle.ae_rules.specs.Judges as spec;
ghost use Rattle.ae_rules.specs.Stands.{StandsFor};
ghost use Rattle.ae_rules.specs.Table.{TableHolds};
ghost use Rattle.ae_rules.specs.Verdict.{each};
ghost use Rattle.ae_check.specs.Methods.{accepted};

use crate::laws::judging_stays_ready;
use crate::methods::judge_method;
use ae_code::Checked;
use ae_judge::Tabled;
use ae_rules::ClassTable;
use ae_scope::Scope;
use ae_text::Deny;
use ae_tree::Program;
use std::alloc::Global;

// The methods, in source order.
fn judge_methods(alloc: Global, program: &Program, table: &ClassTable) -> Result<(), Deny>
    requires shaped { WellShaped (code program.now) }
    requires holds { TableHolds (code program.now) }
    requires stands { StandsFor table.now (code program.now) }
    ensures { Answers (each (spec.judge_method (code program.now)) (code program.now).methods) done result }
{
    judging_stays_ready();
    let tabled = Tabled::of(alloc, program, table);
    let mut scope = Scope::new(alloc, program.names.len())?;
    for method in program.methods.as_slice() {
        judge_method(&tabled, method, &mut scope)?;
    }
    Ok(())
}

/// A program whose class table is known: it is accepted, or refused by the rule that it breaks first,
/// at that place. Nothing stays of a refused program.
pub fn check_program(alloc: Global, program: Program, table: ClassTable) -> Result<Checked, Deny>
    requires shaped { WellShaped (code program) }
    requires holds { TableHolds (code program) }
    requires stands { StandsFor table (code program) }
    ensures answer { Answers (spec.verdict (code program)) accepted result }
    ensures program { IfOk result (λ k. k.program ≡ program) }
{
    match judge_methods(alloc, &program, &table) {
        Ok(()) => Ok(Checked::of(program, table)),
        Err(fail) => Err(fail),
    }
}
