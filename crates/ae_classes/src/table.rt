// The class table of a program.
ghost use Rattle.std.specs.Prelude.{IfOk};
ghost use Rattle.ae_tree.specs.Shown.{code};
ghost use Rattle.ae_tree.specs.WellShaped.{WellShaped};
ghost use Rattle.ae_rules.specs.Answers.{Answers};
ghost use Rattle.ae_rules.specs.Stands.{StandsFor};
ghost use Rattle.ae_rules.specs.Table.{table_verdict};
ghost use Rattle.ae_classes.specs.Classes.{passed};

use crate::declarations::decls_hold;
use crate::main_method::has_main;
use crate::members::members_differ;
use crate::tops::tops_differ;
use ae_rules::ClassTable;
use ae_text::Deny;
use ae_tree::Program;
use std::alloc::Global;

/// The class table of a program: its classes, methods at the top and members by name. A program is refused at the first
/// clause that its declarations break: each class and each method at the top has a name of its own, and so has each
/// member of a class; then, declaration by declaration, its groups, types, parameters and needs; last, `main`.
pub fn build(alloc: Global, program: &Program) -> Result<ClassTable, Deny>
    requires { WellShaped (code program.now) }
    ensures answer { Answers (table_verdict (code program.now)) passed result }
    ensures stands { IfOk result (λ table. StandsFor table (code program.now)) }
{
    let names = tops_differ(alloc, program)?;
    let members = members_differ(alloc, program)?;
    decls_hold(alloc, program, &names.classes)?;
    has_main(program, &names.tops)?;
    Ok(ClassTable {
        classes: names.classes,
        tops: names.tops,
        members,
    })
}
