// A program with its class table.
ghost use Rattle.std.specs.Prelude.{◌≡◌};
ghost use Rattle.ae_tree.specs.Shown.{code};
ghost use Rattle.ae_tree.specs.WellShaped.{WellShaped};
ghost use Rattle.ae_rules.specs.Stands.{StandsFor};
ghost use Rattle.ae_rules.specs.Table.{TableHolds};
ghost use Rattle.ae_judge.specs.Receivers.{ReceiversFit};

use ae_rules::ClassTable;
use ae_tree::Program;
use std::alloc::Global;

/// A program whose declarations break no rule, with the class table that stands for it, and where the memory of judging
/// comes from.
#[derive(Clone, Copy)]
pub struct Tabled<'a> {
    pub alloc: Global,
    pub program: &'a Program,
    pub table: &'a ClassTable,
    pub ghost holds: { TableHolds (code program.now) },
    pub ghost stands: { StandsFor table.now (code program.now) },
    pub ghost receivers: { ReceiversFit (code program.now) },
}

impl<'a> Tabled<'a> {
    /// A program that has a program's shape, with its table. Takes no memory.
    pub fn of(alloc: Global, program: &'a Program, table: &'a ClassTable) -> Tabled<'a>
        requires shaped { WellShaped (code program.now) }
        requires holds { TableHolds (code program.now) }
        requires stands { StandsFor table.now (code program.now) }
        ensures program { result.program.now ≡ program.now }
        ensures table { result.table.now ≡ table.now }
    {
        Tabled {
            alloc,
            program,
            table,
        }
    }
}
