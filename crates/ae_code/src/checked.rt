// An accepted program.
ghost use Rattle.std.specs.Prelude.{◌≡◌};
ghost use Rattle.ae_tree.specs.Shown.{code};
ghost use Rattle.ae_rules.specs.Judges.{Accepts};
ghost use Rattle.ae_rules.specs.Stands.{StandsFor};

use ae_rules::ClassTable;
use ae_tree::Program;

/// A program that the rules accept, with the class table that stands for it. There is no other way to make one than
/// to know both, so whoever has one need not judge again.
#[derive(Drop)]
pub struct Checked {
    program: Program,
    table: ClassTable,
    pub ghost accepted: { Accepts (code program) },
    pub ghost stands: { StandsFor table (code program) },
}

impl Checked {
    /// Takes no memory.
    pub fn of(program: Program, table: ClassTable) -> Checked
        requires accepted { Accepts (code program) }
        requires stands { StandsFor table (code program) }
        ensures program { result.program ≡ program }
        ensures table { result.table ≡ table }
    {
        Checked { program, table }
    }

    /// The program. Takes no memory.
    pub fn program(&self) -> &Program
        ensures program { result.now ≡ self.now.program }
        ensures accepted { Accepts (code result.now) }
    {
        &self.program
    }

    /// The table of its declared classes, methods at the top and members. Takes no memory.
    pub fn table(&self) -> &ClassTable
        ensures table { result.now ≡ self.now.table }
        ensures stands { StandsFor result.now (code self.now.program) }
    {
        &self.table
    }
}
