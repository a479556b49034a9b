// A law over what is read.
ghost use Rattle.ae_reads.specs.Cells.{ReadsSeeNoCells};

/// In each state that the meaning can see in an environment all is read as in the one that is seen there: what cells
/// are called and what was returned is not read.
pub fn reads_see_no_cells()
    ensures { ReadsSeeNoCells }
{}
