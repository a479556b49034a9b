// Reads in a run that is under way, by those of an environment.
ghost use Rattle.std.specs.Prelude.{IfOk};
ghost use Rattle.ae_tree.specs.Shown.{expression};
ghost use Rattle.ae_semantics.specs.Expressions as meant;
ghost use Rattle.ae_semantics.specs.Places as place;
ghost use Rattle.ae_semantics.specs.Places.{Address};
ghost use Rattle.ae_values.specs.Shown.{shown, IsMeasured};
ghost use Rattle.ae_judge.specs.Tabled.{code_of};
ghost use Rattle.ae_reads.specs.Answers.{ReadsAs, as_it_is};
ghost use Rattle.ae_reads.specs.Views.{place_at, found_at, reached_at};
ghost use Rattle.ae_running.specs.Seen.{seen, ReadsSomewhere};

use crate::running::Running;
use ae_judge::Tabled;
use ae_reads::{Found, Place, Reached, Stop, reads_see_no_cells};
use ae_tree::{Expr, Path};
use ae_values::Val;

/// The value that an expression comes to, as one of its own, or its first fault from left to right. Only a tree to
/// which a path leads is copied.
pub fn value_of(tabled: &Tabled, run: &Running, expr: &Expr) -> Result<Val, Stop>
    ensures value { ReadsAs (meant.value (code_of tabled.now) (seen run.now) (expression expr.now)) shown result }
    ensures measured { IfOk result IsMeasured }
{
    reads_see_no_cells();
    ae_reads::value_of(tabled.alloc, tabled, &run.env, expr)
}

/// The truth that an expression comes to, or its first fault from left to right. Takes memory for the groups of forms
/// alone.
pub fn truth_of(tabled: &Tabled, run: &Running, expr: &Expr) -> Result<bool, Stop>
    ensures { ReadsAs (meant.truth_of (code_of tabled.now) (seen run.now) (expression expr.now)) as_it_is result }
{
    reads_see_no_cells();
    ae_reads::truth_of(tabled, &run.env, expr)
}

/// The integer that an expression comes to, or its first fault from left to right. Takes memory for the groups of forms
/// alone.
pub fn int_of(tabled: &Tabled, run: &Running, expr: &Expr) -> Result<i64, Stop>
    ensures { ReadsAs (meant.number_of (code_of tabled.now) (seen run.now) (expression expr.now)) as_it_is result }
{
    reads_see_no_cells();
    ae_reads::int_of(tabled, &run.env, expr)
}

/// Where a path leads. No value is copied. Takes memory for the groups of forms alone.
pub fn walk<'a>(tabled: &Tabled, run: &'a Running, path: &Path) -> Result<Place<'a>, Stop>
    ensures { ReadsSomewhere (place.walk_to (code_of tabled.now) (seen run.now) path.now) place_at result }
{
    reads_see_no_cells();
    ae_reads::walk(tabled, &run.env, path)
}

/// Where a path leads, with the address of the place: the answer has the tree, and `fields` the numbers of the fields
/// that lead to the place in it. What `fields` has after a fault is of no use.
pub fn walk_noting<'a>(
    tabled: &Tabled,
    run: &'a Running,
    path: &Path,
    fields: &mut Vec<u32>,
) -> Result<Found<'a>, Stop>
    ensures { ReadsAs (place.walk_to (code_of tabled.now) (seen run.now) path.now) (found_at fields.new.items) result }
{
    reads_see_no_cells();
    ae_reads::walk_noting(tabled, &run.env, path, fields)
}

/// The object to which a path leads. Null there is trap 3, as in a step.
pub fn reach<'a>(tabled: &Tabled, run: &'a Running, path: &Path) -> Result<Reached<'a>, Stop>
    ensures { ReadsSomewhere (place.reach (code_of tabled.now) (seen run.now) path.now) reached_at result }
{
    reads_see_no_cells();
    ae_reads::reach(tabled, &run.env, path)
}
