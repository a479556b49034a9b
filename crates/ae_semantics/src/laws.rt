// Laws over the meaning alone.
ghost use Rattle.ae_semantics.specs.Gathering.{GoesByItsAnswers, MoreGoesFurther, StatementGoesByItsAnswers};
ghost use Rattle.ae_semantics.specs.Gathering.{MoreAnswersKeep, StatementGoesFurther};
ghost use Rattle.ae_semantics.specs.Laws.{AtomAsksNothing, CellsAreFixed, ContextsAreJudged, FittingIsLow};
ghost use Rattle.ae_semantics.specs.Laws.{FreshStandsFor, MoreChangesNothing};
ghost use Rattle.ae_semantics.specs.Laws.{NothingBegunIsAfter};
ghost use Rattle.ae_semantics.specs.PastStops.{RunsGoPast, StatementsGoPast};
ghost use Rattle.ae_semantics.specs.RowLaws.{FreshIsReached, FreshRowsAreStamped, FreshRowsStandFor};
ghost use Rattle.ae_semantics.specs.RowSteps.{AnsweringKeeps, EnteringKeeps, LeavingOutKeeps, LoopingKeeps};
ghost use Rattle.ae_semantics.specs.RowSteps.{StageKeeps, StartingKeeps, StepKeeps, TurningKeeps};
ghost use Rattle.ae_semantics.specs.Stamps.{FreshIsStamped};
ghost use Rattle.ae_semantics.specs.Standing.{AsksAreLocated};
ghost use Rattle.ae_semantics.specs.Trails.{WatchingChangesNothing};

/// After a statement that is judged the meaning goes on in the context that the judgement comes to.
pub fn contexts_are_judged()
    ensures { ContextsAreJudged }
{}

/// A meaning that has an ending is the same with more observations after those that it has.
pub fn more_observations_change_nothing()
    ensures { MoreChangesNothing }
{}

/// With more observations a run tells all that it told before, and where it did not stop it is the same.
pub fn run_goes_further_with_more()
    ensures { MoreGoesFurther }
{}

/// With more observations a statement tells all that it told before, and where it did not stop it does the same.
pub fn statement_goes_further_with_more()
    ensures { StatementGoesFurther }
{}

/// A run whose observations are found by what is asked is the run with the list of the answers that it got, in order.
pub fn run_goes_by_its_answers()
    ensures { GoesByItsAnswers }
{}

/// So is what a single statement does.
pub fn statement_goes_by_its_answers()
    ensures { StatementGoesByItsAnswers }
{}

/// A statement that does not stop for want of an answer does the same by a table with more answers.
pub fn statement_stays_with_more_answers()
    ensures { MoreAnswersKeep }
{}

/// The run that notes what each statement finds and leaves comes to what the meaning past what stopped comes to.
pub fn watching_changes_nothing()
    ensures { WatchingChangesNothing }
{}

/// What a meaning began, statements and turns of loops alike, is not after where it ended.
pub fn nothing_begun_is_after_the_ending()
    ensures { NothingBegunIsAfter }
{}

/// In every program with a `main` the tree before anything ran is there, and stands for the meaning past what stopped.
pub fn fresh_stands_for()
    ensures { FreshStandsFor }
{}

/// What an atomic block does asks nothing, and goes by what it was asked with and its group's image alone.
pub fn atom_asks_nothing()
    ensures { AtomAsksNothing }
{}

/// A run past what stopped is the run up to the first ending where that goes through, and stops first where that ends
/// or stops.
pub fn runs_go_past_what_stopped()
    ensures { RunsGoPast }
{}

/// So does what a single statement does.
pub fn statements_go_past_what_stopped()
    ensures { StatementsGoPast }
{}

/// In a well-shaped program what an atomic statement of the text asks is located again, with its group and with its
/// statements in the context in which they begin.
pub fn asks_are_located()
    ensures { AsksAreLocated }
{}

/// The tree before anything ran is stamped: nothing in it has a stamp yet.
pub fn fresh_is_stamped()
    ensures { FreshIsStamped }
{}

/// Where a program begins, the rows in which all waits are reached: each is right by what its statements do alone.
pub fn fresh_rows_are_reached()
    ensures { FreshIsReached }
{}

/// In every program with a `main` these rows are there, their tree is the one before anything ran, and they stand for
/// the meaning.
pub fn fresh_rows_stand_for()
    ensures { FreshRowsStandFor }
{}

/// They are stamped: nothing in them has a stamp yet.
pub fn fresh_rows_are_stamped()
    ensures { FreshRowsAreStamped }
{}

/// Another stage for a statement that is not done, right for it and not that of one that went through, keeps all rows
/// right.
pub fn stage_keeps_rows_right()
    ensures { StageKeeps }
{}

/// Rows that are right by some answers are right by more.
pub fn answering_keeps_rows_right()
    ensures { AnsweringKeeps }
{}

/// Rows stay reached where such a stage comes with more answers: where a body goes on, and where a statement ends.
pub fn step_keeps_reached()
    ensures { StepKeeps }
{}

/// Rows stay reached where a statement is left out that is in conflict with one before it that ended or is left out.
pub fn leaving_out_keeps_reached()
    ensures { LeavingOutKeeps }
{}

/// Rows stay reached where a statement is begun as a body with values as it finds them.
pub fn starting_keeps_reached()
    ensures { StartingKeeps }
{}

/// Rows stay reached where a loop comes before its first turn with values as it finds them.
pub fn looping_keeps_reached()
    ensures { LoopingKeeps }
{}

/// Rows stay reached where the body of a call, a branch or the block of a split becomes a row, in which all waits.
pub fn entering_keeps_reached()
    ensures { EnteringKeeps }
{}

/// Rows stay reached where the next turn of a loop becomes a row.
pub fn turning_keeps_reached()
    ensures { TurningKeeps }
{}

/// The cells that an explained report has, and their order, are fixed by what else it tells.
pub fn reported_cells_are_fixed()
    ensures { CellsAreFixed }
{}

/// No local that comes out of an answer that fits is too high.
pub fn fitting_answers_are_low()
    ensures { FittingIsLow }
{}
