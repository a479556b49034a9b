// Laws over what may come of a plan.
ghost use Rattle.ae_rounds.specs.Flow.{Work};
ghost use Rattle.ae_rounds.specs.FlowLaws.{BegunWereReady, ChainsKeepTime, ChainsWentThrough, EntriesAreDrawn};
ghost use Rattle.ae_rounds.specs.FlowLaws.{HistoriesRise};

/// What the tasks of a round take and give.
pub trait Meanings {
    type Input;

    type Carry;

    type Output;

    type Body;

    type Entry;

    /// What an output, a body and the rest say, and which are allowed.
    ghost work: { Work Self.Input Self.Carry Self.Output Self.Body Self.Entry };
}

/// In what may come of a plan, all from which a chain of edges leads to a task that has begun went through.
pub fn chains_went_through<M: Meanings>()
    ensures { ChainsWentThrough M.work }
{}

/// In what may come of a plan, where a chain of edges leads from one task to another, the first ended before the second
/// began.
pub fn chains_keep_time<M: Meanings>()
    ensures { ChainsKeepTime M.work }
{}

/// In what may come of a plan, each task that has begun was ready with the carries that it was given.
pub fn begun_were_ready<M: Meanings>()
    ensures { BegunWereReady M.work }
{}

/// Where tasks only add, and by later stamps than all that they were given, the stamp of each entry that a task has
/// added is one that it has added.
pub fn added_entries_are_drawn<M: Meanings>()
    ensures { EntriesAreDrawn M.work }
{}

/// Where tasks only add so, the history of a cell whose stamps rise goes on with stamps that rise.
pub fn histories_rise<M: Meanings>()
    ensures { HistoriesRise M.work }
{}
