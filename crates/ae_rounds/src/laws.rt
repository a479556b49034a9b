// Laws over the definitions of a round alone.
ghost use Rattle.std.specs.Prelude.{ℕ};
ghost use Rattle.ae_rounds.specs.Laws.{ChainsRise, FirstIsLawful, EventsKeep, LawfulIsFree, ReachedIsFree};
ghost use Rattle.ae_rounds.specs.Laws.{SoundIsCalm, BegunStays, BeginsOnce};

/// What may not run together, and in which order, for the tasks of a round by their numbers.
pub trait Tasks {
    /// The two tasks may not run together.
    ghost conflict: { ℕ → ℕ → Type 0 };

    /// The first task ends before the second begins.
    ghost ordered: { ℕ → ℕ → Type 0 };
}

/// A chain of edges leads to a higher number.
pub fn chains_rise()
    ensures { ChainsRise }
{}

/// A round in which all tasks wait and all cells are free is lawful.
pub fn first_is_lawful()
    ensures { FirstIsLawful }
{}

/// Each event leads from a lawful configuration to a lawful one.
pub fn events_keep_what_is_lawful()
    ensures { EventsKeep }
{}

/// In a lawful configuration no chain joins two running tasks, and no cell is held by two seats.
pub fn lawful_is_free_of_conflicts()
    ensures { LawfulIsFree }
{}

/// Whatever events follow, each configuration stays lawful and free of conflicts.
pub fn reached_is_free_of_conflicts()
    ensures { ReachedIsFree }
{}

/// In a round with a chain of edges between any two tasks that conflict or are ordered, no two such tasks ever run
/// together.
pub fn sound_is_calm<T: Tasks>()
    ensures { SoundIsCalm T.conflict T.ordered }
{}

/// A task that has begun never waits again.
pub fn begun_never_waits()
    ensures { BegunStays }
{}

/// Whatever events follow, a task begins once at most.
pub fn each_task_begins_once()
    ensures { BeginsOnce }
{}
