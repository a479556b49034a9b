// Laws on how methods begin.
ghost use Rattle.ae_starts.specs.Laws.{EnteredNamesAreKnown, NamesStandApart};
ghost use Rattle.ae_starts.specs.Mains.{MainBegins};

use ae_rules::every_slot_is_given;

/// The receiver, the parameters and the needed groups of each method of an accepted program all have names of their own.
pub fn names_stand_apart()
    ensures { NamesStandApart }
{}

/// An accepted program has a `main`, which begins without a local or with integers alone, and its names are known.
pub fn main_begins()
    ensures { MainBegins }
{}

/// Where the call of a judged statement is entered, and the caller's names are known, those with which the body of the
/// method begins are known at its start.
pub fn entered_names_are_known()
    ensures { EnteredNamesAreKnown }
{
    every_slot_is_given();
}
