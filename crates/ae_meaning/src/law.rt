// Laws over the meaning alone.
ghost use Rattle.ae_meaning.specs.Frame.{ValueIsRead, DependsOnReads, ReadsItsUses, ChangesItsWrites, AddsToTheLog};
ghost use Rattle.ae_meaning.specs.Frame.{ApartCommute};
ghost use Rattle.ae_meaning.specs.Order.{OrderIsFree, TakingKeepsEnding};
ghost use Rattle.ae_meaning.specs.Endings.{AcceptedEnd};

/// An expression's value is told by what it uses.
pub fn values_are_told_by_what_is_read()
    ensures { ValueIsRead }
{}

/// A judged statement depends on what it reads alone, whatever the locals held that it writes.
pub fn statements_depend_on_what_they_read()
    ensures { DependsOnReads }
{}

/// A judged statement reads only what it uses.
pub fn statements_read_what_they_use()
    ensures { ReadsItsUses }
{}

/// A judged statement changes only what it uses by Write or GroupWhole.
pub fn statements_change_what_they_write()
    ensures { ChangesItsWrites }
{}

/// A statement does the same whatever was printed before it, and what it prints comes behind that.
pub fn statements_add_to_the_log()
    ensures { AddsToTheLog }
{}

/// Two judged statements that do not conflict can change places.
pub fn statements_apart_commute()
    ensures { ApartCommute }
{}

/// Judged statements that go through lead to the same state in every order in which those that conflict keep theirs.
pub fn order_is_free()
    ensures { OrderIsFree }
{}

/// A statement that conflicts with none before it can be run first, and if it goes through the ending stays.
pub fn taking_keeps_ending()
    ensures { TakingKeepsEnding }
{}

/// An accepted program of the forms that run has an ending.
pub fn accepted_programs_end()
    ensures { AcceptedEnd }
{}
