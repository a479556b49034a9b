// What an accepted statement changes.
ghost use Rattle.ae_changes.specs.Apart.{BeginningsAreApart, CallsBeginApart};
ghost use Rattle.ae_changes.specs.Apart.{NamesStayApart, UnwrittenGroupsStay};
ghost use Rattle.ae_changes.specs.Bodies.{CallsChangeAsUsed};
ghost use Rattle.ae_changes.specs.Changes.{ActsChangeAsUsed};
ghost use Rattle.ae_changes.specs.Stays.{StayingParametersStay};
ghost use Rattle.ae_changes.specs.Whole.{BodiesChangeAsUsed, StatementsChangeAsUsed};

use ae_rules::{
    comparisons_are_exact, every_slot_is_given, judging_keeps_right,
    statements_keep_what_is_visible, uses_are_allowed, walks_go_by_owners,
};
use ae_soundness::{
    calls_keep_standing, fields_are_of_groups, methods_give_back, returns_give_results,
    statements_without_calls_fit, values_are_found,
};

/// A judged statement that has no block and calls no method changes, from a state that fits what is known, only the
/// locals and groups that it uses by Write or as a whole: each other visible local is as before, and what was not
/// visible is as before or gone. It prints only where it uses `io`, and changes the result only where it is a `return`.
pub fn acts_change_as_used()
    ensures { ActsChangeAsUsed }
{
    walks_go_by_owners();
    returns_give_results();
}

/// Where the body of each method, from a state that stands where it begins, is left as it is judged to end and changes
/// only the groups that the method needs for itself, each judged statement that calls changes only what it writes: the
/// locals whose objects it lends as unique or gives away, the local that gets the result, and the groups that the
/// method needs for itself. It prints only where it uses `io`, and changes no result.
pub fn calls_change_as_used()
    ensures { CallsChangeAsUsed }
{
    every_slot_is_given();
    methods_give_back();
}

/// In an accepted and well-shaped program in which nothing is split a judged statement of a method, with its blocks,
/// changes only what it writes, from a state that stands where it begins, with each fuel and whatever is observed: each
/// other local that is visible before it is as before, and each group that is not written under any of its names. It
/// prints only where it uses `io`, and the result is another only where it has a `return`. Nothing may be declared
/// under the name `this`.
pub fn statements_change_as_used()
    ensures { StatementsChangeAsUsed }
{
    fields_are_of_groups();
    values_are_found();
    statements_without_calls_fit();
    returns_give_results();
    calls_keep_standing();
    statements_keep_what_is_visible();
    comparisons_are_exact();
    judging_keeps_right();
    uses_are_allowed();
    acts_change_as_used();
    calls_change_as_used();
}

/// In such a program the whole body of a method changes only the groups that the method needs for itself, and of its
/// parameters only those that its statements write. It prints only where the method needs `io` and a statement uses it.
pub fn bodies_change_as_used()
    ensures { BodiesChangeAsUsed }
{
    fields_are_of_groups();
    values_are_found();
    statements_without_calls_fit();
    returns_give_results();
    calls_keep_standing();
    statements_keep_what_is_visible();
    comparisons_are_exact();
    judging_keeps_right();
    uses_are_allowed();
    acts_change_as_used();
    calls_change_as_used();
}

/// Where no group that may be reached stands under another name, and no name of another leads to it, each group that a
/// judged statement does not write is as before, if the statement changes only what it writes.
pub fn unwritten_groups_stay()
    ensures { UnwrittenGroupsStay }
{
    uses_are_allowed();
    statements_keep_what_is_visible();
}

/// It is so after the statement too.
pub fn names_stay_apart()
    ensures { NamesStayApart }
{
    statements_keep_what_is_visible();
}

/// It is so where a called method begins, in a well-shaped program whose declarations hold, if it is where it was
/// called.
pub fn calls_begin_apart()
    ensures { CallsBeginApart }
{
    every_slot_is_given();
}

/// It is so where a program begins.
pub fn beginnings_are_apart()
    ensures { BeginningsAreApart }
{}

/// In an accepted and well-shaped program in which nothing is split no statement of a method's body writes a parameter
/// that stays, so that it is as before, where only the parameters change that they write.
pub fn staying_parameters_stay()
    ensures { StayingParametersStay }
{
    statements_keep_what_is_visible();
    judging_keeps_right();
}
