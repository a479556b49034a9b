// What an accepted program never lacks.
ghost use Rattle.ae_soundness.specs.Laws.{BeginningsFit, CallsAreEntered, FieldsAreOfGroups, FieldsAreThere};
ghost use Rattle.ae_soundness.specs.Laws.{MethodsHaveMembers, ObjectsAreReached, PathsAreFound, SlotsAreFound};
ghost use Rattle.ae_soundness.specs.Laws.{StatementsWithoutCallsFit, ValuesAreFound, WhatGoesInFits};
ghost use Rattle.ae_soundness.specs.Returns.{CallsAreLeft, GroupsComeBack, NamesGoAway, ReturnsGiveResults};
ghost use Rattle.ae_soundness.specs.Returns.{MembersMayComeBack, MethodsGiveBack, ValuesComeBack};
ghost use Rattle.ae_soundness.specs.Whole.{AcceptedMeaningsEnd, AcceptedRunsNeverLack, CallsKeepStanding};

use ae_rules::{
    calls_give_back, comparisons_are_exact, every_slot_is_given, given_away_is_gone,
    judging_keeps_right, statements_keep_what_is_visible, walks_go_by_owners,
};

/// In a program whose declarations hold no field is of a form with `io` for a group, so that each group that a walk
/// meets has members.
pub fn fields_are_of_groups()
    ensures { FieldsAreOfGroups }
{}

/// Where a program begins whose declarations hold, the state fits what is known.
pub fn beginnings_fit()
    ensures { BeginningsFit }
{}

/// A declared field of an object that is whole is there, of its form and whole, and never counts as null.
pub fn fields_are_there()
    ensures { FieldsAreThere }
{}

/// Where a walk is judged, and the state fits what is known, the walk comes to a place that fits what is known of it,
/// or is trap 3; nothing is lacking.
pub fn paths_are_found()
    ensures { PathsAreFound }
{}

/// Where a walk leads to an object that may be reached, and the state fits what is known, the object is there, whole
/// and of its class, or it is trap 3.
pub fn objects_are_reached()
    ensures { ObjectsAreReached }
{}

/// Where an expression is judged to be a number or a truth, and the state fits what is known, it comes to one, or
/// traps; nothing is lacking.
pub fn values_are_found()
    ensures { ValuesAreFound }
{}

/// Where an expression is judged to go into a form, and the state fits what is known, it comes to a value of that form,
/// or traps; nothing is lacking.
pub fn what_goes_in_fits()
    ensures { WhatGoesInFits }
{}

/// Where a walk with a step is judged, and the state fits what is known, the field to which it leads is there with a
/// value of its form, or it is trap 3; nothing is lacking.
pub fn slots_are_found()
    ensures { SlotsAreFound }
{
    walks_go_by_owners();
}

/// A judged statement that has no block and calls no method goes on from a state that fits what is known to one that
/// fits what is known after it, or is a trap; nothing is lacking. What it takes or writes has to be a field.
pub fn statements_without_calls_fit()
    ensures { StatementsWithoutCallsFit }
{
    walks_go_by_owners();
}

/// In a well-shaped program whose declarations hold no group of a receiver's or a parameter's form is `io`.
pub fn methods_have_members()
    ensures { MethodsHaveMembers }
{}

/// In a well-shaped program whose declarations hold a judged call enters the method that it is judged to call, from a
/// state that fits what is known, with values of its parameters' forms, and the state fits where that begins; or it is
/// a trap. Nothing is lacking.
pub fn calls_are_entered()
    ensures { CallsAreEntered }
{
    every_slot_is_given();
}

/// From a state that fits what is known a judged `return` gives a result of its method's form, and no other statement
/// without blocks and calls changes the result.
pub fn returns_give_results()
    ensures { ReturnsGiveResults }
{}

/// A state keeps fitting what is known where what a method left of its groups comes back to it: members that are
/// whole, or what there was.
pub fn groups_come_back()
    ensures { GroupsComeBack }
{}

/// Where the arguments of a call are judged, and the names that they give away have no value then, the state fits what
/// is known after the call.
pub fn names_go_away()
    ensures { NamesGoAway }
{
    calls_give_back();
    given_away_is_gone();
}

/// Where a walk is judged to lead to what is held Unique, and came to a place, a unique value of that place's form may
/// be written back there, also in a later state that fits what is known then of the walk's root, or it is a trap;
/// nothing is lacking.
pub fn values_come_back()
    ensures { ValuesComeBack }
{}

/// In a well-shaped program whose declarations hold a judged call that was entered from a state that fits what is known
/// is left with a state that fits what is known after it, or it is a trap; nothing is lacking. Where the method ends,
/// its parameters have to have the values that come back, and what it left of its groups may come back.
pub fn calls_are_left()
    ensures { CallsAreLeft }
{
    calls_give_back();
    given_away_is_gone();
    every_slot_is_given();
}

/// A group whose members a method has where it ends may come back to a caller's group that has members.
pub fn members_may_come_back()
    ensures { MembersMayComeBack }
{}

/// Where a judged call was entered from a state that fits what is known, and its method ends in a state that fits a
/// context in which it may end, the parameters have the values that come back, and what the method left of its groups
/// may come back to the caller's. No group may be away in a cell then, and nothing declared under the name `this`.
pub fn methods_give_back()
    ensures { MethodsGiveBack }
{
    every_slot_is_given();
    statements_keep_what_is_visible();
}

/// Where each method's body, from a state that stands where it begins, is left as it is judged to end, each judged
/// statement that calls goes on from a state that stands to one that stands at what is known after it, or is a trap, or
/// wants fuel; nothing is lacking.
pub fn calls_keep_standing()
    ensures { CallsKeepStanding }
{
    calls_are_entered();
    calls_are_left();
    methods_give_back();
}

/// No run of an accepted program in which nothing is split lacks anything, up to its first ending: it goes through, or
/// ends by a trap or for want of fuel, with each fuel, on all integers, and whatever is observed. Programs with `split`
/// or `atomic` are left out, and nothing may be declared under the name `this`.
pub fn accepted_runs_never_lack()
    ensures { AcceptedRunsNeverLack }
{
    fields_are_of_groups();
    values_are_found();
    statements_without_calls_fit();
    returns_give_results();
    beginnings_fit();
    calls_keep_standing();
    statements_keep_what_is_visible();
    comparisons_are_exact();
    judging_keeps_right();
}

/// The meaning of an accepted program in which nothing is split has an ending, whatever is observed: it is done, it is
/// a trap, or the fuel was spent.
pub fn accepted_meanings_end()
    ensures { AcceptedMeaningsEnd }
{
    accepted_runs_never_lack();
}
