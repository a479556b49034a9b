// What a statement reads.
ghost use Rattle.ae_needs.specs.Laws.{ActsReadWhatTheyUse, CallsReadWhatTheyUse, StatementsReadWhatTheyUse};

use ae_rules::{
    changes_are_used, comparisons_are_exact, every_slot_is_given, judging_keeps_right,
    lines_add_what_they_declare, statements_keep_what_is_visible, uses_are_allowed,
};
use ae_soundness::{
    calls_are_entered, calls_keep_standing, fields_are_of_groups, returns_give_results,
    statements_without_calls_fit, values_are_found,
};

/// From two states that fit what is known, and agree on what a judged statement without blocks and calls uses, it has
/// the same ending or fault and prints the same, and the states after it agree on all that those before agreed on, and
/// on all that it uses.
pub fn acts_read_what_they_use()
    ensures { ActsReadWhatTheyUse }
{
    lines_add_what_they_declare();
    uses_are_allowed();
}

/// In a well-shaped program whose declarations hold it is so with each judged statement that calls, from two states
/// that stand, where the bodies of methods, each from one state, print the same and come to one state whatever was
/// printed before.
pub fn calls_read_what_they_use()
    ensures { CallsReadWhatTheyUse }
{
    lines_add_what_they_declare();
    uses_are_allowed();
    calls_are_entered();
    every_slot_is_given();
}

/// From two states that stand, and agree on what it uses, each judged statement of an accepted program in which nothing
/// is split, with the blocks in it and the methods that it calls, has the same ending or fault and prints the same,
/// with each fuel, and the states after it agree on all that those before agreed on, and on all that it uses. Programs
/// with `split` or `atomic` are left out, and nothing may be declared under the name `this`.
pub fn statements_read_what_they_use()
    ensures { StatementsReadWhatTheyUse }
{
    fields_are_of_groups();
    values_are_found();
    statements_without_calls_fit();
    returns_give_results();
    calls_keep_standing();
    statements_keep_what_is_visible();
    comparisons_are_exact();
    judging_keeps_right();
    lines_add_what_they_declare();
    uses_are_allowed();
    changes_are_used();
    acts_read_what_they_use();
    calls_read_what_they_use();
}
