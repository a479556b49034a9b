// Laws over the rules alone.
ghost use Rattle.ae_rules.specs.BlockLaws.{BlocksAreReached, NamesAreBelow, ComparisonsAreExact, WalksFindNoSplit};
ghost use Rattle.ae_rules.specs.BlockLaws.{JudgingKeepsRight, HeldIsRight, EffectsAreExact, LinesDeclare};
ghost use Rattle.ae_rules.specs.Laws.{JudgedOrBroken, NeverBoth, AcceptedOrBroken, NeverAcceptedAndBroken};
ghost use Rattle.ae_rules.specs.Laws.{FirstIsOne, TakenIsGivenBack, NothingToTake, TakingTellsPermission};
ghost use Rattle.ae_rules.specs.Laws.{WalksGoByOwners, EverySlotIsGiven, CallsGiveBack, GivenAwayIsGone};
ghost use Rattle.ae_rules.specs.Laws.{MovesByItsText, StatementsKeep, SplitIsUndone, AtomicHoldsBack};
ghost use Rattle.ae_rules.specs.OfLanguage.{BrokenIsOfLanguage};
ghost use Rattle.ae_rules.specs.Roots.{RootsAreUsed};
ghost use Rattle.ae_rules.specs.EdgeLaws.{EdgesGoForward, ChainsGoForward, ConflictsAreOrdered, ModeTestsAreExact};
ghost use Rattle.ae_rules.specs.EdgeLaws.{UsesAreAllowed, ChangesAreUsed, PredsAreEdges, ConflictsAreFirst};
ghost use Rattle.ae_rules.specs.EdgeLaws.{UsesInsideAreAtMost, OrderIsOfTheSource, OrderIsTransitive};

/// Each statement is judged, or a premise of it fails first.
pub fn statements_are_judged_or_broken()
    ensures { JudgedOrBroken }
{}

/// No statement is both judged and broken.
pub fn statements_are_never_both()
    ensures { NeverBoth }
{}

/// Each program is accepted, or breaks a rule first.
pub fn programs_are_accepted_or_broken()
    ensures { AcceptedOrBroken }
{}

/// What a program breaks first is a rule of the language.
pub fn broken_rules_are_of_the_language()
    ensures { BrokenIsOfLanguage }
{}

/// No accepted program breaks a rule.
pub fn programs_are_never_both()
    ensures { NeverAcceptedAndBroken }
{}

/// A program that is not accepted breaks one rule first, at one place.
pub fn first_broken_rule_is_one()
    ensures { FirstIsOne }
{}

/// The part that was taken and what was left make again what was held.
pub fn taken_is_given_back()
    ensures { TakenIsGivenBack }
{}

/// Nothing can be taken where nothing is held, nor inside a member of a group.
pub fn nothing_to_take_inside_a_group()
    ensures { NothingToTake }
{}

/// A share can be taken exactly where what is held meets the need.
pub fn taking_tells_permission()
    ensures { TakingTellsPermission }
{}

/// Where of each local is held what may be, nothing that a walk leads to is split.
pub fn walks_find_no_split()
    ensures { WalksFindNoSplit }
{}

/// A walk to a field goes to the object that has it, and then one step.
pub fn walks_go_by_owners()
    ensures { WalksGoByOwners }
{}

/// In a well-shaped program a judged call gives to each slot of the method that is called, and to no more.
pub fn every_slot_is_given()
    ensures { EverySlotIsGiven }
{}

/// After a call a local is as before, unless a part of it was given away.
pub fn calls_give_back()
    ensures { CallsGiveBack }
{}

/// After a call a name that was given away holds nothing.
pub fn given_away_is_gone()
    ensures { GivenAwayIsGone }
{}

/// Which name moves with an expression is told by its text alone.
pub fn moves_are_told_by_the_text()
    ensures { MovesByItsText }
{}

/// After a judged statement each local that was visible still is, with its form, and each group has its permission.
pub fn statements_keep_what_is_visible()
    ensures { StatementsKeep }
{}

/// After a split block its groups are as they were, once those that the block declared are forgotten.
pub fn a_split_block_is_undone()
    ensures { SplitIsUndone }
{}

/// In an atomic block its group is protected, and no group is shared.
pub fn an_atomic_block_holds_back()
    ensures { AtomicHoldsBack }
{}

/// Each block of an accepted program is there with the context in which it begins, in the order of the text, and each statement in it is reached.
pub fn every_block_is_reached()
    ensures { BlocksAreReached }
{}

/// In each block of a well-shaped program that is accepted only names of the program are visible and used, and its graph has exactly its edges.
pub fn names_are_of_the_program()
    ensures { NamesAreBelow }
{}

/// Where what is visible has the number of a name, the tests that go over all names speak of each local.
pub fn comparisons_are_exact()
    ensures { ComparisonsAreExact }
{}

/// In a well-shaped program, accepted or not, a method begins with only names of the program visible and with each local held as its form lets it be,
/// and judged statements keep this.
pub fn judging_keeps_right()
    ensures { JudgingKeepsRight }
{}

/// In each block of a well-shaped program that is accepted, of each local is held what a local of its form may hold.
pub fn held_is_right()
    ensures { HeldIsRight }
{}

/// The context after judged statements is what they do: what they declare, and which names move.
pub fn effects_are_exact()
    ensures { EffectsAreExact }
{}

/// After judged lines the locals are those before and those of their `let`s, and the groups those before and those of their `group` statements, exclusive.
pub fn lines_add_what_they_declare()
    ensures { LinesDeclare }
{}

/// An edge leads from a statement to a later one.
pub fn edges_go_forward()
    ensures { EdgesGoForward }
{}

/// A chain of edges leads from a statement to a later one.
pub fn chains_go_forward()
    ensures { ChainsGoForward }
{}

/// Two statements of a block that use a resource in ways that do not go together are joined by a chain of edges.
pub fn conflicts_are_ordered()
    ensures { ConflictsAreOrdered }
{}

/// The tests on modes find a conflict exactly where there is one, and a use that lets others pass exactly where it does.
pub fn mode_tests_are_exact()
    ensures { ModeTestsAreExact }
{}

/// What a judged statement uses is visible after it, and may be so used.
pub fn uses_are_allowed()
    ensures { UsesAreAllowed }
{}

/// In a well-shaped program each local that a judged statement names, in its blocks too, the statement uses.
pub fn roots_are_used()
    ensures { RootsAreUsed }
{}

/// What is held otherwise after a judged statement, or is new, the statement uses by Write; and a new group as a whole.
pub fn changes_are_used()
    ensures { ChangesAreUsed }
{}

/// The list of what a statement waits for has exactly the statements from which an edge leads to it.
pub fn preds_are_edges()
    ensures { PredsAreEdges }
{}

/// Two instances of an accepted program that conflict, and part at two statements of a block, are ordered.
pub fn conflicts_are_first()
    ensures { ConflictsAreFirst }
{}

/// What is used inside a statement of an accepted program, seen from where the statement stands, is at most what the statement uses.
pub fn uses_inside_are_at_most_the_statements()
    ensures { UsesInsideAreAtMost }
{}

/// Of two instances that are ordered the first stands first in the source.
pub fn order_is_of_the_source()
    ensures { OrderIsOfTheSource }
{}

/// An instance before one that is before a third is before that.
pub fn order_is_transitive()
    ensures { OrderIsTransitive }
{}
