// What holds of the grammar and of refusals.
ghost use Rattle.ae_parser.specs.Laws.{IsOneProgram, IsOneRefusal, NoProgramIsRefused};

/// The tokens of a source stand for one program at most.
pub fn tokens_stand_for_one_program()
    ensures { IsOneProgram }
{}

/// Tokens are refused by one rule at one place at most.
pub fn refusals_are_unique()
    ensures { IsOneRefusal }
{}

/// Tokens that stand for a program within the limits are not refused.
pub fn programs_are_not_refused()
    ensures { NoProgramIsRefused }
{}
