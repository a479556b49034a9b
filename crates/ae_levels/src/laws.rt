// Laws on the levels of a run that is under way: what becomes of each.
ghost use Rattle.ae_levels.specs.StatementLaws.{StatementsGoOn};
ghost use Rattle.ae_levels.specs.BranchLaws.{BlocksOpenAndEnd};
ghost use Rattle.ae_levels.specs.LoopLaws.{LoopsTurn};
ghost use Rattle.ae_levels.specs.CallLaws.{CallsComeBack};
ghost use Rattle.ae_levels.specs.CostLaws.{LevelsCostLess};
ghost use Rattle.ae_levels.specs.EndLaws.{RunsMeanSo};

use crate::ground::runs_go_by_laws;
use ae_soundness::accepted_meanings_end;

/// A statement of a block begins, and what it does without blocks and calls.
pub fn statements_go_on()
    ensures { StatementsGoOn }
{
    runs_go_by_laws();
}

/// A branch opens its block, and a block ends.
pub fn blocks_open_and_end()
    ensures { BlocksOpenAndEnd }
{
    runs_go_by_laws();
}

/// A loop begins, turns, and ends.
pub fn loops_turn()
    ensures { LoopsTurn }
{
    runs_go_by_laws();
}

/// A call begins, is entered, and comes back.
pub fn calls_come_back()
    ensures { CallsComeBack }
{
    runs_go_by_laws();
}

/// What is opened costs less than what opened it.
pub fn levels_cost_less()
    ensures { LevelsCostLess }
{}

/// A run begins with the body of `main`, one with no level left is done, what the whole run comes to is the meaning, and
/// that has an ending in an accepted program in which nothing is split.
pub fn runs_mean_so()
    ensures { RunsMeanSo }
{
    accepted_meanings_end();
}
