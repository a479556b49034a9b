// What is known of each context in which statements are judged.
ghost use Rattle.std.specs.Prelude.{length};
ghost use Rattle.ae_tree.specs.Shown.{braced};
ghost use Rattle.ae_judge.specs.Tabled.{code_of};
ghost use Rattle.ae_scope.specs.Scope.{context_of};
ghost use Rattle.ae_check.specs.Ready.{IsReady, JudgingStaysReady, LinesNamed};

use ae_judge::Tabled;
use ae_rules::{judging_keeps_right, lines_add_what_they_declare, statements_keep_what_is_visible};
use ae_scope::Scope;
use ae_tree::Block;

/// In each method of a well-shaped program whose declarations hold only names of the program are visible, of each
/// local is held what may be, and the groups of the forms of locals are known: at its start, after each judged
/// statement, and at the beginning of its split and atomic blocks.
pub fn judging_stays_ready()
    ensures { JudgingStaysReady }
{
    judging_keeps_right();
    lines_add_what_they_declare();
    statements_keep_what_is_visible();
}

/// The statements of a block name only names of the program: said where a statement is taken apart.
pub fn lines_are_named(tabled: &Tabled, block: &Block)
    requires { LinesNamed (length tabled.now.program.now.names) (braced block.now).lines }
    ensures { LinesNamed (length tabled.now.program.now.names) (braced block.now).lines }
{}

/// What is known is ready for the next statement: said where changes were taken back.
pub fn context_is_ready(tabled: &Tabled, scope: &Scope)
    requires { IsReady (code_of tabled.now) (context_of scope.now) }
    ensures { IsReady (code_of tabled.now) (context_of scope.now) }
{}
