// The laws by which a run goes on.
ghost use Rattle.ae_levels.specs.Laws.{Laws};

use ae_acts::acts_are_the_meaning;
use ae_frames::calls_are_entered;
use ae_names::{declared_names_are_free, names_are_known, names_end_with_a_block};
use ae_rules::statements_keep_what_is_visible;
use ae_steps::stacks_are_done_step_by_step;

/// What stacks of things to do come to step by step, which names are known and which end, and what statements and calls
/// do.
pub fn runs_go_by_laws()
    ensures { Laws }
{
    stacks_are_done_step_by_step();
    names_end_with_a_block();
    names_are_known();
    declared_names_are_free();
    statements_keep_what_is_visible();
    acts_are_the_meaning();
    calls_are_entered();
}
