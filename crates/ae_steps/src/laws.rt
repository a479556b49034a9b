// What is to be done, step by step.
ghost use Rattle.ae_steps.specs.Costs.{StepsCostByBoth};
ghost use Rattle.ae_steps.specs.Steps.{StacksAreDoneByBoth};

/// In source order a stack of what is to be done comes to what it comes to after one step of its first thing, whatever
/// that thing is.
pub fn stacks_are_done_step_by_step()
    ensures { StacksAreDoneByBoth }
{}

/// What a step leaves to do is less than what was to be done, so that steps come to an end.
pub fn steps_come_to_an_end()
    ensures { StepsCostByBoth }
{}
