// A law on what statements come to.
ghost use Rattle.ae_acts.specs.Law.{ActsAreTheMeaningOfBoth};

/// Each statement without blocks and calls does in the meaning what it comes to.
pub fn acts_are_the_meaning()
    ensures { ActsAreTheMeaningOfBoth }
{}
