// Broken rules as answers.
ghost use Rattle.std.specs.Prelude.{◌≡◌};

use ae_text::{Deny, Refusal, Rule, Spot};

/// The answer where a premise fails: the rule that is broken, and where. Takes no memory.
pub fn deny(rule: Rule, at: Spot) -> Deny
    ensures { result ≡ Deny.Refused (record { rule = rule; at = at }) }
{
    Deny::Refused(Refusal { rule, at })
}
