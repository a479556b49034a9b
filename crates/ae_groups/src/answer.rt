// What refuses.
ghost use Rattle.std.specs.Prelude.{◌≡◌};

use ae_text::{Deny, Refusal, Rule, Spot};

/// A refusal by a rule, at a place.
pub fn deny(rule: Rule, at: Spot) -> Deny
    ensures { result ≡ Deny.Refused (record { rule = rule; at = at }) }
{
    Deny::Refused(Refusal { rule, at })
}
