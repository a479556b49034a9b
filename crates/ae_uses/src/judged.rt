// What a judgement gives where it breaks no rule.
ghost use Rattle.std.specs.Prelude.{◌≡◌, MatchOption, Ok, Err, IfOk, IfErr};
ghost use Rattle.ae_text.specs.declared.refusal.Refusal.{Refusal};
ghost use Rattle.ae_text.specs.declared.refusal.Deny.TheVariants as deny;

use ae_text::Deny;
use std::alloc::AllocError;

/// What a judgement gives, where it breaks no rule, and nothing where it breaks one. An `Err` says that the judgement
/// wanted memory. Takes none.
pub fn where_held<T>(judged: Result<T, Deny>) -> Result<Option<T>, AllocError>
    ensures held { IfOk result (λ o. MatchOption o ((broken : Refusal) × (judged ≡ Err (deny.Refused broken)))
        (λ given. judged ≡ Ok given)) }
    ensures memory { IfErr result (λ _. judged ≡ Err deny.Memory) }
{
    match judged {
        Ok(given) => Ok(Some(given)),
        Err(Deny::Refused(_)) => Ok(None),
        Err(Deny::Memory) => Err(AllocError),
    }
}
