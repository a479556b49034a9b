// Values that are looked at where they stand.
ghost use Rattle.std.specs.Prelude.{◌≡◌, IfOk};
ghost use Rattle.ae_semantics.specs.Expressions as spec;
ghost use Rattle.ae_values.specs.Shown.{shown, IsMeasured};
ghost use Rattle.ae_reads.specs.Answers.{ReadsAs, as_it_is};
ghost use Rattle.ae_reads.specs.Sights.{seen_value};

use crate::found::{Sight, Tree};
use crate::stop::Stop;
use ae_values::Val;
use std::alloc::{AllocError, Global};

/// A value, looked at. Takes no memory.
#[tactic(auto, using(ae_values::specs::Shown::shows))]
pub fn seen(value: &Val) -> Sight<'_>
    requires { IsMeasured value.now }
    ensures { seen_value result ≡ shown value.now }
{
    match value {
        Val::Int(n) => Sight::Int(*n),
        Val::Bool(b) => Sight::Bool(*b),
        Val::Null => Sight::Null,
        Val::Object(object) => Sight::Object(Tree { object }),
        Val::Ref(n) => Sight::Ref(*n),
    }
}

/// The same value as one of its own. Takes memory for an object alone.
#[tactic(auto, using(ae_values::specs::Shown::shows))]
pub fn copied(alloc: Global, seen: Sight) -> Result<Val, AllocError>
    ensures value { IfOk result (λ v. shown v ≡ seen_value seen.entry) }
    ensures measured { IfOk result IsMeasured }
{
    match seen {
        Sight::Int(n) => Ok(Val::Int(n)),
        Sight::Bool(b) => Ok(Val::Bool(b)),
        Sight::Null => Ok(Val::Null),
        Sight::Object(tree) => {
            let object = tree.object.copy(alloc)?;
            Ok(Val::Object(Box::new(alloc, object)?))
        }
        Sight::Ref(n) => Ok(Val::Ref(n)),
    }
}

/// The value as an integer. Takes no memory.
pub fn number(seen: Sight) -> Result<i64, Stop>
    ensures { ReadsAs (spec.number (seen_value seen.entry)) as_it_is result }
{
    match seen {
        Sight::Int(n) => Ok(n),
        Sight::Bool(_) | Sight::Null | Sight::Object(_) | Sight::Ref(_) => Err(Stop::Lack),
    }
}

/// The value as a truth. Takes no memory.
pub fn truth(seen: Sight) -> Result<bool, Stop>
    ensures { ReadsAs (spec.truth (seen_value seen.entry)) as_it_is result }
{
    match seen {
        Sight::Bool(b) => Ok(b),
        Sight::Int(_) | Sight::Null | Sight::Object(_) | Sight::Ref(_) => Err(Stop::Lack),
    }
}

/// Whether two numbers are the same, or two truths, or null and an object. Takes no memory.
pub fn same(a: Sight, b: Sight) -> Result<bool, Stop>
    ensures { ReadsAs (spec.same (seen_value a.entry) (seen_value b.entry)) as_it_is result }
{
    match a {
        Sight::Int(m) => match b {
            Sight::Int(n) => Ok(m == n),
            Sight::Bool(_) | Sight::Null | Sight::Object(_) | Sight::Ref(_) => Err(Stop::Lack),
        },
        Sight::Bool(m) => match b {
            Sight::Bool(n) => Ok(m == n),
            Sight::Int(_) | Sight::Null | Sight::Object(_) | Sight::Ref(_) => Err(Stop::Lack),
        },
        Sight::Null => match b {
            Sight::Null => Ok(true),
            Sight::Object(_) | Sight::Ref(_) => Ok(false),
            Sight::Int(_) | Sight::Bool(_) => Err(Stop::Lack),
        },
        Sight::Object(_) | Sight::Ref(_) => match b {
            Sight::Null => Ok(false),
            Sight::Int(_) | Sight::Bool(_) | Sight::Object(_) | Sight::Ref(_) => Err(Stop::Lack),
        },
    }
}
