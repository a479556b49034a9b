// What is bound: locals.
ghost use Rattle.std.specs.Prelude.{◌≡◌, option_map};
ghost use Rattle.ae_values.specs.Environments.{locals_in, bound_under};
ghost use Rattle.ae_reads.specs.Views.{bound_local};

use crate::found::BoundLocal;
use ae_tree::Name;
use ae_values::{Bound, Env};

/// The local that is bound under a name, and none exactly where no value is. Takes no memory.
pub fn local(env: &Env, name: Name) -> Option<BoundLocal<'_>>
    ensures { option_map bound_local result ≡ locals_in (bound_under env.now) name }
{
    match env.get(name) {
        Some(Bound::Value(form, value)) => Some(BoundLocal { form, value }),
        Some(_) => None,
        None => None,
    }
}
