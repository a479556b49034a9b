// What is kept of a caller.
ghost use Rattle.std.specs.Prelude.{IsTrue};
ghost use Rattle.ae_running.specs.Results.{result_measured};

use crate::opening::Waiting;
use ae_tree::Name;
use ae_values::Val;

/// What is kept of a caller while the method that it called runs: from where on its names wait, which parameters come
/// back where to, which groups were lent, which names were given away, and what it had returned.
#[derive(Drop)]
pub struct Left {
    pub waiting: Waiting,
    pub gone: Vec<Name>,
    pub result: Option<Val>,
    pub ghost measured: { IsTrue (result_measured result) },
}
