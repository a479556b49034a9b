// A run that is under way.
ghost use Rattle.std.specs.Prelude.{IsTrue};
ghost use Rattle.ae_running.specs.Results.{result_measured};

use ae_values::{Env, Val};

/// What a run has: the environment, what the running method returned, and the bytes printed so far.
#[derive(Drop)]
pub struct Running {
    pub env: Env,
    pub result: Option<Val>,
    pub out: Vec<u8>,
    pub ghost measured: { IsTrue (result_measured result) },
}
