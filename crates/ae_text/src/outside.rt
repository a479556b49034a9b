// A source of bytes and a sink for them, each with a count of its faults.
ghost use Rattle.std.specs.Prelude.{◌<◌, ◌≤◌, List, ℕ, length, IfOk, Option, None};
ghost use Rattle.std.specs.Io.{ReadsAtMost, WritesAtMost};
ghost use Rattle.std.specs.Io.KnownBytes.{ReadConsumes, WriteAppends};
ghost use Rattle.ae_text.specs.Causes.{HasCause};
ghost use Rattle.ae_text.specs.Calls.{Asks, Reaches};

/// A call of a source or a sink that came to nothing.
#[derive(Clone, Copy, Debug)]
pub struct Failed;

/// Where bytes come from.
pub trait Source {
    /// The bytes still to come, where it tells them.
    ghost left: { Self → Option (List ℕ) };

    /// How often it failed.
    ghost faults: { Self → ℕ };

    /// The last value of that count, where it has one: a fault leaves it there.
    ghost last: { Option ℕ } = { None };

    /// The most bytes that a call asked for so far, where it tells them.
    ghost asked: { Self → Option ℕ } = { λ _. None };

    /// Gives the next bytes at the front of `buf`; none means the end.
    fn read(&mut self, buf: &mut [u8]) -> Result<usize, Failed>
        requires { 0 < length buf.old }
        ensures bound { ReadsAtMost result buf.new }
        ensures bytes { ReadConsumes (left self.old) (left self.new) result buf.new }
        ensures cause { HasCause last (faults self.old) (faults self.new) result }
        ensures asked { Asks (asked self.old) (asked self.new) (length buf.old) };
}

/// Where bytes go.
pub trait Sink {
    /// The bytes accepted so far, where it tells them.
    ghost taken: { Self → Option (List ℕ) };

    /// How often it failed.
    ghost faults: { Self → ℕ };

    /// The last value of that count, where it has one: a fault leaves it there.
    ghost last: { Option ℕ } = { None };

    /// How many bytes it would have with the whole of a piece that it was offered: the least of these numbers so far,
    /// where it tells them.
    ghost reach: { Self → Option ℕ } = { λ _. None };

    /// Accepts at least one byte from the front of `piece`.
    fn write(&mut self, piece: &[u8]) -> Result<usize, Failed>
        requires { 0 < length piece.now }
        ensures some { IfOk result (λ n. 0 < n) }
        ensures bound { WritesAtMost result piece.now }
        ensures bytes { WriteAppends (taken self.old) (taken self.new) result piece.now }
        ensures cause { HasCause last (faults self.old) (faults self.new) result }
        ensures reach { Reaches (reach self.old) (reach self.new) (taken self.old) piece.now };
}

/// Is told when a task runs: `enter` after it began, `leave` before it finishes, with its number in its round.
/// It has no influence on an answer.
pub trait Gate: Sync {
    fn enter(&self, task: u32);

    fn leave(&self, task: u32);
}

/// The gate that does nothing.
#[derive(Clone, Copy, Debug, Default)]
pub struct NoGate;

impl Gate for NoGate {
    fn enter(&self, _task: u32) {}

    fn leave(&self, _task: u32) {}
}
