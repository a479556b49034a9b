// A source and a sink in memory that never fail.
ghost use Rattle.std.specs.Prelude.{◌≡◌, ◌<◌, ◌≤◌, ◌+◌, ◌++◌, length, take, drop, Some, None, Ok, IfOk};
ghost use Rattle.std.specs.Io.{WritesAtMost};
ghost use Rattle.std.specs.Io.KnownBytes.{WriteAppends};
ghost use Rattle.ae_text.specs.Causes.{HasCause};
ghost use Rattle.ae_text.specs.Calls.{Reaches};

use crate::memory::give;
use crate::outside::{Failed, Sink, Source};
use crate::whole::Memory;
use sqlite_items::Items;
use std::alloc::Global;

/// Gives its bytes, as many a call as fit. It never fails.
#[derive(Drop)]
pub struct SureSource {
    bytes: Items<u8>,
    at: usize,
    ghost within: { at ≤ length bytes },
}

impl SureSource {
    /// Takes no memory.
    pub fn new(bytes: Items<u8>) -> SureSource
        ensures bytes { result.bytes ≡ bytes }
        ensures at { result.at ≡ 0 }
    {
        SureSource { bytes, at: 0 }
    }
}

impl Source for SureSource {
    ghost left = { λ s. Some (drop s.at s.bytes) };

    ghost faults = { λ _. 0 };

    fn read(&mut self, buf: &mut [u8]) -> Result<usize, Failed> {
        let most = buf.len();
        let count = give(&self.bytes.as_slice()[self.at..], most, buf);
        self.at += count;
        Ok(count)
    }
}

/// Accepts every byte, and keeps those that fit of the room that it took when it was made. It never fails.
#[derive(Drop)]
pub struct SureSink {
    room: Vec<u8>,
    used: usize,
    ghost within: { used ≤ length room.items },
}

impl SureSink {
    /// Takes `room` bytes of memory, and the only refusal is for want of them.
    pub fn new(alloc: Global, room: usize) -> Result<SureSink, Memory>
        ensures room { IfOk result (λ s. length s.room.items ≡ room) }
        ensures used { IfOk result (λ s. s.used ≡ 0) }
    {
        match Vec::from_elem(alloc, 0, room) {
            Ok(room) => Ok(SureSink { room, used: 0 }),
            Err(_) => Err(Memory),
        }
    }

    /// The first bytes that were accepted, as many as there was room for.
    pub fn kept(&self) -> &[u8]
        ensures { result.now ≡ take self.now.used self.now.room.items }
    {
        &self.room[..self.used]
    }
}

// Fills what is free of the room from the front of the piece.
fn keep(room: &mut [u8], used: usize, piece: &[u8]) -> usize
    requires { used ≤ length room.old }
    ensures within { used + result ≤ length room.new }
    ensures length { length room.new ≡ length room.old }
    ensures kept { take (used + result) room.new ≡ take (length room.old) (take used room.old ++ piece.now) }
{
    give(piece, piece.len(), room.split_at_mut(used).1)
}

impl Sink for SureSink {
    ghost taken = { λ _. None };

    ghost faults = { λ _. 0 };

    fn write(&mut self, piece: &[u8]) -> Result<usize, Failed>
        requires { 0 < length piece.now }
        ensures all { result ≡ Ok (length piece.now) }
        ensures kept { take self.new.used self.new.room.items ≡ take (length self.old.room.items)
            (take self.old.used self.old.room.items ++ piece.now) }
        ensures room { length self.new.room.items ≡ length self.old.room.items }
        ensures some { IfOk result (λ n. 0 < n) }
        ensures bound { WritesAtMost result piece.now }
        ensures bytes { WriteAppends None None result piece.now }
        ensures cause { HasCause None 0 0 result }
        ensures reach { Reaches None None None piece.now }
    {
        self.used += keep(&mut self.room, self.used, piece);
        Ok(piece.len())
    }
}
