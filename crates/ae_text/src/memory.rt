// A source and a sink in memory, which fail at the calls that a list names.
ghost use Rattle.std.specs.Prelude.{◌≡◌, ◌≤◌, ◌<◌, ◌+◌, ◌-◌, ◌^◌, ◌⊎◌, [], ◌↔◌, length, take, drop, min, None, Some};
ghost use Rattle.std.specs.Prelude.{IfOk, OnErr, IsErr, IsSome, IsTrue, IsFalse, vec_capacity};
ghost use Rattle.std.specs.Option.{ForSome};
ghost use Rattle.std.specs.Io.{ReadsAtMost, WritesAtMost};
ghost use Rattle.std.specs.Io.KnownBytes.{ReadConsumes, WriteAppends};
ghost use Rattle.ae_text.specs.Causes.{HasCause};
ghost use Rattle.ae_text.specs.Calls.{Asks, Reaches, IsNamed, following};

use crate::outside::{Failed, Sink, Source};
use sqlite_items::Items;
use std::alloc::Global;

// The calls that fail, by number, the number of the next call, and how many failed. A number has 64 bits, and the calls
// past the last one have none.
#[derive(Drop)]
struct Calls {
    fail: Items<u64>,
    next: Option<u64>,
    faults: u128,
    ghost counted: { ForSome next (λ call. faults ≤ call) },
}

impl Calls {
    fn new(fail: Items<u64>) -> Calls
        ensures fail { result.fail ≡ fail }
        ensures next { result.next ≡ Some 0 }
        ensures faults { result.faults ≡ 0 }
    {
        Calls {
            fail,
            next: Some(0),
            faults: 0,
        }
    }

    // Whether the next call is one of those that fail.
    fn is_named(&self) -> bool
        ensures { IsTrue result ↔ IsNamed self.now.next self.now.fail }
    {
        match self.next {
            Some(call) => self.fail.as_slice().contains(&call),
            None => false,
        }
    }

    // Counts a call, and whether it failed.
    fn count(&mut self, failed: bool)
        ensures fail { self.new.fail ≡ self.old.fail }
        ensures next { self.new.next ≡ following self.old.next }
        ensures later { self.old.faults ≤ self.new.faults }
        ensures kept { IsFalse failed → self.new.faults ≡ self.old.faults }
        ensures rose { IsTrue failed → self.new.faults ≡ min (self.old.faults + 1) (2 ^ 128 - 1) }
        ensures exact { IsSome self.old.next → IsTrue failed → self.new.faults ≡ self.old.faults + 1 }
    {
        let next = match self.next {
            Some(call) => call.checked_add(1),
            None => None,
        };
        let faults = if failed {
            self.faults.saturating_add(1)
        } else {
            self.faults
        };
        self.next = next;
        self.faults = faults;
    }
}

/// Gives its bytes, at most `most` a call. The calls in `fail` fail, counted from 0.
#[derive(Drop)]
pub struct MemSource {
    bytes: Items<u8>,
    at: usize,
    most: usize,
    asked: usize,
    calls: Calls,
    ghost within: { at ≤ length bytes },
    ghost some: { 0 < most },
}

impl MemSource {
    pub fn new(bytes: Items<u8>, most: usize, fail: Items<u64>) -> MemSource
        requires { 0 < most }
        ensures bytes { result.bytes ≡ bytes }
        ensures at { result.at ≡ 0 }
        ensures most { result.most ≡ most }
        ensures asked { result.asked ≡ 0 }
        ensures fail { result.calls.fail ≡ fail }
        ensures next { result.calls.next ≡ Some 0 }
        ensures faults { result.calls.faults ≡ 0 }
    {
        MemSource {
            bytes,
            at: 0,
            most,
            asked: 0,
            calls: Calls::new(fail),
        }
    }
}

// The next bytes, as many as there are and as fit.
pub fn give(rest: &[u8], most: usize, buf: &mut [u8]) -> usize
    ensures count { result ≡ min (min (length rest.now) (length buf.old)) most }
    ensures bytes { take result buf.new ≡ take result rest.now }
{
    let count = rest.len().min(buf.len()).min(most);
    buf[..count].copy_from_slice(&rest[..count]);
    count
}

impl Source for MemSource {
    ghost left = { λ s. Some (drop s.at s.bytes) };

    ghost faults = { λ s. s.calls.faults };

    ghost asked = { λ s. Some s.asked };

    fn read(&mut self, buf: &mut [u8]) -> Result<usize, Failed>
        requires { 0 < length buf.old }
        ensures fails { IsErr result ↔ IsNamed self.old.calls.next self.old.calls.fail }
        ensures count { IfOk result (λ n. n ≡ min (min (length self.old.bytes - self.old.at) (length buf.old))
            self.old.most) }
        ensures next { self.new.calls.next ≡ following self.old.calls.next }
        ensures same_fail { self.new.calls.fail ≡ self.old.calls.fail }
        ensures same_bytes { self.new.bytes ≡ self.old.bytes }
        ensures same_most { self.new.most ≡ self.old.most }
        ensures bound { ReadsAtMost result buf.new }
        ensures bytes { ReadConsumes (Some (drop self.old.at self.old.bytes)) (Some (drop self.new.at self.new.bytes))
            result buf.new }
        ensures cause { HasCause None self.old.calls.faults self.new.calls.faults result }
        ensures asked { Asks (Some self.old.asked) (Some self.new.asked) (length buf.old) }
    {
        let failed = self.calls.is_named();
        self.calls.count(failed);
        self.asked = self.asked.max(buf.len());
        if failed {
            return Err(Failed);
        }
        let count = give(&self.bytes.as_slice()[self.at..], self.most, buf);
        self.at += count;
        Ok(count)
    }
}

/// Takes at most `most` bytes a call. The calls in `fail` fail, counted from 0, and those that are refused memory.
///
/// Its count of faults is exact for the first 2^64 calls. Memory may be refused for ever, so it has a last value.
#[derive(Drop)]
pub struct MemSink {
    bytes: Vec<u8>,
    most: usize,
    reach: usize,
    calls: Calls,
    ghost some: { 0 < most },
}

impl MemSink {
    pub fn new(alloc: Global, most: usize, fail: Items<u64>) -> MemSink
        requires { 0 < most }
        ensures bytes { result.bytes.items ≡ [] }
        ensures most { result.most ≡ most }
        ensures reach { result.reach ≡ usize.MAX }
        ensures fail { result.calls.fail ≡ fail }
        ensures next { result.calls.next ≡ Some 0 }
        ensures faults { result.calls.faults ≡ 0 }
    {
        MemSink {
            bytes: Vec::new(alloc),
            most,
            reach: usize::MAX,
            calls: Calls::new(fail),
        }
    }

    pub fn taken(&self) -> &[u8]
        ensures { result.now ≡ self.now.bytes.items }
    {
        self.bytes.as_slice()
    }
}

impl Sink for MemSink {
    ghost taken = { λ s. Some s.bytes.items };

    ghost faults = { λ s. s.calls.faults };

    ghost last = { Some (2 ^ 128 - 1) };

    ghost reach = { λ s. Some s.reach };

    fn write(&mut self, piece: &[u8]) -> Result<usize, Failed>
        requires { 0 < length piece.now }
        ensures named { IsNamed self.old.calls.next self.old.calls.fail → IsErr result }
        ensures fails { OnErr result (IsNamed self.old.calls.next self.old.calls.fail
            ⊎ (vec_capacity self.old.bytes < length self.old.bytes.items + min (length piece.now) self.old.most)) }
        ensures count { IfOk result (λ n. n ≡ min (length piece.now) self.old.most) }
        ensures exact { IsSome self.old.calls.next → OnErr result (self.new.calls.faults ≡ self.old.calls.faults + 1) }
        ensures next { self.new.calls.next ≡ following self.old.calls.next }
        ensures same_fail { self.new.calls.fail ≡ self.old.calls.fail }
        ensures same_most { self.new.most ≡ self.old.most }
        ensures some { IfOk result (λ n. 0 < n) }
        ensures bound { WritesAtMost result piece.now }
        ensures bytes { WriteAppends (Some self.old.bytes.items) (Some self.new.bytes.items) result piece.now }
        ensures cause { HasCause (Some (2 ^ 128 - 1)) self.old.calls.faults self.new.calls.faults result }
        ensures reach { Reaches (Some self.old.reach) (Some self.new.reach) (Some self.old.bytes.items) piece.now }
    {
        self.reach = self.reach.min(self.bytes.len() + piece.len());
        let count = piece.len().min(self.most);
        let named = self.calls.is_named();
        let failed = named || self.bytes.extend_from_slice(&piece[..count]).is_err();
        self.calls.count(failed);
        if failed { Err(Failed) } else { Ok(count) }
    }
}
