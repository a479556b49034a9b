// A whole text, read to the source's end and written to the sink.
ghost use Rattle.std.specs.Prelude.{◌≡◌, ◌≤◌, OnOk, OnErr, IsOk, []};
ghost use Rattle.ae_text.specs.Causes.{Rose, ReadCause};
ghost use Rattle.ae_text.specs.Calls.{AsksAtMost, ReachesEnd};
ghost use Rattle.ae_text.specs.Whole.{ReadsWhole, WritesWhole};

use crate::outside::{Sink, Source};
use sqlite_items::Items;
use std::alloc::Global;

/// The most bytes that a text may have.
pub const MOST: usize = 1_048_576;

const PIECE: usize = 4_096;

/// Memory was refused.
#[derive(Clone, Copy, Debug, PartialEq, Eq)]
pub struct Memory;

/// Why a text was not read.
#[derive(Clone, Copy, Debug, PartialEq, Eq)]
pub enum ReadEnd {
    ReadFault,
    TooLong,
    Memory,
}

/// How much was written before the sink failed.
#[derive(Clone, Copy, Debug, PartialEq, Eq)]
pub struct WriteFault {
    pub done: u64,
}

/// Reads to the end, or to the first byte that is too much.
pub fn read_all<S: Source>(alloc: Global, src: &mut S) -> Result<Items<u8>, ReadEnd>
    ensures bytes { ReadsWhole (S.left src.old) (S.left src.new) result }
    ensures later { S.faults src.old ≤ S.faults src.new }
    ensures cause { ReadCause S.last (S.faults src.old) (S.faults src.new) result }
    ensures asked { AsksAtMost (S.asked src.old) (S.asked src.new) 4096 }
{
    let mut bytes = Vec::new(alloc);
    let mut piece = [0; PIECE];
    while bytes.len() <= MOST {
        let want = (MOST + 1 - bytes.len()).min(PIECE);
        let Ok(count) = src.read(&mut piece[..want]) else {
            return Err(ReadEnd::ReadFault);
        };
        if count == 0 {
            return Ok(Items::from_vec(bytes));
        }
        if bytes.len() + count > MOST {
            return Err(ReadEnd::TooLong);
        }
        if bytes.extend_from_slice(&piece[..count]).is_err() {
            return Err(ReadEnd::Memory);
        }
    }
    Err(ReadEnd::TooLong)
}

/// Writes the whole text, each time offering all that is left.
pub fn write_all<K: Sink>(sink: &mut K, text: &[u8]) -> Result<(), WriteFault>
    ensures bytes { WritesWhole (K.taken sink.old) (K.taken sink.new) text.now result }
    ensures later { K.faults sink.old ≤ K.faults sink.new }
    ensures cause { OnErr result (Rose K.last (K.faults sink.old) (K.faults sink.new)) }
    ensures kept { OnOk result (K.faults sink.new ≡ K.faults sink.old) }
    ensures reach { ReachesEnd (K.reach sink.old) (K.reach sink.new) (K.taken sink.old) text.now }
    ensures nothing { text.now ≡ [] → OnOk result (sink.new ≡ sink.old) × IsOk result }
{
    let mut done = 0;
    while done < text.len() {
        match sink.write(text.split_at(done).1) {
            Ok(count) => done += count,
            Err(_) => return Err(WriteFault { done: done as u64 }),
        }
    }
    Ok(())
}
