// Which statements can be run.
ghost use Rattle.std.specs.Prelude.{◌≡◌, ◌<◌, ◌≤◌, ◌+◌, ℕ, nat_eq, if◌then◌else◌, length, All, IfOk, IfSome, OnOk};
ghost use Rattle.std.specs.Prelude.{MatchOption, IsPermutation, [], ◌∷◌, ◌++◌, slice_index, slice_index_or};
ghost use Rattle.std.specs.Prelude.{slice_set};
ghost use Rattle.std.specs.BinaryHeap.{heap_items, IsHeap};
ghost use Rattle.std.specs.Ordering.{nat_cmp};
ghost use Rattle.std.proofs.Props.{props};
ghost use Rattle.ae_graph.specs.Graph.{preds_in};
ghost use Rattle.ae_run.specs.Queue.{zero_as_one, waits_of};
ghost use Rattle.ae_text.specs.Numbers.{times};

use ae_graph::BlockGraph;
use std::alloc::{AllocError, Global};
use std::collections::BinaryHeap;

/// For how many statements each one waits, and those that wait for none, until they are taken.
#[derive(Drop)]
pub struct Queue {
    pub waits: Vec<usize>,
    pub ready: BinaryHeap<u32>,
    ghost ordered: { IsHeap nat_cmp (heap_items ready) } by { Prim.hlevel props },
}

impl Queue {
    // No statement waits, and none is ready.
    fn empty(alloc: Global) -> Queue
        ensures waits { result.waits.items ≡ [] }
        ensures ready { heap_items result.ready ≡ [] }
    {
        Queue {
            waits: Vec::new(alloc),
            ready: BinaryHeap::new(alloc),
        }
    }

    // One more statement, which waits for so many.
    fn add(&mut self, left: usize) -> Result<(), AllocError>
        ensures waits { OnOk result (self.new.waits.items ≡ self.old.waits.items ++ left ∷ []) }
        ensures ready { self.new.ready ≡ self.old.ready }
    {
        self.waits.push(left)?;
        Ok(())
    }

    // The statement is ready where it waits for none.
    fn admit(&mut self, j: u32, left: usize) -> Result<(), AllocError>
        ensures waits { self.new.waits.items ≡ self.old.waits.items }
        ensures ready { OnOk result ((i : ℕ) → times i (heap_items self.new.ready)
            ≡ (if nat_eq j i then zero_as_one left else 0) + times i (heap_items self.old.ready)) }
    {
        if left == 0 {
            self.ready.push(j)?;
        }
        Ok(())
    }

    /// Each statement waits for all its predecessors.
    pub fn new(alloc: Global, graph: &BlockGraph, count: u32) -> Result<Queue, AllocError>
        requires { length graph.now ≡ count }
        ensures size { IfOk result (λ q. length q.waits.items ≡ count) }
        ensures waits { IfOk result (λ q. (j : ℕ) → j < count → slice_index q.waits.items j
            ≡ length (preds_in graph.now j)) }
        ensures ready { IfOk result (λ q. (j : ℕ) → times j (heap_items q.ready)
            ≡ zero_as_one (waits_of q.waits.items j)) }
    {
        let mut queue = Queue::empty(alloc);
        for j in 0..count {
            let preds = graph.preds(j).len();
            queue.add(preds)?;
            queue.admit(j, preds)?;
        }
        Ok(queue)
    }

    /// Takes the ready statement with the greatest number.
    pub fn take(&mut self) -> Option<u32>
        ensures waits { self.new.waits.items ≡ self.old.waits.items }
        ensures ready { MatchOption result (length (heap_items self.old.ready) ≡ 0)
            (λ j. IsPermutation (heap_items self.old.ready) (j ∷ heap_items self.new.ready)) }
        ensures greatest { IfSome result (λ j. All (λ i. i ≤ j) (heap_items self.new.ready)) }
    {
        self.ready.pop()
    }

    // The statement waits for one less. Says for how many then.
    fn lower(&mut self, j: u32) -> usize
        requires within { j < length self.old.waits.items }
        requires some { 1 ≤ slice_index self.old.waits.items j }
        ensures left { result + 1 ≡ slice_index self.old.waits.items j }
        ensures waits { self.new.waits.items ≡ slice_set self.old.waits.items j result }
        ensures ready { self.new.ready ≡ self.old.ready }
    {
        let left = self.waits[j as usize] - 1;
        self.waits[j as usize] = left;
        left
    }

    /// A statement went through, and these wait for one less. Those that wait for none become ready.
    pub fn release(&mut self, succs: &[u32]) -> Result<(), AllocError>
        requires { (j : ℕ) → times j succs.now ≤ slice_index_or self.old.waits.items j 0 }
        ensures size { length self.new.waits.items ≡ length self.old.waits.items }
        ensures waits { OnOk result ((j : ℕ) → waits_of self.new.waits.items j + times j succs.now
            ≡ waits_of self.old.waits.items j) }
        ensures ready { OnOk result ((j : ℕ) → times j (heap_items self.new.ready) + zero_as_one
            (waits_of self.old.waits.items j) ≡ times j (heap_items self.old.ready) + zero_as_one
            (waits_of self.new.waits.items j)) }
    {
        for succ in succs {
            let left = self.lower(*succ);
            self.admit(*succ, left)?;
        }
        Ok(())
    }
}
