// The edges of a block the other way round, and as a list.
ghost use Rattle.std.specs.Prelude.{◌≡◌, ◌<◌, ◌^◌, ◌++◌, [], ◌∷◌, ℕ, List, length, slice_index_or, vec_len, IfOk};
ghost use Rattle.std.specs.Prelude.{OnOk, All};
ghost use Rattle.ae_rules.specs.Edges.{IsRising};
ghost use Rattle.ae_graph.specs.Graph.{AreAllSuccs, edges_to, edges_from};
ghost use Rattle.ae_graph.specs.Succs.{AreEarlier, JoinsWaiters};

use ae_text::{Edge, Items};
use std::alloc::{AllocError, Global};

// No statement has one that waits for it.
fn nobody(alloc: Global, count: usize) -> Result<Vec<Items<u32>>, AllocError>
    ensures len { IfOk result (λ v. length v.items ≡ count) }
    ensures empty { IfOk result (λ v. All (λ waiters. waiters ≡ []) v.items) }
{
    let mut succs = Vec::new(alloc);
    for _ in 0..count {
        succs.push(Items::new(alloc))?;
    }
    Ok(succs)
}

// A statement joins those that wait for each of these.
fn join(succs: &mut Vec<Items<u32>>, froms: &[u32], to: u32) -> Result<(), AllocError>
    requires rising { IsRising froms.now }
    requires within { All (λ i. i < length succs.old.items) froms.now }
    ensures { OnOk result (JoinsWaiters froms.now to succs.old.items succs.new.items) }
{
    for from in froms {
        let waiters = &mut succs[*from as usize];
        waiters.push(to)?;
    }
    Ok(())
}

// For each statement those that wait for it, in rising order.
pub fn succs_of(alloc: Global, preds: &[Items<u32>]) -> Result<Items<Items<u32>>, AllocError>
    requires few { length preds.now < 2 ^ 32 }
    requires earlier { AreEarlier preds.now }
    ensures { IfOk result (AreAllSuccs preds.now) }
{
    let mut succs = nobody(alloc, preds.len())?;
    for (at, froms) in preds.iter().enumerate() {
        join(&mut succs, froms.as_slice(), at as u32)?;
    }
    Ok(Items::from_vec(succs))
}

fn put_edges(edges: &mut Items<Edge>, froms: &[u32], to: u32) -> Result<(), AllocError>
    ensures { OnOk result (edges.new ≡ edges.old ++ edges_to to froms.now) }
{
    for from in froms {
        edges.push(Edge { from: *from, to })?;
    }
    Ok(())
}

// All edges, by `to` and then by `from`.
pub fn edges_of(alloc: Global, preds: &[Items<u32>]) -> Result<Items<Edge>, AllocError>
    requires { length preds.now < 2 ^ 32 }
    ensures { IfOk result (λ edges. edges ≡ edges_from 0 preds.now) }
{
    let mut edges = Items::new(alloc);
    for (at, froms) in preds.iter().enumerate() {
        put_edges(&mut edges, froms.as_slice(), at as u32)?;
    }
    Ok(edges)
}
