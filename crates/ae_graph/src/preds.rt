// For which statements of a block each of its statements waits.
ghost use Rattle.std.specs.Prelude.{◌<◌, ◌^◌, length, IfOk};
ghost use Rattle.ae_rules.specs.Edges.{BlockUses};
ghost use Rattle.ae_uses.specs.Opened.{AreFootprints};
ghost use Rattle.ae_graph.specs.Graph.{IsGraphOf};

use crate::waits::OpenUses;
use ae_rules::Footprint;
use ae_text::Items;
use std::alloc::{AllocError, Global};

// For each statement those for which it waits, in rising order.
pub fn preds_of(alloc: Global, footprints: &[Footprint]) -> Result<Items<Items<u32>>, AllocError>
    requires { length footprints.now < 2 ^ 32 }
    ensures { (uses : BlockUses) → AreFootprints uses (length footprints.now) footprints.now
        → IfOk result (IsGraphOf uses (length footprints.now)) }
{
    let mut past = OpenUses::new(alloc);
    let mut preds = Items::new(alloc);
    for (at, footprint) in footprints.iter().enumerate() {
        let uses = footprint.uses.as_slice();
        preds.push(past.waits(alloc, uses)?)?;
        past.put_all(alloc, at as u32, uses)?;
    }
    Ok(preds)
}
