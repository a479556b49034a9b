// The place of a block among those that are opened, which is filled once its statements were gone through.
ghost use Rattle.std.specs.Prelude.{◌≡◌, ◌++◌, ◌∷◌, [], ℕ, List, length, IfOk, OnOk};
ghost use Rattle.ae_rules.specs.declared.uses.Footprint.{Footprint};
ghost use Rattle.ae_uses.specs.declared.opened.OpenedBlock.{OpenedBlock};

use ae_rules::Footprint;
use ae_text::Items;
use ae_uses::OpenedBlock;
use std::alloc::{AllocError, Global};

// A block is opened: it has its place behind those before.
pub fn open(alloc: Global, no: u32, opened: &mut Vec<OpenedBlock>) -> Result<usize, AllocError>
    ensures place { IfOk result (λ at. at ≡ length opened.old.items) }
    ensures opened { OnOk result (opened.new.items ≡ opened.old.items ++ (record { no = no; uses = [] }) ∷ []) }
{
    let at = opened.len();
    opened.push(OpenedBlock {
        no,
        uses: Items::new(alloc),
    })?;
    Ok(at)
}

// What the statements of an opened block use is known.
pub fn fill(opened: &mut Vec<OpenedBlock>, at: usize, uses: Items<Footprint>)
    ensures { (os rest : List OpenedBlock) (o : OpenedBlock) → opened.old.items ≡ os ++ o ∷ rest → at ≡ length os
        → opened.new.items ≡ os ++ (record { no = o.no; uses = uses }) ∷ rest }
{
    match opened.get_mut(at) {
        Some(block) => block.uses = uses,
        None => {}
    }
}
