// A block with what its statements use.
use ae_rules::Footprint;
use ae_text::Items;

/// A block of a method under its number, with what each of its statements uses.
#[derive(Drop)]
pub struct OpenedBlock {
    pub no: u32,
    pub uses: Items<Footprint>,
}
