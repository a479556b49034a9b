// What a statement uses, and how.
use ae_text::Items;
use ae_tree::Name;

/// A local, or a group of data.
#[derive(Clone, Copy, Debug, PartialEq, Eq)]
pub enum Resource {
    Local(Name),
    Group(Name),
}

/// How a resource is used. Two reads go together, and so do two that share a group.
#[derive(Clone, Copy, Debug, PartialEq, Eq)]
pub enum Mode {
    Read,
    Write,
    GroupShared,
    GroupWhole,
}

/// A resource and how it is used.
#[derive(Clone, Copy, Debug, PartialEq, Eq)]
pub struct Use {
    pub what: Resource,
    pub mode: Mode,
}

/// What a statement uses: locals first, then groups, each by the number of its name, and each once.
#[derive(Drop)]
pub struct Footprint {
    pub uses: Items<Use>,
}
