// What a call hands over, and the parameters that take it.
ghost use Rattle.ae_values.specs.Shown.{IsMeasured};

use ae_calls::ParamSlot;
use ae_reads::Base;
use ae_tree::Name;
use ae_values::Val;

/// The place from which a value was read: the tree, and the numbers of the fields that lead to the place in it.
#[derive(Drop)]
pub struct Origin {
    pub base: Base,
    pub fields: Vec<u32>,
}

/// An argument's value, and where it was read from where it is that of a path.
#[derive(Drop)]
pub struct Arg {
    pub value: Val,
    pub from: Option<Origin>,
    pub ghost measured: { IsMeasured value },
}

/// A parameter, or the receiver: its name, its form in the method, and whether the caller gets nothing back.
#[derive(Drop)]
pub struct Parameter {
    pub name: Name,
    pub slot: ParamSlot,
}

/// A value that stands in a local, at the place to which these fields lead.
#[derive(Drop)]
pub struct Standing {
    pub name: Name,
    pub fields: Vec<u32>,
}

/// What an argument comes to before the call begins: a value of its own, or one that stands in a local of the caller
/// and that is not the caller's while the method runs, so that it needs no copy.
#[derive(Drop)]
pub enum Asked {
    Read(Arg),
    Stands(Standing),
}
