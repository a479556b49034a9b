// What a run that is under way goes on with.
use ae_frames::Left;
use ae_text::Spot;
use ae_tree::{Block, Call, Expr, Method, Name, Stmt, Ty};

/// Where the result of a call goes: nowhere, to a local of this type that is declared with it, or to a local that is
/// there.
#[derive(Clone, Copy)]
pub enum Target<'a> {
    Nowhere,
    New(&'a Ty, Name),
    Old(Name),
}

/// The statements of a block from one on: their method, the fuel with which they run, how deep their call is, and how
/// many names it had where the block began.
#[derive(Clone, Copy)]
pub struct Rest<'a> {
    pub method: &'a Method,
    pub stmts: &'a [Stmt],
    pub fuel: u32,
    pub depth: u32,
    pub mark: usize,
}

/// A loop from a turn on: its method, its place, its test and its block, the fuel with which it runs, and how deep its
/// call is.
#[derive(Clone, Copy)]
pub struct Turns<'a> {
    pub method: &'a Method,
    pub at: Spot,
    pub test: &'a Expr,
    pub body: &'a Block,
    pub fuel: u32,
    pub depth: u32,
}

/// A call whose method runs: its place, what is kept for its end, and where its result goes.
#[derive(Drop)]
pub struct Waiting<'a> {
    pub at: Spot,
    pub call: &'a Call,
    pub left: Left,
    pub target: Target<'a>,
}

/// What is gone on with at one level of a run.
#[derive(Drop)]
pub enum Frame<'a> {
    Rest(Rest<'a>),
    Turns(Turns<'a>),
    Waiting(Waiting<'a>),
}
