// The graph of a block.
ghost use Rattle.std.specs.Prelude.{◌≡◌, ◌<◌, ◌≤◌, ◌^◌, List, [], length, IfOk, IsSome, MatchOption, Some, None};
ghost use Rattle.std.specs.Prelude.{count_by, find, nat_eq, option_map};
ghost use Rattle.ae_tree.specs.Plain.{Code};
ghost use Rattle.ae_tree.specs.Shown.{code as plain, definition};
ghost use Rattle.ae_tree.specs.Limits.{Within};
ghost use Rattle.ae_tree.specs.WellShaped.{WellShaped};
ghost use Rattle.ae_rules.specs.Edges.{BlockUses};
ghost use Rattle.ae_rules.specs.Lookups.{method_at};
ghost use Rattle.ae_rules.specs.Judges.{Accepts};
ghost use Rattle.ae_rules.specs.Blocks as rules;
ghost use Rattle.ae_rules.specs.Blocks.{Opened, scene_graph, scene_numbered};
ghost use Rattle.ae_judge.specs.Tabled.{code_of};
ghost use Rattle.ae_scope.specs.Scope.{Empty};
ghost use Rattle.ae_uses.specs.Opened.{AreFootprints};
ghost use Rattle.ae_graph.specs.Graph.{IsGraphOf, AreSuccs, preds_in, edges_from, is_free};
ghost use Rattle.ae_graph.specs.Drawn.{AreOfSome, AreDrawable, IsDrawable};

use crate::drawable::{drawable_blocks, empty_scope};
use crate::preds::preds_of;
use crate::succs::{edges_of, succs_of};
use ae_bodies::tabled_of;
use ae_code::{Checked, Method, Program};
use ae_judge::Tabled;
use ae_rules::Footprint;
use ae_scope::Scope;
use ae_text::{Edge, Items, Memory};
use ae_uses::OpenedBlock;
use std::alloc::{AllocError, Global};
use std::marker::Model;

/// For each statement of a block, those for which it waits and those that wait for it.
/// Contracts see the list of the former.
#[derive(Drop)]
pub struct BlockGraph {
    preds: Items<Items<u32>>,
    succs: Items<Items<u32>>,
    edges: Items<Edge>,
}

impl Model for BlockGraph {
    ghost use Rattle.std.specs.Prelude.{◌≡◌, ◌<◌, ◌^◌, List, ℕ, length};
    ghost use Rattle.ae_graph.specs.Graph.{AreAllSuccs, edges_from};

    ghost Value = { List (List ℕ) };

    ghost view = { λ g. g.preds };

    ghost invariant = { λ g. AreAllSuccs g.preds g.succs × (g.edges ≡ edges_from 0 g.preds) × (length g.preds < 2 ^ 32) };
}

// The graph of statements that use these.
pub fn graph_by(alloc: Global, footprints: &[Footprint]) -> Result<BlockGraph, AllocError>
    requires few { length footprints.now ≤ 1024 }
    requires used { AreOfSome footprints.now }
    ensures { (uses : BlockUses) → AreFootprints uses (length footprints.now) footprints.now
        → IfOk result (IsGraphOf uses (length footprints.now)) }
{
    let preds = preds_of(alloc, footprints)?;
    let succs = succs_of(alloc, preds.as_slice())?;
    let edges = edges_of(alloc, preds.as_slice())?;
    Ok(BlockGraph {
        preds,
        succs,
        edges,
    })
}

// The graph of a block.
pub fn graph_drawn(alloc: Global, opened: &OpenedBlock) -> Result<BlockGraph, AllocError>
    requires { (p : Code) × (x : Opened) × IsDrawable p x opened.now }
    ensures { (p : Code) (x : Opened) → IsDrawable p x opened.now → IfOk result (λ g. g ≡ scene_graph p x.1) }
{
    graph_by(alloc, opened.uses.as_slice())
}

// The method with this number.
pub fn method_in(program: &Program, number: u32) -> Option<&Method>
    ensures { MatchOption result (method_at (plain program.now) number ≡ None)
        (λ m. method_at (plain program.now) number ≡ Some (definition m.now)) }
{
    program.methods.get(number as usize)
}

// The first of these blocks with this number.
fn numbered(blocks: &[OpenedBlock], number: u32) -> Option<&OpenedBlock>
    ensures { MatchOption result (find (λ (o : _). nat_eq o.no number) blocks.now ≡ None)
        (λ o. find (λ (o : _). nat_eq o.no number) blocks.now ≡ Some o.now) }
{
    for block in blocks {
        if block.no == number {
            return Some(block);
        }
    }
    None
}

// The graph of the block with this number among these, one of which has it.
fn graph_among(alloc: Global, blocks: &[OpenedBlock], number: u32) -> Result<BlockGraph, AllocError>
    requires { (p : Code) × (xs : List Opened) × AreDrawable p xs blocks.now
        × IsSome (option_map (scene_graph p) (scene_numbered number xs)) }
    ensures { (p : Code) (xs : List Opened) → AreDrawable p xs blocks.now
        → IfOk result (λ g. option_map (scene_graph p) (scene_numbered number xs) ≡ Some g) }
{
    let Some(opened) = numbered(blocks, number) else {
        unreachable!()
    };
    graph_drawn(alloc, opened)
}

// The graph of a block, by the number of its method and its own.
fn graph_in(
    tabled: &Tabled,
    method: u32,
    block: u32,
    scope: &mut Scope,
) -> Result<BlockGraph, Memory>
    requires accepted { Accepts (code_of tabled.now) }
    requires shaped { WellShaped (code_of tabled.now) }
    requires within { Within (code_of tabled.now) }
    requires block { IsSome (rules.graph_of (code_of tabled.now) method block) }
    requires empty { Empty (length tabled.now.program.now.names) scope.old }
    ensures { IfOk result (λ g. rules.graph_of (code_of tabled.now) method block ≡ Some g) }
{
    let Some(method) = method_in(tabled.program, method) else {
        unreachable!()
    };
    let blocks = drawable_blocks(tabled, method, scope)?;
    match graph_among(tabled.alloc, blocks.as_slice(), block) {
        Ok(graph) => Ok(graph),
        Err(_) => Err(Memory),
    }
}

// How many statements wait for none.
fn count_free(preds: &[Items<u32>]) -> u32
    requires { length preds.now < 2 ^ 32 }
    ensures { result ≡ count_by is_free preds.now }
{
    let mut free = 0;
    for waits in preds {
        if waits.as_slice().is_empty() {
            free += 1;
        }
    }
    free
}

impl BlockGraph {
    /// The graph of a block of an accepted program within the limits, by the number of its method and its own. Atomic
    /// blocks, and blocks in one, have none. Nothing is refused but for memory.
    pub fn of(alloc: Global, code: &Checked, method: u32, block: u32) -> Result<BlockGraph, Memory>
        requires shaped { WellShaped (plain code.now.program) }
        requires within { Within (plain code.now.program) }
        requires block { IsSome (rules.graph_of (plain code.now.program) method block) }
        ensures { IfOk result (λ g. rules.graph_of (plain code.now.program) method block ≡ Some g) }
    {
        let tabled = tabled_of(alloc, code);
        let mut scope = empty_scope(alloc, tabled.program.names.len())?;
        graph_in(&tabled, method, block, &mut scope)
    }

    /// All edges, by `to` and then by `from`.
    pub fn edges(&self) -> &[Edge]
        ensures { result.now ≡ edges_from 0 self.now }
    {
        self.edges.as_slice()
    }

    /// How many statements the block has.
    pub fn len(&self) -> usize
        ensures len { result ≡ length self.now }
        ensures few { length self.now < 2 ^ 32 }
    {
        self.preds.len()
    }

    /// The statements for which statement `j` waits, rising.
    pub fn preds(&self, j: u32) -> &[u32]
        requires { j < length self.now }
        ensures { result.now ≡ preds_in self.now j }
    {
        self.preds.as_slice()[j as usize].as_slice()
    }

    /// The statements that wait for statement `i`, rising.
    pub fn succs(&self, i: u32) -> &[u32]
        requires { i < length self.now }
        ensures { AreSuccs self.now i result.now }
    {
        self.succs.as_slice()[i as usize].as_slice()
    }
    /// How many statements wait for none.
    pub fn wide(&self) -> u32
        ensures { result ≡ count_by is_free self.now }
    {
        count_free(self.preds.as_slice())
    }

    // For each statement those for which it waits.
    pub fn rows(&self) -> &[Items<u32>]
        ensures rows { result.now ≡ self.now }
        ensures few { length self.now < 2 ^ 32 }
    {
        self.preds.as_slice()
    }
}
