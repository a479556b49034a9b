// Runs a block from a list of ready statements. A law of the meaning is called where a proof takes it from there; the call does nothing.
ghost use Rattle.std.specs.Prelude.{◌≡◌, ◌≤◌, [], length, IfOk, Some, IsSome};
ghost use Rattle.ae_tree.specs.Shown.{code as plain};
ghost use Rattle.ae_tree.specs.Limits.{Within};
ghost use Rattle.ae_tree.specs.WellShaped.{WellShaped};
ghost use Rattle.ae_tree.specs.Built.{Built};
ghost use Rattle.ae_meaning.specs.Meaning.{meaning_of_run};
ghost use Rattle.ae_semantics.specs.Means.{seq, bytes};
ghost use Rattle.ae_cases.specs.Laws.{as_whole};
ghost use Rattle.ae_run.specs.Main.{IsMainGraph, main_run};
ghost use Rattle.ae_run.specs.Course.{IsOnCourse, IsOver};

use crate::course::Course;
use crate::queue::Queue;
use ae_cases::today_is_a_case;
use ae_code::Checked;
use ae_graph::BlockGraph;
use ae_meaning::{
    RunReport, accepted_programs_end, statements_add_to_the_log, statements_change_what_they_write,
    statements_read_what_they_use,
};
use ae_rules::names_are_of_the_program;
use ae_text::{Gate, Memory};
use std::alloc::{AllocError, Global};
use std::thread::Threads;

// Runs the statements of the one method, the greatest ready one first, until none is ready that stands before a known
// ending.
fn run_block<G: Gate>(
    alloc: Global,
    code: &Checked,
    graph: &BlockGraph,
    count: u32,
    gate: &G,
) -> Result<Course, AllocError>
    requires size { length graph.now ≡ count }
    requires built { Built (plain code.now.program) }
    requires graph { IsMainGraph (plain code.now.program) graph.now }
    ensures course { IfOk result (IsOnCourse (plain code.now.program)) }
    ensures over { IfOk result (λ c. IsOver graph.now c.fates.items) }
{
    statements_read_what_they_use();
    statements_change_what_they_write();
    let mut queue = Queue::new(alloc, graph, count)?;
    let mut course = Course::new(alloc, count)?;
    while let Some(j) = queue.take() {
        let through = course.settle(alloc, code, j, gate)?;
        if through {
            queue.release(graph.succs(j))?;
        }
    }
    Ok(course)
}

// Runs the one method, which has an ending in source order, and reports that ending and what is printed before it.
fn run_main<G: Gate>(
    alloc: Global,
    code: &Checked,
    graph: &BlockGraph,
    count: u32,
    gate: &G,
) -> Result<RunReport, AllocError>
    requires size { length graph.now ≡ count }
    requires built { Built (plain code.now.program) }
    requires graph { IsMainGraph (plain code.now.program) graph.now }
    requires ends { IsSome (meaning_of_run (main_run (plain code.now.program))).ending }
    ensures ending { IfOk result (λ r. Some r.ending ≡ (meaning_of_run (main_run (plain code.now.program))).ending) }
    ensures out { IfOk result (λ r. r.out ≡ (meaning_of_run (main_run (plain code.now.program))).out) }
{
    statements_add_to_the_log();
    let course = run_block(alloc, code, graph, count, gate)?;
    course.report(alloc)
}

/// Runs an accepted program of the forms that run, within the limits, on one thread, in another order than the written
/// one: of the statements that can be run, the last one in the source comes first. The ending and the output are those
/// of the meaning of the whole language. A statement after a known ending is left out, and a statement that ended
/// leaves out all that wait for it.
///
/// The gate is told of each statement that is run, by its number in the block. `ints`, `fuel` and `workers` are not
/// used yet.
pub fn run<G: Gate>(
    _rt: &(impl Threads + Sync),
    alloc: Global,
    code: &Checked,
    ints: &[i64],
    fuel: u32,
    workers: u32,
    gate: &G,
) -> Result<RunReport, Memory>
    requires built { Built (plain code.now.program) }
    requires shaped { WellShaped (plain code.now.program) }
    requires within { Within (plain code.now.program) }
    requires some_workers { 1 ≤ workers }
    requires most_workers { workers ≤ 64 }
    requires some_fuel { 1 ≤ fuel }
    requires most_fuel { fuel ≤ 1000000 }
    requires most_ints { length ints.now ≤ 100000 }
    ensures ending { IfOk result (λ r. Some (as_whole r.ending) ≡ (seq (plain code.now.program) ints.now fuel).ending) }
    ensures out { IfOk result (λ r. r.out ≡ bytes (seq (plain code.now.program) ints.now fuel) []) }
{
    names_are_of_the_program();
    accepted_programs_end();
    today_is_a_case();
    let graph = BlockGraph::of(alloc, code, 0, 0)?;
    let count = graph.len() as u32;
    run_main(alloc, code, &graph, count, gate).map_err(|_| Memory)
}
