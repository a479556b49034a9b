// What each mode comes to for a program. A law is called where a proof takes it from the crates below; the call does
// nothing.
ghost use Rattle.std.specs.Prelude.{◌≡◌, IfOk};
ghost use Rattle.ae_tree.specs.Built.{Built};
ghost use Rattle.ae_tree.specs.Limits.{Within};
ghost use Rattle.ae_tree.specs.Shown.{code as plain};
ghost use Rattle.ae_tree.specs.WellShaped.{WellShaped};
ghost use Rattle.ae_cases.specs.Laws.{as_whole};
ghost use Rattle.ae_levels.specs.Going.{IsSound};
ghost use Rattle.aem.specs.Small.{HasSource};
ghost use Rattle.aem.specs.declared.answer.Command.{Command};
ghost use Rattle.aem.specs.Top.{denial, IsFound, IsDecided, IsMeant};

use crate::answer::{Report, What};
use crate::built::is_built;
use ae_bodies::tabled_of;
use ae_check::check_program;
use ae_classes::build;
use ae_code::Checked;
use ae_graph::graph_text;
use ae_machine::{Task, evaluate};
use ae_meaning::Ending as TodayEnding;
use ae_rules::broken_rules_are_of_the_language;
use ae_run::run;
use ae_semantics::Ending;
use ae_text::{Deny, Gate, Items, Memory, Refusal, Rule, Spot};
use ae_tree::{Program, derived_programs_are_well_shaped};
use ae_unsplit::{is_unsplit, texts_have_this_free};
use std::alloc::Global;
use std::thread::Threads;

const FUEL: u32 = 100_000;

const WORKERS: u32 = 4;

// What is answered where a layer below refuses, or wants memory.
pub fn denied(deny: Deny) -> What
    ensures { result ≡ denial deny }
{
    match deny {
        Deny::Refused(refusal) => What::Refused(refusal),
        Deny::Memory => What::Memory,
    }
}

// The refusal of a program with a form that the mode does not have yet.
fn not_built() -> Deny
    ensures { result ≡ Deny.Refused (record { rule = Rule.NotBuilt; at = record { line = 1; col = 1 } }) }
{
    Deny::Refused(Refusal {
        rule: Rule::NotBuilt,
        at: Spot { line: 1, col: 1 },
    })
}

// A program is accepted, or why it is refused.
pub fn judge(alloc: Global, program: Program) -> Result<Checked, Deny>
    requires { WellShaped (plain program) }
    ensures { IsFound (plain program) result }
{
    broken_rules_are_of_the_language();
    let table = match build(alloc, &program) {
        Ok(table) => table,
        Err(deny) => return Err(deny),
    };
    check_program(alloc, program, table)
}

/// What the mode `check` comes to: the program is accepted, or refused.
#[tactic(auto, using(crate::proofs::Whole::refusal_is_decided))]
pub fn checked(alloc: Global, program: Program) -> What
    requires { HasSource (plain program) }
    ensures { IsDecided Command.Check (plain program) result }
{
    derived_programs_are_well_shaped();
    match judge(alloc, program) {
        Ok(_) => What::Checked,
        Err(deny) => denied(deny),
    }
}

/// What the mode `graph` comes to: the text of the graphs of a program that is accepted, of any forms, or its refusal.
#[tactic(auto, using(crate::proofs::Whole::refusal_is_decided))]
pub fn drawn(alloc: Global, program: Program) -> What
    requires { HasSource (plain program) }
    ensures { IsDecided Command.Graph (plain program) result }
{
    derived_programs_are_well_shaped();
    let code = match judge(alloc, program) {
        Ok(code) => code,
        Err(deny) => return denied(deny),
    };
    match graph_text(alloc, &code) {
        Ok(text) => What::Graph(text),
        Err(_) => What::Memory,
    }
}

// An ending that is told of a run by the graph, as one of the whole language.
fn whole_ending(ending: TodayEnding) -> Ending
    ensures { result ≡ as_whole ending }
{
    match ending {
        TodayEnding::Done => Ending::Done,
        TodayEnding::Trap { code, at } => Ending::Trap { code, at },
        TodayEnding::Fuel { at } => Ending::Fuel { at },
    }
}

// A run of the statements of `main` in an order that its graph allows.
fn run_by_graph<G: Gate>(
    rt: &(impl Threads + Sync),
    alloc: Global,
    code: &Checked,
    gate: &G,
) -> Result<Report, Memory>
    requires built { Built (plain code.now.program) }
    requires shaped { WellShaped (plain code.now.program) }
    requires within { Within (plain code.now.program) }
    ensures { IfOk result (λ r. IsMeant r (plain code.now.program)) }
{
    match run(rt, alloc, code, &[], FUEL, WORKERS, gate) {
        Ok(report) => Ok(Report {
            ending: whole_ending(report.ending),
            out: report.out,
        }),
        Err(Memory) => Err(Memory),
    }
}

// A run in source order.
fn run_in_order(alloc: Global, code: &Checked) -> Result<Report, Memory>
    requires { IsSound (plain code.now.program) }
    ensures { IfOk result (λ r. IsMeant r (plain code.now.program)) }
{
    let task = Task {
        tabled: tabled_of(alloc, code),
        ints: &[],
        fuel: FUEL,
    };
    match evaluate(&task) {
        Ok(meant) => Ok(Report {
            ending: meant.ending,
            out: Items::from_vec(meant.out),
        }),
        Err(Memory) => Err(Memory),
    }
}

// A run of an accepted program in which nothing is split: by the graph where it has only the forms for which that is
// there, and else in source order.
fn run_accepted<G: Gate>(
    rt: &(impl Threads + Sync),
    alloc: Global,
    code: &Checked,
    gate: &G,
) -> Result<Report, Memory>
    requires sound { IsSound (plain code.now.program) }
    requires within { Within (plain code.now.program) }
    ensures { IfOk result (λ r. IsMeant r (plain code.now.program)) }
{
    if is_built(code.program()) {
        run_by_graph(rt, alloc, code, gate)
    } else {
        run_in_order(alloc, code)
    }
}

/// What the mode `run` comes to: the report of a run, or the program's refusal.
pub fn ran<G: Gate>(rt: &(impl Threads + Sync), alloc: Global, program: Program, gate: &G) -> What
    requires { HasSource (plain program) }
    ensures { IsDecided Command.Run (plain program) result }
{
    derived_programs_are_well_shaped();
    texts_have_this_free();
    if !is_unsplit(&program) {
        return denied(not_built());
    }
    let code = match judge(alloc, program) {
        Ok(code) => code,
        Err(deny) => return denied(deny),
    };
    match run_accepted(rt, alloc, &code, gate) {
        Ok(report) => What::Ran(report),
        Err(Memory) => What::Memory,
    }
}
