// Everything that the program does. A law is called where a proof takes it from the crates below; the call does nothing.
ghost use Rattle.std.specs.Prelude.{◌≡◌, ◌≤◌, ◌↔◌, map, string_bytes, None, Some, IfSome, IfOk, IfErr, length};
ghost use Rattle.ae_text.specs.Causes.{Rose};
ghost use Rattle.ae_tree.specs.Plain.{Code};
ghost use Rattle.ae_tree.specs.Shown.{code};
ghost use Rattle.aem.specs.Small.{IsSource};
ghost use Rattle.aem.specs.Texts.{output, whole_status, status_of};
ghost use Rattle.aem.specs.declared.answer.Command.{Command};
ghost use Rattle.aem.specs.Top.{IsUnread, IsDoneFor, IsAnswer, HasItsCause, IsTold, IsOneAnswer, IsOnlyAnswer};
ghost use Rattle.aem.specs.Top.{IsAsked, IsAnswered, IsComplete, Wrote, IsUsage};

use crate::answer::{Answer, Command, What};
use crate::modes::{checked, denied, drawn, ran};
use crate::texts::{status, text_of};
use crate::words::command;
use ae_parser::{
    parse, programs_are_not_refused, refusals_are_unique, tokens_stand_for_one_program,
};
use ae_rules::{first_broken_rule_is_one, programs_are_never_both};
use ae_text::{
    Deny, Gate, ReadEnd, Refusal, Rule, Sink, Source, Spot, SureSink, SureSource,
    faults_are_unique, lex, read_all, tokens_are_unique, write_all,
};
use ae_tree::Program;
use std::alloc::Global;
use std::thread::Threads;

fn first_refused(rule: Rule) -> What
    ensures { result ≡ What.Refused (record { rule = rule; at = record { line = 1; col = 1 } }) }
{
    What::Refused(Refusal {
        rule,
        at: Spot { line: 1, col: 1 },
    })
}

// The program that a text is, or why it is none.
pub fn read_program(alloc: Global, text: &[u8]) -> Result<Program, Deny>
    requires { length text.now ≤ 1048576 }
    ensures ok { IfOk result (λ p. IsSource text.now (code p)) }
    ensures refused { IfErr result (IsUnread text.now) }
{
    let tokens = match lex(alloc, text) {
        Ok(tokens) => tokens,
        Err(deny) => return Err(deny),
    };
    match parse(alloc, tokens.as_slice()) {
        Ok(program) => Ok(program),
        Err(deny) => Err(deny),
    }
}

// What a text that was read to its end comes to.
fn answer_to<G: Gate>(
    rt: &(impl Threads + Sync),
    alloc: Global,
    command: Command,
    text: &[u8],
    gate: &G,
) -> What
    requires { length text.now ≤ 1048576 }
    ensures { IsAnswer command text.now result }
{
    let program = match read_program(alloc, text) {
        Ok(program) => program,
        Err(deny) => return denied(deny),
    };
    match command {
        Command::Check => checked(alloc, program),
        Command::Graph => drawn(alloc, program),
        Command::Run => ran(rt, alloc, program, gate),
    }
}

// What the words and the source come to, before anything is written.
fn find_answer<S: Source, G: Gate>(
    rt: &(impl Threads + Sync),
    alloc: Global,
    words: &[String],
    source: &mut S,
    gate: &G,
) -> What
    ensures answer { HasItsCause (map string_bytes words.now) (S.left source.old) (S.left source.new) result }
    ensures later { S.faults source.old ≤ S.faults source.new }
    ensures fault { result ≡ What.ReadFault → Rose S.last (S.faults source.old) (S.faults source.new) }
    ensures kept { IsTold result → S.faults source.new ≡ S.faults source.old }
    ensures unread { IsUsage result → source.new ≡ source.old }
{
    let command = match command(words) {
        Ok(command) => command,
        Err(kind) => return What::Usage(kind),
    };
    match read_all(alloc, source) {
        Ok(text) => answer_to(rt, alloc, command, text.as_slice(), gate),
        Err(ReadEnd::ReadFault) => What::ReadFault,
        Err(ReadEnd::TooLong) => first_refused(Rule::TooLong),
        Err(ReadEnd::Memory) => What::Memory,
    }
}

/// The same words and bytes have one answer, and an accepted program has that of its command, but for a failed read and
/// want of memory.
pub fn answers_are_unique()
    ensures one { IsOneAnswer }
    ensures answered { IsAnswered }
{
    tokens_are_unique();
    faults_are_unique();
    refusals_are_unique();
    programs_are_not_refused();
    tokens_stand_for_one_program();
    programs_are_never_both();
    first_broken_rule_is_one();
}

// The same, with the promises that no other answer has a cause there, and that an accepted program is answered.
fn decide<S: Source, G: Gate>(
    rt: &(impl Threads + Sync),
    alloc: Global,
    words: &[String],
    source: &mut S,
    gate: &G,
) -> What
    ensures answer { HasItsCause (map string_bytes words.now) (S.left source.old) (S.left source.new) result }
    ensures only { IsOnlyAnswer (map string_bytes words.now) (S.left source.old) (S.left source.new) result }
    ensures later { S.faults source.old ≤ S.faults source.new }
    ensures fault { result ≡ What.ReadFault → Rose S.last (S.faults source.old) (S.faults source.new) }
    ensures kept { IsTold result → S.faults source.new ≡ S.faults source.old }
    ensures unread { IsUsage result → source.new ≡ source.old }
    ensures complete { ¬ Rose S.last (S.faults source.old) (S.faults source.new)
        → (command : Command) (program : Code)
        → IsAsked (map string_bytes words.now) (S.left source.old) command program
        → IsDoneFor command program result }
{
    answers_are_unique();
    find_answer(rt, alloc, words, source, gate)
}

/// Reads the words and the source, does what they ask for and writes its text. It waits for nobody.
///
/// `Memory` comes only before the first write.
pub fn aeminium<S: Source, K: Sink, G: Gate>(
    rt: &(impl Threads + Sync),
    alloc: Global,
    words: &[String],
    source: &mut S,
    sink: &mut K,
    gate: &G,
) -> Answer
    ensures answer { HasItsCause (map string_bytes words.now) (S.left source.old) (S.left source.new) result.what }
    ensures only { IsOnlyAnswer (map string_bytes words.now) (S.left source.old) (S.left source.new) result.what }
    ensures unread { IsUsage result.what → source.new ≡ source.old }
    ensures source_faults { S.faults source.old ≤ S.faults source.new }
    ensures source_kept { IsTold result.what → S.faults source.new ≡ S.faults source.old }
    ensures read_fault { result.what ≡ What.ReadFault → Rose S.last (S.faults source.old) (S.faults source.new) }
    ensures status { result.status ≡ status_of result.what result.cut }
    ensures written { Wrote (K.taken sink.old) (K.taken sink.new) (output result.what) result.cut }
    ensures sink_faults { K.faults sink.old ≤ K.faults sink.new }
    ensures sink_kept { result.cut ≡ None → K.faults sink.new ≡ K.faults sink.old }
    ensures cut { IfSome result.cut (λ _. Rose K.last (K.faults sink.old) (K.faults sink.new)) }
    ensures unwritten { result.what ≡ What.Memory → sink.new ≡ sink.old }
    ensures complete { ¬ Rose S.last (S.faults source.old) (S.faults source.new)
        → ¬ Rose K.last (K.faults sink.old) (K.faults sink.new)
        → IsComplete (map string_bytes words.now) (S.left source.old) result.what result.cut }
{
    let what = decide(rt, alloc, words, source, gate);
    let Ok(text) = text_of(alloc, &what) else {
        return Answer {
            status: 6,
            what: What::Memory,
            cut: None,
        };
    };
    match write_all(sink, text.as_slice()) {
        Ok(()) => Answer {
            status: status(&what),
            what,
            cut: None,
        },
        Err(fault) => Answer {
            status: 5,
            what,
            cut: Some(fault.done),
        },
    }
}

/// The same over a source and a sink that never fail: an accepted program has the answer of its command, or `Memory`.
pub fn faultless<G: Gate>(
    rt: &(impl Threads + Sync),
    alloc: Global,
    words: &[String],
    source: &mut SureSource,
    sink: &mut SureSink,
    gate: &G,
) -> Answer
    ensures { IsComplete (map string_bytes words.now) (⟦<SureSource as Source>⟧.left source.old) result.what
        result.cut }
{
    aeminium(rt, alloc, words, source, sink, gate)
}
