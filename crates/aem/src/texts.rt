// The texts that are printed, and the status that goes with them.
ghost use Rattle.std.specs.Prelude.{◌≡◌, ◌++◌, IfOk, string_bytes, codes};
ghost use Rattle.std.specs.Fmt.{decimal};
ghost use Rattle.ae_text.specs.Rules.{rule_text};
ghost use Rattle.aem.specs.Texts.{refusal_text, ending_text, report_text, feed_after, last_byte, output};
ghost use Rattle.aem.specs.Texts.{ending_status, whole_status, usage_text};

use crate::answer::{Report, What};
use ae_semantics::Ending;
use ae_text::{Items, Refusal};
use std::alloc::{AllocError, Global};

const USAGE: &[u8] =
    b"usage: aem check | aem graph | aem run [--workers N] [--fuel N] [--trace] [--] [INT]... | aem make N\n";

const ACCEPTED: &[u8] = b"accepted\n";

fn refused_line(alloc: Global, rule: &str, line: u32, col: u32) -> Result<String, AllocError>
    ensures { IfOk result (λ t. string_bytes t ≡ codes "refused " ++ rule.now ++ codes " at " ++ decimal line
        ++ codes ":" ++ decimal col ++ codes "\n") }
{
    format!(in alloc; "refused {rule} at {line}:{col}\n")
}

fn trap_line(alloc: Global, code: u8, line: u32, col: u32) -> Result<String, AllocError>
    ensures { IfOk result (λ t. string_bytes t ≡ codes "== trap " ++ decimal code ++ codes " at " ++ decimal line
        ++ codes ":" ++ decimal col ++ codes "\n") }
{
    format!(in alloc; "== trap {code} at {line}:{col}\n")
}

fn fuel_line(alloc: Global, line: u32, col: u32) -> Result<String, AllocError>
    ensures { IfOk result (λ t. string_bytes t ≡ codes "== fuel at " ++ decimal line ++ codes ":" ++ decimal col
        ++ codes "\n") }
{
    format!(in alloc; "== fuel at {line}:{col}\n")
}

fn refusal_line(alloc: Global, refusal: Refusal) -> Result<String, AllocError>
    ensures { IfOk result (λ t. string_bytes t ≡ refusal_text refusal) }
{
    refused_line(
        alloc,
        refusal.rule.printed(),
        refusal.at.line,
        refusal.at.col,
    )
}

fn ending_line(alloc: Global, ending: Ending) -> Result<String, AllocError>
    ensures { IfOk result (λ t. string_bytes t ≡ ending_text ending) }
{
    match ending {
        Ending::Done => String::from_str(alloc, "== done\n"),
        Ending::Trap { code, at } => trap_line(alloc, code, at.line, at.col),
        Ending::Fuel { at } => fuel_line(alloc, at.line, at.col),
    }
}

// The line feed that is missing at the end of what was printed.
fn missing_feed(out: &[u8]) -> &'static [u8]
    ensures { result.now ≡ feed_after (last_byte out.now) }
{
    match out.last() {
        None => b"".as_slice(),
        Some(b'\n') => b"".as_slice(),
        Some(_) => b"\n".as_slice(),
    }
}

fn run_text(alloc: Global, report: &Report) -> Result<Items<u8>, AllocError>
    ensures { IfOk result (λ t. t ≡ report_text report.now) }
{
    let line = ending_line(alloc, report.ending)?;
    let mut text = Items::from_slice(alloc, report.out.as_slice())?;
    text.append(Items::from_slice(alloc, missing_feed(report.out.as_slice()))?)?;
    text.append(Items::from_slice(alloc, line.as_bytes())?)?;
    Ok(text)
}

/// The whole text that is written for an answer.
pub fn text_of(alloc: Global, what: &What) -> Result<Items<u8>, AllocError>
    ensures { IfOk result (λ t. t ≡ output what.now) }
{
    match what {
        What::Usage(_) => Items::from_slice(alloc, USAGE),
        What::Refused(refusal) => {
            let line = refusal_line(alloc, *refusal)?;
            Items::from_slice(alloc, line.as_bytes())
        }
        What::Checked => Items::from_slice(alloc, ACCEPTED),
        What::Graph(text) => Items::from_slice(alloc, text.as_slice()),
        What::Ran(report) => run_text(alloc, report),
        What::ReadFault | What::Memory => Ok(Items::new(alloc)),
    }
}

fn status_at(ending: Ending) -> u8
    ensures { result ≡ ending_status ending }
{
    match ending {
        Ending::Done => 0,
        Ending::Trap { .. } | Ending::Fuel { .. } => 1,
    }
}

/// The status of the process where the whole text was written.
pub fn status(what: &What) -> u8
    ensures { result ≡ whole_status what.now }
{
    match what {
        What::Usage(_) => 3,
        What::ReadFault => 4,
        What::Refused(_) => 2,
        What::Checked => 0,
        What::Graph(_) => 0,
        What::Ran(report) => status_at(report.ending),
        What::Memory => 6,
    }
}
