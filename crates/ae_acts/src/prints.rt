// What is printed and asserted.
ghost use Rattle.std.specs.Prelude.{◌≡◌, ◌∷◌, ◌++◌, [], OnOk, OnErr};
ghost use Rattle.std.specs.Fmt.{signed_decimal};
ghost use Rattle.ae_tree.specs.Shown.{expression};
ghost use Rattle.ae_semantics.specs.Meaning as spec;
ghost use Rattle.ae_semantics.specs.Places.{Fine};
ghost use Rattle.ae_values.specs.Shown.{shown};
ghost use Rattle.ae_judge.specs.Tabled.{code_of};
ghost use Rattle.ae_reads.specs.Answers.{ReadsAs};
ghost use Rattle.ae_running.specs.Seen.{seen};
ghost use Rattle.ae_acts.specs.Acts.{asserted_by, printed_by};
ghost use Rattle.ae_acts.specs.Doing.{PrintsAs, IsPrinted, truth_text};

use ae_judge::Tabled;
use ae_reads::Stop;
use ae_running::{Running, truth_of, value_of};
use ae_tree::Expr;
use ae_values::Val;
use std::alloc::{AllocError, Global};

const IS_FALSE: Stop = Stop::Trap(5);

// The number and a line feed.
fn print_number(alloc: Global, out: &mut Vec<u8>, n: i64) -> Result<(), AllocError>
    ensures printed { OnOk result (out.new.items ≡ out.old.items ++ (signed_decimal n ++ 10 ∷ [])) }
    ensures refused { OnErr result (out.new.items ≡ out.old.items) }
{
    let text = format!(in alloc; "{n}\n")?;
    out.extend_from_slice(text.as_bytes())
}

// The word of a truth and a line feed.
fn print_truth(out: &mut Vec<u8>, b: bool) -> Result<(), AllocError>
    ensures printed { OnOk result (out.new.items ≡ out.old.items ++ truth_text b) }
    ensures refused { OnErr result (out.new.items ≡ out.old.items) }
{
    if b {
        out.extend_from_slice(b"true\n")
    } else {
        out.extend_from_slice(b"false\n")
    }
}

// A value and a line feed.
#[tactic(auto, using(ae_values::specs::Shown::shows))]
fn print(alloc: Global, out: &mut Vec<u8>, value: &Val) -> Result<(), Stop>
    ensures { PrintsAs (spec.printed_value (shown value.now)) result out.old.items out.new.items }
{
    match value {
        Val::Int(n) => match print_number(alloc, out, *n) {
            Ok(()) => Ok(()),
            Err(_) => Err(Stop::Memory),
        },
        Val::Bool(b) => match print_truth(out, *b) {
            Ok(()) => Ok(()),
            Err(_) => Err(Stop::Memory),
        },
        Val::Null | Val::Object(_) | Val::Ref(_) => Err(Stop::Lack),
    }
}

/// The value of an expression is printed, a number or a truth, with a line feed. Nothing else changes.
pub fn prints(tabled: &Tabled, run: &mut Running, expr: &Expr) -> Result<(), Stop>
    ensures printed { PrintsAs (printed_by (code_of tabled.now) (expression expr.now) (seen run.old)) result
        run.old.out.items run.new.out.items }
    ensures stays { IsPrinted run.old run.new }
{
    let value = value_of(tabled, run, expr)?;
    print(tabled.alloc, &mut run.out, &value)
}

/// A text is printed as it is. Nothing else changes.
pub fn prints_text(run: &mut Running, text: &[u8]) -> Result<(), Stop>
    ensures printed { PrintsAs (Fine text.now) result run.old.out.items run.new.out.items }
    ensures stays { IsPrinted run.old run.new }
{
    match run.out.extend_from_slice(text) {
        Ok(()) => Ok(()),
        Err(_) => Err(Stop::Memory),
    }
}

/// What an expression asserts: false is trap 5. Nothing changes.
pub fn asserts(tabled: &Tabled, run: &Running, expr: &Expr) -> Result<(), Stop>
    ensures { ReadsAs (asserted_by (code_of tabled.now) (expression expr.now) (seen run.now)) (λ done. seen run.now)
        result }
{
    let holds = truth_of(tabled, run, expr)?;
    if holds { Ok(()) } else { Err(IS_FALSE) }
}
