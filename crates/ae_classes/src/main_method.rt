// The fourth clause: the main method.
ghost use Rattle.std.specs.Prelude.{◌≡◌};
ghost use Rattle.ae_tree.specs.Shown.{code, definition};
ghost use Rattle.ae_rules.specs.Answers.{Answers, done};
ghost use Rattle.ae_rules.specs.Table as spec;
ghost use Rattle.ae_classes.specs.Classes.{GivesTops};

use crate::answer::deny;
use crate::lookups::top_called;
use ae_text::{Deny, Rule, Spot};
use ae_tree::{GroupNeed, IO, KindAt, MAIN, Method, Name, Need, Param, PermAt, Program, Ty};
use indexmap::IndexMap;

// A parameter of unique integers that come back.
fn is_args(param: &Param) -> bool
    ensures { result ≡ spec.is_args param.now }
{
    match &param.ty {
        Ty::Object(PermAt::Unique(_), KindAt::Ints(_)) => param.away.is_none(),
        Ty::Int(_) | Ty::Bool(_) | Ty::Object(..) => false,
    }
}

// No parameter, or one of unique integers that come back.
fn are_main_params(params: &[Param]) -> bool
    ensures { result ≡ spec.are_main_params params.now }
{
    match params {
        [] => true,
        [param] => is_args(param),
        _ => false,
    }
}

// No need, or exclusive `io` alone.
fn are_main_needs(needs: &[GroupNeed]) -> bool
    ensures { result ≡ spec.are_main_needs needs.now }
{
    match needs {
        [] => true,
        [need] => need.need == Need::Exclusive && need.group.name == IO,
        _ => false,
    }
}

// A method that a program can begin with.
fn is_main(method: &Method) -> bool
    ensures { result ≡ spec.is_main (definition method.now) }
{
    method.result.is_none()
        && method.groups.is_empty()
        && are_main_params(method.params.as_slice())
        && are_main_needs(method.needs.as_slice())
}

// There is a method at the top that a program can begin with.
pub fn has_main(program: &Program, tops: &IndexMap<Name, u32>) -> Result<(), Deny>
    requires { GivesTops tops.now (code program.now) }
    ensures { Answers (spec.has_main (code program.now)) done result }
{
    match top_called(program, tops, MAIN) {
        Some(method) => {
            if is_main(method) {
                Ok(())
            } else {
                Err(deny(Rule::NoMain, method.name.at))
            }
        }
        None => Err(deny(Rule::NoMain, Spot { line: 1, col: 1 })),
    }
}
