// The method that a call calls.
ghost use Rattle.std.specs.Prelude.{◌≡◌, MatchOption, None, Some, IfOk, IfSome};
ghost use Rattle.ae_tree.specs.Shown.{definition, invocation};
ghost use Rattle.ae_rules.specs.Lookups as lookup;
ghost use Rattle.ae_rules.specs.Calls.{top_callee, callee_of};
ghost use Rattle.ae_semantics.specs.Calls.{called_method};
ghost use Rattle.ae_judge.specs.Tabled.{code_of};
ghost use Rattle.ae_calls.specs.Callee.{callee_shown};
ghost use Rattle.ae_reads.specs.Answers.{ReadsAs};
ghost use Rattle.ae_running.specs.Seen.{seen};

use ae_calls::{Callee, method_at};
use ae_judge::{ClassAt, Tabled, bare_names, class_of, groups_of, member_called};
use ae_reads::Stop;
use ae_rules::Member;
use ae_running::{Running, walk};
use ae_text::Items;
use ae_tree::{Call, Form, Name};
use std::alloc::AllocError;

// The number of a class's method with this name.
#[tactic(auto, using(ae_judge::proofs::LookupLemmas::member_methods))]
fn method_number(tabled: &Tabled, class: ClassAt, name: Name) -> Option<u32>
    requires { lookup.class_at (code_of tabled.now) class.number ≡ Some class.class.now }
    ensures { result ≡ lookup.method_number (code_of tabled.now) class.entry.class.now name }
{
    match member_called(tabled, class, name) {
        Some(Member::Method(number)) => Some(number),
        Some(Member::Field(_)) => None,
        None => None,
    }
}

// The method with this name at the top.
fn top_called<'a>(tabled: &'a Tabled, name: Name) -> Option<Callee<'a>>
    ensures callee { MatchOption result (top_callee (code_of tabled.now) name ≡ None)
        (λ k. top_callee (code_of tabled.now) name ≡ Some (callee_shown k)) }
    ensures number { IfSome result (λ k. lookup.method_at (code_of tabled.now) k.number
        ≡ Some (definition k.method.now)) }
{
    match tabled.table.top(name) {
        Some(number) => match method_at(tabled, number) {
            Some(method) => Some(Callee {
                number,
                method,
                names: Items::new(tabled.alloc),
                groups: Items::new(tabled.alloc),
            }),
            None => None,
        },
        None => None,
    }
}

// The method with this name of an object of this form; integers have none.
fn member_of<'a>(
    tabled: &'a Tabled,
    form: &Form,
    name: Name,
) -> Result<Option<Callee<'a>>, AllocError>
    ensures callee { IfOk result (λ o. MatchOption o (callee_of (code_of tabled.now) form.now name ≡ None)
        (λ k. callee_of (code_of tabled.now) form.now name ≡ Some (callee_shown k))) }
    ensures number { IfOk result (λ o. IfSome o
        (λ k. lookup.method_at (code_of tabled.now) k.number ≡ Some (definition k.method.now))) }
{
    match form {
        Form::Int | Form::Bool => Ok(None),
        Form::Object(_, kind) => match class_of(tabled, kind) {
            Some(found) => match method_number(tabled, found, name) {
                Some(number) => match method_at(tabled, number) {
                    Some(method) => {
                        let names = bare_names(tabled.alloc, found.class.groups.as_slice())?;
                        let groups = Items::from_slice(tabled.alloc, groups_of(kind))?;
                        Ok(Some(Callee {
                            number,
                            method,
                            names,
                            groups,
                        }))
                    }
                    None => Ok(None),
                },
                None => Ok(None),
            },
            None => Ok(None),
        },
    }
}

/// The method that a call calls: a member of the class of the object to which the receiver's path leads, or a method at
/// the top. What is not there is a lack. Takes memory for the names of groups alone.
pub(crate) fn callee<'a>(tabled: &'a Tabled, run: &Running, call: &Call) -> Result<Callee<'a>, Stop>
    ensures callee { ReadsAs (called_method (code_of tabled.now) (seen run.now) (invocation call.now)) callee_shown
        result }
    ensures number { IfOk result (λ k. lookup.method_at (code_of tabled.now) k.number
        ≡ Some (definition k.method.now)) }
{
    match &call.on {
        None => match top_called(tabled, call.method.name) {
            Some(callee) => Ok(callee),
            None => Err(Stop::Lack),
        },
        Some(path) => {
            let place = walk(tabled, run, path)?;
            match member_of(tabled, place.form.get(), call.method.name)? {
                Some(callee) => Ok(callee),
                None => Err(Stop::Lack),
            }
        }
    }
}
