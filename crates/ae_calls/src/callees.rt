// The method that is called.
ghost use Rattle.std.specs.Prelude.{◌≡◌, MatchOption, None, Some, IfOk};
ghost use Rattle.ae_tree.specs.Form.{bare_names as names_of};
ghost use Rattle.ae_tree.specs.Shown.{definition};
ghost use Rattle.ae_rules.specs.Answers.{Answers};
ghost use Rattle.ae_rules.specs.Lookups as lookup;
ghost use Rattle.ae_rules.specs.Calls as spec;
ghost use Rattle.ae_scope.specs.Scope.{context_of};
ghost use Rattle.ae_judge.specs.Tabled.{code_of};
ghost use Rattle.ae_calls.specs.Callee.{callee_shown};

use ae_judge::{
    ClassAt, Tabled, bare_names, class_of, deny, groups_of, is_object, member_called, walk,
};
use ae_rules::Member;
use ae_scope::Scope;
use ae_text::{Deny, Items, Rule};
use ae_tree::{Form, Method, Name, NameAt, Path};
use std::alloc::AllocError;

/// A method and its number, with the groups of the object that it is called on, and the names that its class has for
/// them.
#[derive(Drop)]
pub struct Callee<'a> {
    pub number: u32,
    pub method: &'a Method,
    pub names: Items<Name>,
    pub groups: Items<Name>,
}

/// The method with this number. Takes no memory.
pub fn method_at<'a>(tabled: &'a Tabled, number: u32) -> Option<&'a Method>
    ensures { MatchOption result (lookup.method_at (code_of tabled.now) number ≡ None)
        (λ m. lookup.method_at (code_of tabled.now) number ≡ Some (definition m.now)) }
{
    tabled.program.methods.get(number as usize)
}

// The number of a class's method with this name.
#[tactic(auto, using(ae_judge::proofs::LookupLemmas::member_methods))]
fn method_number(tabled: &Tabled, class: ClassAt, name: Name) -> Option<u32>
    requires { lookup.class_at (code_of tabled.now) class.number ≡ Some class.class.now }
    ensures { result ≡ lookup.method_number (code_of tabled.now) class.entry.class.now name }
{
    match member_called(tabled, class, name) {
        Some(Member::Method(number)) => Some(number),
        Some(Member::Field(_)) => None,
        None => None,
    }
}

// The method with this name at the top.
fn top_callee<'a>(tabled: &'a Tabled, name: Name) -> Option<Callee<'a>>
    ensures { MatchOption result (spec.top_callee (code_of tabled.now) name ≡ None)
        (λ k. spec.top_callee (code_of tabled.now) name ≡ Some (callee_shown k)) }
{
    match tabled.table.top(name) {
        Some(number) => match method_at(tabled, number) {
            Some(method) => Some(Callee {
                number,
                method,
                names: Items::new(tabled.alloc),
                groups: Items::new(tabled.alloc),
            }),
            None => None,
        },
        None => None,
    }
}

// The method with this name of an object of this form; integers have none.
fn member_callee<'a>(
    tabled: &'a Tabled,
    form: &Form,
    name: Name,
) -> Result<Option<Callee<'a>>, AllocError>
    ensures { IfOk result (λ o. MatchOption o (spec.callee_of (code_of tabled.now) form.now name ≡ None)
        (λ k. spec.callee_of (code_of tabled.now) form.now name ≡ Some (callee_shown k))) }
{
    match form {
        Form::Int | Form::Bool => Ok(None),
        Form::Object(_, kind) => match class_of(tabled, kind) {
            Some(found) => match method_number(tabled, found, name) {
                Some(number) => match method_at(tabled, number) {
                    Some(method) => {
                        let names = bare_names(tabled.alloc, found.class.groups.as_slice())?;
                        let groups = Items::from_slice(tabled.alloc, groups_of(kind))?;
                        Ok(Some(Callee {
                            number,
                            method,
                            names,
                            groups,
                        }))
                    }
                    None => Ok(None),
                },
                None => Ok(None),
            },
            None => Ok(None),
        },
    }
}

/// The method that is called: a member of the receiver's class, or a method at the top. Refused where the receiver's
/// path leads to no object, and where there is no such method.
pub fn judge_callee<'a>(
    tabled: &'a Tabled,
    scope: &Scope,
    on: &Option<Path>,
    name: NameAt,
) -> Result<Callee<'a>, Deny>
    ensures { Answers (spec.judge_callee (code_of tabled.now) (context_of scope.now) on.now name) callee_shown result }
{
    match on {
        None => match top_callee(tabled, name.name) {
            Some(callee) => Ok(callee),
            None => Err(deny(Rule::UnknownMethod, name.at)),
        },
        Some(path) => {
            let place = walk(tabled, scope, path)?;
            if !is_object(&place.form) {
                return Err(deny(Rule::TypeMismatch, path.root.at));
            }
            match member_callee(tabled, &place.form, name.name)? {
                Some(callee) => Ok(callee),
                None => Err(deny(Rule::UnknownMethod, name.at)),
            }
        }
    }
}
