// The arguments of a new object, each into its field.
ghost use Rattle.std.specs.Prelude.{◌≡◌, ◌++◌, length, map, zip};
ghost use Rattle.ae_tree.specs.Form.{bare_names as names_of};
ghost use Rattle.ae_tree.specs.Shown.{expression};
ghost use Rattle.ae_rules.specs.Answers.{Answers, Leaves};
ghost use Rattle.ae_rules.specs.Verdict.{in_turn};
ghost use Rattle.ae_rules.specs.Lookups.{field_form};
ghost use Rattle.ae_rules.specs.Calls as spec;
ghost use Rattle.ae_scope.specs.Scope.{context_of};
ghost use Rattle.ae_judge.specs.Tabled.{code_of};
ghost use Rattle.ae_calls.specs.Made.{filled_of, made_of};

use crate::roots::Roots;
use ae_judge::{Tabled, bare_names, class_called, deny, field_form, groups_fit, into};
use ae_scope::Scope;
use ae_text::{Deny, Rule};
use ae_tree::{Class, Expr, Form, Kind, Name, NameAt, Perm};
use std::alloc::{AllocError, Global};

/// The arguments of a new object so far: their roots, and the names that moved.
#[derive(Drop)]
pub struct Filled {
    pub roots: Roots,
    pub moved: Vec<Name>,
}

impl Filled {
    ghost use Rattle.std.specs.Prelude.{[], OnOk};
    ghost use Rattle.std.specs.List.{cons_option};
    ghost use Rattle.ae_rules.specs.Context.{Context, with_name_moved};
    ghost use Rattle.ae_rules.specs.Effects.{all_moved};
    ghost use Rattle.ae_calls.specs.Roots.{roots_of};

    // No arguments yet.
    fn new(alloc: Global) -> Filled
        ensures roots { roots_of result.roots ≡ spec.no_roots }
        ensures moved { result.moved.items ≡ [] }
    {
        Filled {
            roots: Roots::new(alloc),
            moved: Vec::new(alloc),
        }
    }

    // The name that moves, behind those before.
    #[tactic(auto, using(crate::proofs::MovedLemmas::moved_last))]
    fn moves(&mut self, name: Option<Name>) -> Result<(), AllocError>
        ensures after { OnOk result ((c : Context)
            → all_moved self.new.moved.items c ≡ with_name_moved name (all_moved self.old.moved.items c)) }
        ensures roots { OnOk result (roots_of self.new.roots ≡ roots_of self.old.roots) }
    {
        match name {
            Some(name) => {
                self.moved.push(name)?;
                Ok(())
            }
            None => Ok(()),
        }
    }

    // One more argument, in the context before the statement.
    fn fill(&mut self, tabled: &Tabled, scope: &Scope, form: &Form, expr: &Expr) -> Result<(), Deny>
        ensures { Leaves (spec.fills (code_of tabled.now) (context_of scope.now) (form.now, expression expr.now)
            (filled_of (context_of scope.now) self.old)) (filled_of (context_of scope.now) self.new) result }
    {
        self.roots.apart(form, expr)?;
        let name = into(tabled, scope, form, expr)?;
        self.moves(name)?;
        Ok(())
    }
}

// As many arguments as a class has fields, each into its field.
fn fill_all(
    tabled: &Tabled,
    scope: &Scope,
    class: &Class,
    groups: &[Name],
    args: &[Expr],
) -> Result<Filled, Deny>
    requires { length args.now ≡ length class.now.fields }
    ensures { Answers (in_turn (spec.fills (code_of tabled.now) (context_of scope.now))
        (zip (map (field_form class.now groups.now) class.now.fields) (map expression args.now))
        (record { roots = spec.no_roots; after = context_of scope.now })) (filled_of (context_of scope.now)) result }
{
    let fields = class.fields.as_slice();
    let mut filled = Filled::new(tabled.alloc);
    for i in 0..args.len() {
        let form = field_form(tabled.alloc, class, groups, &fields[i])?;
        filled.fill(tabled, scope, &form, &args[i])?;
    }
    Ok(filled)
}

// The same, with the object's groups as they are written.
fn fill_new(
    tabled: &Tabled,
    scope: &Scope,
    class: &Class,
    groups: &[NameAt],
    args: &[Expr],
) -> Result<Filled, Deny>
    requires { length args.now ≡ length class.now.fields }
    ensures { Answers (in_turn (spec.fills (code_of tabled.now) (context_of scope.now))
        (zip (map (field_form class.now (names_of groups.now)) class.now.fields) (map expression args.now))
        (record { roots = spec.no_roots; after = context_of scope.now })) (filled_of (context_of scope.now)) result }
{
    let own = bare_names(tabled.alloc, groups)?;
    fill_all(tabled, scope, class, own.as_slice(), args)
}

/// A new object, and the names that moved into it, which hold nothing after the statement.
#[derive(Drop)]
pub struct Made {
    pub value: Form,
    pub moved: Vec<Name>,
}

/// A new object of a class: refused where the class is not declared, where its groups do not fit, where there are not
/// as many arguments as fields, and where an argument does not go into its field, or shares its root with another one
/// and one of both is for a unique field. All is judged as it is before the statement; nothing is changed here.
pub fn judge_new(
    tabled: &Tabled,
    scope: &Scope,
    name: NameAt,
    groups: &[NameAt],
    args: &[Expr],
) -> Result<Made, Deny>
    ensures { Answers (spec.judge_new (code_of tabled.now) (context_of scope.now) name groups.now
        (map expression args.now))
        (made_of (context_of scope.now)) result }
{
    let class = match class_called(tabled, name.name) {
        Some(found) => found.class,
        None => return Err(deny(Rule::UnknownClass, name.at)),
    };
    groups_fit(scope, class.groups.len(), name.at, groups)?;
    if args.len() != class.fields.len() {
        return Err(deny(Rule::ArgumentCount, name.at));
    }
    let filled = fill_new(tabled, scope, class, groups, args)?;
    let own = bare_names(tabled.alloc, groups)?;
    Ok(Made {
        value: Form::Object(Perm::Unique, Kind::Class(name.name, own)),
        moved: filled.moved,
    })
}
