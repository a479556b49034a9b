// The first clause: each class, and each method at the top, has a name of its own.
ghost use Rattle.std.specs.Prelude.{◌∷◌, ◌++◌, [], List, OnOk, IfOk};
ghost use Rattle.ae_tree.specs.Shown.{code};
ghost use Rattle.ae_tree.specs.WellShaped.{WellShaped};
ghost use Rattle.ae_tree.specs.declared.tree.Decl.{Decl};
ghost use Rattle.ae_rules.specs.Answers.{Answers, Leaves};
ghost use Rattle.ae_rules.specs.Table as spec;
ghost use Rattle.ae_classes.specs.Classes.{GivesClasses, GivesTops, GivesDeclared, declared_in, passed};

use crate::lookups::{class_at, method_at};
use crate::names::put_new;
use ae_text::{Deny, Rule};
use ae_tree::{Decl, Name, Program};
use indexmap::IndexMap;
use std::alloc::Global;

// The classes and the methods at the top, each by its name.
#[derive(Drop)]
pub struct TopNames {
    pub classes: IndexMap<Name, u32>,
    pub tops: IndexMap<Name, u32>,
}

// A declaration has a name of its own, and is there by it then.
fn declares_new(program: &Program, decl: Decl, names: &mut TopNames) -> Result<(), Deny>
    ensures answer { Leaves (spec.declares_new (code program.now) decl (declared_in names.old))
        (declared_in names.new) result }
    ensures gives { OnOk result ((before : List Decl) → GivesDeclared names.old (code program.now) before
        → GivesDeclared names.new (code program.now) (before ++ decl ∷ [])) }
{
    match decl {
        Decl::Class(number) => match class_at(program, number) {
            Some(class) => put_new(Rule::DuplicateClass, class.name, number, &mut names.classes),
            None => Ok(()),
        },
        Decl::Method(number) => match method_at(program, number) {
            Some(method) => put_new(Rule::DuplicateMember, method.name, number, &mut names.tops),
            None => Ok(()),
        },
    }
}

// The classes and the methods at the top by name, in the order of the declarations, where each has a name of its own.
pub fn tops_differ(alloc: Global, program: &Program) -> Result<TopNames, Deny>
    requires { WellShaped (code program.now) }
    ensures answer { Answers (spec.tops_differ (code program.now)) passed result }
    ensures classes { IfOk result (λ names. GivesClasses names.classes (code program.now)) }
    ensures tops { IfOk result (λ names. GivesTops names.tops (code program.now)) }
{
    let mut names = TopNames {
        classes: IndexMap::new(alloc),
        tops: IndexMap::new(alloc),
    };
    for decl in program.decls.as_slice() {
        declares_new(program, *decl, &mut names)?;
    }
    Ok(names)
}
