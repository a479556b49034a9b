// What a program declares under a number or a name.
ghost use Rattle.std.specs.Prelude.{◌≡◌, MatchOption, None, Some};
ghost use Rattle.ae_tree.specs.Shown.{code, definition};
ghost use Rattle.ae_rules.specs.Lookups as spec;
ghost use Rattle.ae_classes.specs.Classes.{GivesClasses, GivesTops};

use ae_tree::{Class, Method, Name, Program};
use indexmap::IndexMap;

// The class with this number.
pub fn class_at(program: &Program, number: u32) -> Option<&Class>
    ensures { MatchOption result (spec.class_at (code program.now) number ≡ None)
        (λ c. spec.class_at (code program.now) number ≡ Some c.now) }
{
    program.classes.get(number as usize)
}

// The method with this number.
pub fn method_at(program: &Program, number: u32) -> Option<&Method>
    ensures { MatchOption result (spec.method_at (code program.now) number ≡ None)
        (λ m. spec.method_at (code program.now) number ≡ Some (definition m.now)) }
{
    program.methods.get(number as usize)
}

/// The class with this name, by the map of classes. Takes no memory.
pub fn class_called<'a>(
    program: &'a Program,
    classes: &IndexMap<Name, u32>,
    name: Name,
) -> Option<&'a Class>
    requires { GivesClasses classes.now (code program.now) }
    ensures { MatchOption result (spec.class_called (code program.now) name ≡ None)
        (λ c. spec.class_called (code program.now) name ≡ Some c.now) }
{
    match classes.get(&name) {
        Some(number) => class_at(program, *number),
        None => None,
    }
}

// The method at the top with this name, by the map of these methods.
pub fn top_called<'a>(
    program: &'a Program,
    tops: &IndexMap<Name, u32>,
    name: Name,
) -> Option<&'a Method>
    requires { GivesTops tops.now (code program.now) }
    ensures { MatchOption result (spec.top_called (code program.now) name ≡ None)
        (λ m. spec.top_called (code program.now) name ≡ Some (definition m.now)) }
{
    match tops.get(&name) {
        Some(number) => method_at(program, *number),
        None => None,
    }
}
