// The roots of the object arguments of one call or one new object.
ghost use Rattle.ae_rules.specs.Answers.{Leaves};
ghost use Rattle.ae_rules.specs.Calls as spec;
ghost use Rattle.ae_tree.specs.Shown.{expression};

use ae_judge::{Source, deny, expression_spot, is_unique, source_in};
use ae_text::{Deny, Rule, Spot};
use ae_tree::{Expr, Form, Name, Path};
use std::alloc::{AllocError, Global};
use std::collections::HashSet;

/// The roots of the object arguments so far, and those of them that were for a unique place.
#[derive(Drop)]
pub struct Roots {
    pub used: HashSet<Name>,
    pub alone: HashSet<Name>,
}

impl Roots {
    ghost use Rattle.std.specs.Prelude.{◌≡◌, OnOk};
    ghost use Rattle.ae_calls.specs.Roots.{roots_of};

    /// No roots yet. Takes no memory.
    pub fn new(alloc: Global) -> Roots
        ensures { roots_of result ≡ spec.no_roots }
    {
        Roots {
            used: HashSet::new(alloc),
            alone: HashSet::new(alloc),
        }
    }

    // With one more root.
    fn add(&mut self, unique: bool, root: Name) -> Result<(), AllocError>
        ensures { OnOk result (roots_of self.new ≡ spec.with_root unique root (roots_of self.old)) }
    {
        self.used.insert(root)?;
        if unique {
            self.alone.insert(root)?;
        }
        Ok(())
    }

    /// One more root. Refused where it was used before, and one of the two uses is for a unique place.
    pub fn root_apart(&mut self, unique: bool, path: &Path, at: Spot) -> Result<(), Deny>
        ensures { Leaves (spec.root_apart unique path.now at (roots_of self.old)) (roots_of self.new) result }
    {
        let root = path.root.name;
        if self.alone.contains(&root) || (unique && self.used.contains(&root)) {
            return Err(deny(Rule::UsedTwice, at));
        }
        self.add(unique, root)?;
        Ok(())
    }

    /// The root of one more argument for a form. What is no object, and `null`, has none.
    pub fn apart(&mut self, form: &Form, expr: &Expr) -> Result<(), Deny>
        ensures { Leaves (spec.apart form.now (expression expr.now) (roots_of self.old)) (roots_of self.new) result }
    {
        match form {
            Form::Int | Form::Bool => Ok(()),
            Form::Object(..) => match source_in(expr) {
                Some(found) => match found {
                    Source::Null => Ok(()),
                    Source::From(path) => {
                        self.root_apart(is_unique(form), path, expression_spot(expr))?;
                        Ok(())
                    }
                },
                None => Ok(()),
            },
        }
    }
}
