// Writes to fields.
ghost use Rattle.std.specs.Prelude.{◌≡◌, None, Some, [], ◌∷◌};
ghost use Rattle.ae_tree.specs.Shown.{expression};
ghost use Rattle.ae_rules.specs.Verdict.{given};
ghost use Rattle.ae_semantics.specs.Calls.{without_moved};
ghost use Rattle.ae_semantics.specs.Meaning.{stored};
ghost use Rattle.ae_semantics.specs.Places.{with_bound};
ghost use Rattle.ae_judge.specs.Tabled.{code_of};
ghost use Rattle.ae_running.specs.Seen.{seen};
ghost use Rattle.ae_stores.specs.Changes.{ChangesAs, KeepsRest};
ghost use Rattle.ae_stores.specs.Targets.{name_alone};

use crate::moving::{has_value, move_in};
use crate::places::put;
use crate::slots::find_field;
use ae_judge::{Tabled, is_name, name_into};
use ae_reads::Stop;
use ae_running::{Running, value_of};
use ae_tree::{Expr, Name, Path};

// A name that moves away has no value then.
fn move_away(run: &mut Running, name: Name)
    ensures meant { seen run.new ≡ with_bound name None (seen run.old) }
    ensures keeps { KeepsRest run.old run.new }
{
    drop(run.env.take(name));
}

// The same of the name that moves with an expression, if there is one.
fn moves_away(run: &mut Running, name: Option<Name>)
    ensures meant { seen run.new ≡ without_moved (given name [] (λ x. x ∷ [])) (seen run.old) }
    ensures keeps { KeepsRest run.old run.new }
{
    match name {
        Some(name) => move_away(run, name),
        None => {}
    }
}

// A write of any expression, whose value is copied.
fn store_value(tabled: &Tabled, run: &mut Running, path: &Path, expr: &Expr) -> Result<(), Stop>
    ensures changes { ChangesAs (stored (code_of tabled.now) path.now (expression expr.now) (seen run.old)) run.old
        result run.new }
    ensures keeps { KeepsRest run.old run.new }
{
    let value = match value_of(tabled, run, expr) {
        Ok(value) => value,
        Err(stop) => return Err(stop),
    };
    let mut fields = Vec::new(tabled.alloc);
    let slot = match find_field(tabled, run, path, &mut fields) {
        Ok(slot) => slot,
        Err(stop) => return Err(stop),
    };
    match put(run, slot.base, fields.as_slice(), value) {
        Ok(()) => {}
        Err(stop) => return Err(stop),
    }
    moves_away(run, name_into(&slot.form, expr));
    Ok(())
}

// The name that an expression is, without steps.
#[tactic(auto, using(ae_tree::specs::Shown::shows))]
fn named(expr: &Expr) -> Option<Name>
    ensures { result ≡ name_alone (expression expr.now) }
{
    match expr {
        Expr::Path(path) => {
            if is_name(path) {
                Some(path.root.name)
            } else {
                None
            }
        }
        Expr::Int(_, _)
        | Expr::Bool(_, _)
        | Expr::Null(_)
        | Expr::Index(_, _)
        | Expr::Len(_, _)
        | Expr::Paren(_, _)
        | Expr::Not(_, _)
        | Expr::Neg(_, _)
        | Expr::Bin(_, _, _) => None,
    }
}

// A write of an expression that is a name: where its value moves it is not copied.
fn store_name(
    tabled: &Tabled,
    run: &mut Running,
    path: &Path,
    expr: &Expr,
    name: Name,
) -> Result<(), Stop>
    requires alone { name_alone (expression expr.now) ≡ Some name }
    ensures changes { ChangesAs (stored (code_of tabled.now) path.now (expression expr.now) (seen run.old)) run.old
        result run.new }
    ensures keeps { KeepsRest run.old run.new }
{
    if !has_value(run, name) {
        return Err(Stop::Lack);
    }
    let mut fields = Vec::new(tabled.alloc);
    let slot = match find_field(tabled, run, path, &mut fields) {
        Ok(slot) => slot,
        Err(stop) => return Err(stop),
    };
    match name_into(&slot.form, expr) {
        Some(_) => move_in(run, slot.base, fields.as_slice(), name),
        None => {
            let value = match value_of(tabled, run, expr) {
                Ok(value) => value,
                Err(stop) => return Err(stop),
            };
            put(run, slot.base, fields.as_slice(), value)
        }
    }
}

/// `p.f = e`: the expression is evaluated, then the path to the field's object is walked, and the field is written
/// where it stands; a name that moves into the field has no value then. Null on the way is trap 3, and a local or a
/// member that would be too high trap 8. After a fault, and where memory is refused, the run is as it was.
pub fn store(tabled: &Tabled, run: &mut Running, path: &Path, expr: &Expr) -> Result<(), Stop>
    ensures changes { ChangesAs (stored (code_of tabled.now) path.now (expression expr.now) (seen run.old)) run.old
        result run.new }
    ensures keeps { KeepsRest run.old run.new }
{
    match named(expr) {
        Some(name) => store_name(tabled, run, path, expr, name),
        None => store_value(tabled, run, path, expr),
    }
}
