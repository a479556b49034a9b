// New objects: the values of the arguments from left to right, where names that move are taken out and not copied.
ghost use Rattle.std.specs.Prelude.{◌≡◌, ◌∷◌, ◌++◌, [], ◌&&◌, not, map, reverse, is_some, IfOk, OnOk, IsTrue};
ghost use Rattle.ae_tree.specs.Shown.{expression};
ghost use Rattle.ae_rules.specs.Verdict.{given};
ghost use Rattle.ae_rules.specs.Lookups as rules;
ghost use Rattle.ae_semantics.specs.Calls.{without_moved};
ghost use Rattle.ae_semantics.specs.Meaning.{fields_moved};
ghost use Rattle.ae_semantics.specs.Places as place;
ghost use Rattle.ae_semantics.specs.Values as meant;
ghost use Rattle.ae_semantics.specs.Values.{highest};
ghost use Rattle.ae_values.specs.Shown.{shown, shown_tree, fields_shown, all_measured, IsMeasured, IsMeasuredTree};
ghost use Rattle.ae_judge.specs.Tabled.{code_of};
ghost use Rattle.ae_reads.specs.Answers.{ReadsAs};
ghost use Rattle.ae_running.specs.Seen.{seen};
ghost use Rattle.ae_acts.specs.Doing.{Stays, value_in};
ghost use Rattle.ae_acts.specs.Made.{moves_by, names_there, is_this, is_noted, stands_alone, moved_with, shown_in_order};
ghost use Rattle.ae_acts.specs.Made.{new_low};

use crate::changes::{TOO_HIGH, take_out};
use ae_judge::{Tabled, bare_names, class_called, field_form, is_name, name_into};
use ae_reads::{Stop, local};
use ae_running::{Running, value_of};
use ae_tree::{Class, Expr, Field, Name, NameAt};
use ae_values::{Object, Val};
use std::alloc::{AllocError, Global};

// Notes which name moves with each argument into its field, behind those that are noted already.
fn note_moves(
    alloc: Global,
    class: &Class,
    groups: &[Name],
    fields: &[Field],
    args: &[Expr],
    moves: &mut Vec<Option<Name>>,
) -> Result<(), AllocError>
    ensures { OnOk result (moves.new.items
        ≡ moves.old.items ++ moves_by class.now groups.now fields.now (map expression args.now)) }
{
    match fields.split_first() {
        Some((field, others)) => match args.split_first() {
            Some((arg, rest)) => {
                let form = field_form(alloc, class, groups, field)?;
                moves.push(name_into(&form, arg))?;
                note_moves(alloc, class, groups, others, rest, moves)
            }
            None => Ok(()),
        },
        None => Ok(()),
    }
}

// The names that move with the arguments of a new object, one for each argument where one does.
fn moves_of(
    tabled: &Tabled,
    class: Name,
    groups: &[NameAt],
    args: &[Expr],
) -> Result<Vec<Option<Name>>, AllocError>
    ensures { IfOk result (λ ms. names_there ms.items ≡ given (rules.class_called (code_of tabled.now) class) []
        (fields_moved groups.now (map expression args.now))) }
{
    let mut moves = Vec::new(tabled.alloc);
    match class_called(tabled, class) {
        Some(found) => {
            let names = bare_names(tabled.alloc, groups)?;
            note_moves(
                tabled.alloc,
                found.class,
                names.as_slice(),
                found.class.fields.as_slice(),
                args,
                &mut moves,
            )?;
            Ok(moves)
        }
        None => Ok(moves),
    }
}

// Whether it is this name.
fn is_this(noted: Option<Name>, name: Name) -> bool
    ensures { result ≡ is_this noted name }
{
    match noted {
        Some(other) => other == name,
        None => false,
    }
}

// Whether a name is noted.
fn is_noted(moves: &[Option<Name>], name: Name) -> bool
    ensures { result ≡ is_noted moves.now name }
{
    match moves.split_first() {
        Some((first, rest)) => is_this(*first, name) || is_noted(rest, name),
        None => false,
    }
}

// Whether an expression is this name, alone.
#[tactic(auto, using(ae_tree::specs::Shown::shows))]
fn stands_alone(expr: &Expr, name: Name) -> bool
    ensures { result ≡ stands_alone (expression expr.now) name }
{
    match expr {
        Expr::Path(path) => is_name(path) && path.root.name == name,
        Expr::Int(..)
        | Expr::Bool(..)
        | Expr::Null(_)
        | Expr::Index(..)
        | Expr::Len(..)
        | Expr::Paren(..)
        | Expr::Not(..)
        | Expr::Neg(..)
        | Expr::Bin(..) => false,
    }
}

// Whether the value of an argument is taken out of this name, since nothing that comes later moves it again.
fn is_taken(expr: &Expr, name: Name, later: &[Option<Name>]) -> bool
    ensures { result ≡ (stands_alone (expression expr.now) name && not (is_noted later.now name)) }
{
    stands_alone(expr, name) && !is_noted(later, name)
}

// Whether a local has a value.
fn has_value(run: &Running, name: Name) -> bool
    ensures { result ≡ is_some (value_in (seen run.now) name) }
{
    match local(&run.env, name) {
        Some(_) => true,
        None => false,
    }
}

// The names that are noted have no value any more.
fn lose(run: &mut Running, moves: &[Option<Name>])
    ensures left { seen run.new ≡ without_moved (names_there moves.now) (seen run.old) }
    ensures stays { Stays run.old run.new }
{
    match moves.split_first() {
        Some((first, rest)) => match *first {
            Some(name) => {
                let _ = take_out(run, name);
                lose(run, rest);
            }
            None => lose(run, rest),
        },
        None => {}
    }
}

// One value more, behind the others.
fn pushed(mut values: Vec<Val>, value: Val) -> Result<Vec<Val>, AllocError>
    requires value { IsMeasured value }
    requires values { IsTrue (all_measured (reverse values.items)) }
    ensures values { IfOk result (λ vs. shown_in_order vs.items ≡ shown value ∷ shown_in_order values.items) }
    ensures measured { IfOk result (λ vs. IsTrue (all_measured (reverse vs.items))) }
{
    values.push(value)?;
    Ok(values)
}

// The values of arguments, the last first. They are read in their order, and then the names that are noted are
// taken out.
#[cycle(gather)]
fn gather(
    tabled: &Tabled,
    run: &mut Running,
    moves: &[Option<Name>],
    args: &[Expr],
) -> Result<Vec<Val>, Stop>
    ensures done { ReadsAs
        (moved_with (code_of tabled.now) (map expression args.now) (names_there moves.now) (seen run.old))
        (λ vs. (shown_in_order vs.items, seen run.new)) result }
    ensures left { IfOk result (λ vs. seen run.new ≡ without_moved (names_there moves.now) (seen run.old)) }
    ensures measured { IfOk result (λ vs. IsTrue (all_measured (reverse vs.items))) }
    ensures stays { Stays run.old run.new }
{
    match args.split_first() {
        Some((arg, rest)) => match moves.split_first() {
            Some((first, later)) => match *first {
                Some(name) => gather_moved(tabled, run, name, later, arg, rest),
                None => gather_kept(tabled, run, later, arg, rest),
            },
            None => gather_kept(tabled, run, moves, arg, rest),
        },
        None => {
            lose(run, moves);
            Ok(Vec::new(tabled.alloc))
        }
    }
}

// The same, where no name moves with the first argument.
#[cycle(gather)]
fn gather_kept(
    tabled: &Tabled,
    run: &mut Running,
    later: &[Option<Name>],
    arg: &Expr,
    rest: &[Expr],
) -> Result<Vec<Val>, Stop>
    ensures done { ReadsAs (moved_with (code_of tabled.now) (expression arg.now ∷ map expression rest.now)
        (names_there later.now) (seen run.old)) (λ vs. (shown_in_order vs.items, seen run.new)) result }
    ensures left { IfOk result (λ vs. seen run.new ≡ without_moved (names_there later.now) (seen run.old)) }
    ensures measured { IfOk result (λ vs. IsTrue (all_measured (reverse vs.items))) }
    ensures stays { Stays run.old run.new }
{
    let value = value_of(tabled, run, arg)?;
    let values = gather(tabled, run, later, rest)?;
    let all = pushed(values, value)?;
    Ok(all)
}

// The same, where this name moves with the first argument. Its value is taken out after all others were read.
#[cycle(gather)]
fn gather_moved(
    tabled: &Tabled,
    run: &mut Running,
    name: Name,
    later: &[Option<Name>],
    arg: &Expr,
    rest: &[Expr],
) -> Result<Vec<Val>, Stop>
    ensures done { ReadsAs (moved_with (code_of tabled.now) (expression arg.now ∷ map expression rest.now)
        (name ∷ names_there later.now) (seen run.old)) (λ vs. (shown_in_order vs.items, seen run.new)) result }
    ensures left { IfOk result (λ vs. seen run.new ≡ without_moved (name ∷ names_there later.now) (seen run.old)) }
    ensures measured { IfOk result (λ vs. IsTrue (all_measured (reverse vs.items))) }
    ensures stays { Stays run.old run.new }
{
    if is_taken(arg, name, later) {
        if !has_value(run, name) {
            return Err(Stop::Lack);
        }
        let values = gather(tabled, run, later, rest)?;
        match take_out(run, name) {
            Some(value) => {
                let all = pushed(values, value)?;
                Ok(all)
            }
            None => Err(Stop::Lack),
        }
    } else {
        let value = value_of(tabled, run, arg)?;
        let values = gather(tabled, run, later, rest)?;
        let _ = take_out(run, name);
        let all = pushed(values, value)?;
        Ok(all)
    }
}

// The highest of these values.
#[tactic(auto, using(ae_values::specs::Shown::shows))]
fn highest_of(values: &[Val]) -> u32
    requires { IsTrue (all_measured values.now) }
    ensures { result ≡ highest (fields_shown values.now) }
{
    match values.split_first() {
        Some((first, rest)) => first.height().max(highest_of(rest)),
        None => 0,
    }
}

// The object of a class with these values. One that is higher than 1,000 is trap 8.
#[tactic(auto, using(ae_values::specs::Shown::shows))]
fn object_of(alloc: Global, class: Name, values: Vec<Val>) -> Result<Val, Stop>
    requires { IsTrue (all_measured values.items) }
    ensures value { ReadsAs (place.low (meant.Owned (meant.Object class (fields_shown values.items)))) shown result }
    ensures measured { IfOk result IsMeasured }
{
    if highest_of(values.as_slice()) < 1000 {
        let value = boxed(alloc, Object::record(class, values))?;
        Ok(value)
    } else {
        Err(TOO_HIGH)
    }
}

// An object as a value.
#[tactic(auto, using(ae_values::specs::Shown::shows))]
fn boxed(alloc: Global, object: Object) -> Result<Val, AllocError>
    requires { IsMeasuredTree object }
    ensures value { IfOk result (λ v. shown v ≡ meant.Owned (shown_tree object)) }
    ensures measured { IfOk result IsMeasured }
{
    Ok(Val::Object(Box::new(alloc, object)?))
}

/// A new object of a class: the values of its arguments from left to right, where the names that move have no value
/// then. An object that is higher than 1,000 is trap 8. The names stay.
pub fn new_object(
    tabled: &Tabled,
    run: &mut Running,
    class: Name,
    groups: &[NameAt],
    args: &[Expr],
) -> Result<Val, Stop>
    ensures done { ReadsAs (new_low (code_of tabled.now) class groups.now (map expression args.now) (seen run.old))
        (λ v. (shown v, seen run.new)) result }
    ensures measured { IfOk result IsMeasured }
    ensures stays { Stays run.old run.new }
{
    let moves = moves_of(tabled, class, groups, args)?;
    let mut values = gather(tabled, run, moves.as_slice(), args)?;
    values.reverse();
    object_of(tabled.alloc, class, values)
}
