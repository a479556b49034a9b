// Methods, from their signatures to their ends.
ghost use Rattle.std.specs.Prelude.{◌≡◌, ◌||◌, ◌&&◌, not, is_none, true, length, All, None, Some};
ghost use Rattle.std.specs.Prelude.{OnOk, IfOk, IfSome, MatchOption};
ghost use Rattle.std.specs.Prelude.{◌∷◌, [], ◌<◌, nat_eq, is_some};
ghost use Rattle.ae_tree.specs.Form.{bare_names, form, perm_of};
ghost use Rattle.ae_tree.specs.Names.{this};
ghost use Rattle.ae_tree.specs.Shown.{action, braced, definition};
ghost use Rattle.ae_tree.specs.WellShaped.{AreNamed, ClassNamed, MethodNamed, ParamNamed};
ghost use Rattle.ae_rules.specs.Answers.{Answers, Leaves, done};
ghost use Rattle.ae_rules.specs.Verdict.{Holds, each, if_there, require};
ghost use Rattle.ae_rules.specs.Calls as calls;
ghost use Rattle.ae_rules.specs.Context.{held_in, is_held_alone};
ghost use Rattle.ae_rules.specs.Forms as forms;
ghost use Rattle.ae_rules.specs.Judges as spec;
ghost use Rattle.ae_rules.specs.Lookups as lookup;
ghost use Rattle.ae_judge.specs.Tabled.{code_of};
ghost use Rattle.ae_scope.specs.Scope.{Empty, context_of};
ghost use Rattle.ae_check.specs.Ready.{IsReady, StaysReady};
ghost use Rattle.ae_scope.specs.Grows.{Grows};
ghost use Rattle.ae_check.specs.Methods.{whole_verdict, with_me, with_groups_needed, with_params};

use crate::blocks::judge_block;
use crate::simple::form_at;
use ae_groups::permission_at_start;
use ae_judge::{Tabled, deny};
use ae_rules::Held;
use ae_scope::Scope;
use ae_text::{Deny, Items, Rule, Spot};
use ae_tree::{
    Block, Class, Form, GroupNeed, IO, Kind, Me, Method, Name, NameAt, Param, Perm, PermAt,
    StmtKind, THIS, Ty,
};
use std::alloc::{AllocError, Global};

// These groups are known, each with the permission of its need.
fn know_groups(scope: &mut Scope, needs: &[GroupNeed], groups: &[NameAt]) -> Result<(), AllocError>
    requires { AreNamed (length scope.old.groups.perms.items) groups.now }
    ensures context { OnOk result (context_of scope.new
        ≡ with_groups_needed needs.now (bare_names groups.now) (context_of scope.old)) }
    ensures table { OnOk result (length scope.new.at.items ≡ length scope.old.at.items) }
    ensures groups { OnOk result (length scope.new.groups.perms.items ≡ length scope.old.groups.perms.items) }
{
    for group in groups {
        scope.know(group.name, permission_at_start(needs, group.name))?;
    }
    Ok(())
}

// An object parameter that comes back stays, but for a unique one.
fn does_stay(form: &Form, away: Option<Spot>) -> bool
    ensures { result ≡ spec.does_stay form.now away }
{
    match form {
        Form::Int | Form::Bool => false,
        Form::Object(perm, _) => match perm {
            Perm::Unique => false,
            Perm::Immutable | Perm::Lent | Perm::Shared(_) => away.is_none(),
        },
    }
}

// The receiver's name, or that of a local.
fn is_taken(scope: &Scope, name: Name) -> bool
    ensures { result ≡ (nat_eq name this || is_some ((context_of scope.now).local name)) }
{
    match scope.find(name) {
        Some(_) => true,
        None => name == THIS,
    }
}

// A parameter is visible, where no other has its name.
#[tactic(auto, using(crate::proofs::MethodLemmas::parameters))]
fn add_param(alloc: Global, scope: &mut Scope, param: &Param) -> Result<(), Deny>
    requires { param.now.name.name < length scope.old.at.items }
    ensures context { Leaves (Holds (with_params (param.now ∷ []) (context_of scope.old))) (context_of scope.new)
        result }
    ensures table { OnOk result (length scope.new.at.items ≡ length scope.old.at.items) }
    ensures groups { OnOk result (length scope.new.groups.perms.items ≡ length scope.old.groups.perms.items) }
{
    if is_taken(scope, param.name.name) {
        return Ok(());
    }
    let form = form_at(alloc, &param.ty)?;
    let stays = does_stay(&form, param.away);
    scope.add(param.name.name, form, stays)?;
    Ok(())
}

// The parameters are visible.
fn add_params(alloc: Global, scope: &mut Scope, params: &[Param]) -> Result<(), Deny>
    requires { All (ParamNamed (length scope.old.at.items)) params.now }
    ensures context { Leaves (Holds (with_params params.now (context_of scope.old))) (context_of scope.new) result }
    ensures table { OnOk result (length scope.new.at.items ≡ length scope.old.at.items) }
    ensures groups { OnOk result (length scope.new.groups.perms.items ≡ length scope.old.groups.perms.items) }
{
    for param in params {
        add_param(alloc, scope, param)?;
    }
    Ok(())
}

// The local holds what a parameter that comes back has to hold.
fn comes_back(scope: &Scope, name: NameAt, is_unique: bool, away: Option<Spot>) -> Result<(), Deny>
    ensures { Answers (require (not (is_unique && is_none away) || is_held_alone (held_in (context_of scope.now)
        name.name)) Rule.NotReturned name.at) done result }
{
    if !is_unique || away.is_some() {
        return Ok(());
    }
    match scope.find(name.name) {
        Some(local) => match local.held {
            Held::Unique => Ok(()),
            Held::Split(_)
            | Held::Immutable
            | Held::Lent
            | Held::Shared(_)
            | Held::Inner(_)
            | Held::None => Err(deny(Rule::NotReturned, name.at)),
        },
        None => Err(deny(Rule::NotReturned, name.at)),
    }
}

fn is_unique_perm(perm: PermAt) -> bool
    ensures { result ≡ forms.is_unique_perm (perm_of perm) }
{
    match perm {
        PermAt::Unique(_) => true,
        PermAt::Immutable(_) | PermAt::Lent(_) | PermAt::Shared(..) => false,
    }
}

fn is_unique_type(ty: &Ty) -> bool
    ensures { result ≡ forms.is_unique (form ty.now) }
{
    match ty {
        Ty::Int(_) | Ty::Bool(_) => false,
        Ty::Object(perm, _) => is_unique_perm(*perm),
    }
}

fn param_comes_back(scope: &Scope, param: &Param) -> Result<(), Deny>
    ensures { Answers (spec.param_comes_back (context_of scope.now) param.now) done result }
{
    comes_back(scope, param.name, is_unique_type(&param.ty), param.away)
}

// What was lent uniquely comes back.
fn params_come_back(scope: &Scope, params: &[Param]) -> Result<(), Deny>
    ensures { Answers (each (spec.param_comes_back (context_of scope.now)) params.now) done result }
{
    for param in params {
        param_comes_back(scope, param)?;
    }
    Ok(())
}

fn me_comes_back(tabled: &Tabled, method: &Method, scope: &Scope, me: Me) -> Result<(), Deny>
    ensures { Answers (spec.me_comes_back (code_of tabled.now) (definition method.now) (context_of scope.now) me)
        done result }
{
    let name = NameAt {
        name: THIS,
        at: me.at,
    };
    comes_back(scope, name, is_unique_perm(me.perm), me.away)
}

// The receiver comes back, where there is one.
fn receiver_comes_back(tabled: &Tabled, method: &Method, scope: &Scope) -> Result<(), Deny>
    ensures { Answers (if_there method.now.me (spec.me_comes_back (code_of tabled.now) (definition method.now)
        (context_of scope.now))) done result }
{
    match method.me {
        Some(me) => me_comes_back(tabled, method, scope, me),
        None => Ok(()),
    }
}

#[tactic(auto, using(ae_tree::specs::Shown::shows))]
fn is_return(kind: &StmtKind) -> bool
    ensures { result ≡ spec.is_return (action kind.now) }
{
    match kind {
        StmtKind::Return(_) => true,
        StmtKind::If(_, _, otherwise) => match otherwise {
            Some(_) => false,
            None => false,
        },
        StmtKind::Let(..)
        | StmtKind::Assign(..)
        | StmtKind::Field(..)
        | StmtKind::Index(..)
        | StmtKind::Call(_)
        | StmtKind::While(..)
        | StmtKind::Group(_)
        | StmtKind::Split(..)
        | StmtKind::Atomic(..)
        | StmtKind::Freeze(_)
        | StmtKind::Share(..)
        | StmtKind::PrintExpr(_)
        | StmtKind::PrintText(_)
        | StmtKind::Assert(_) => false,
    }
}

// The last statement is a `return`.
fn ends_with_return(block: &Block) -> bool
    ensures { result ≡ spec.returns (braced block.now).lines }
{
    match block.stmts.as_slice().last() {
        Some(stmt) => is_return(&stmt.kind),
        None => false,
    }
}

// A method that is not `void` ends with `return`.
fn returns(method: &Method) -> Result<(), Deny>
    ensures { Answers (require (is_none method.now.result || spec.returns (braced method.now.body).lines)
        Rule.ReturnMissing method.now.name.at) done result }
{
    match &method.result {
        Some(_) => {
            if ends_with_return(&method.body) {
                Ok(())
            } else {
                Err(deny(Rule::ReturnMissing, method.name.at))
            }
        }
        None => Ok(()),
    }
}

/// A method's end. Refused at the method's name, where it has a result and its last statement is no `return`; and at
/// the receiver or a parameter that is unique and comes back, where it is not held alone. Takes no memory.
pub fn end_method(tabled: &Tabled, method: &Method, scope: &Scope) -> Result<(), Deny>
    ensures { Answers (spec.end_method (code_of tabled.now) (definition method.now) (context_of scope.now)) done
        result }
{
    returns(method)?;
    receiver_comes_back(tabled, method, scope)?;
    params_come_back(scope, method.params.as_slice())
}

// The class that a method stands in.
#[tactic(auto, using(ae_rules::proofs::BelowLemmas::found_has))]
fn own_class<'a>(tabled: &'a Tabled, method: &Method) -> Option<&'a Class>
    requires { All (ClassNamed (length tabled.now.program.now.names)) tabled.now.program.now.classes }
    ensures kind { MatchOption result (lookup.own_kind (code_of tabled.now) method.now.class ≡ Kind.Ints)
        (λ k. lookup.own_kind (code_of tabled.now) method.now.class ≡ lookup.kind_of_class k.now) }
    ensures named { IfSome result (λ k. ClassNamed (length tabled.now.program.now.names) k.now) }
{
    match method.class {
        Some(number) => match tabled.program.classes.get(number as usize) {
            Some(class) => Some(class),
            None => None,
        },
        None => None,
    }
}

// The groups of a method's class are known.
fn know_own_groups(tabled: &Tabled, method: &Method, scope: &mut Scope) -> Result<(), AllocError>
    requires classes { All (ClassNamed (length tabled.now.program.now.names)) tabled.now.program.now.classes }
    requires groups { length scope.old.groups.perms.items ≡ length tabled.now.program.now.names }
    ensures context { OnOk result (context_of scope.new ≡ with_groups_needed method.now.needs
        (lookup.groups_of (lookup.own_kind (code_of tabled.now) method.now.class)) (context_of scope.old)) }
    ensures table { OnOk result (length scope.new.at.items ≡ length scope.old.at.items) }
    ensures groups { OnOk result (length scope.new.groups.perms.items ≡ length scope.old.groups.perms.items) }
{
    match own_class(tabled, method) {
        Some(class) => know_groups(scope, method.needs.as_slice(), class.groups.as_slice()),
        None => Ok(()),
    }
}

fn bare_perm(perm: PermAt) -> Perm
    ensures { result ≡ perm_of perm }
{
    match perm {
        PermAt::Unique(_) => Perm::Unique,
        PermAt::Immutable(_) => Perm::Immutable,
        PermAt::Lent(_) => Perm::Lent,
        PermAt::Shared(_, group) => Perm::Shared(group.name),
    }
}

fn names_of(alloc: Global, groups: &[NameAt]) -> Result<Items<Name>, AllocError>
    ensures { IfOk result (λ names. names ≡ bare_names groups.now) }
{
    let mut names = Items::new(alloc);
    for group in groups {
        names.push(group.name)?;
    }
    Ok(names)
}

// The form of the receiver.
fn me_form(tabled: &Tabled, method: &Method, me: Me) -> Result<Form, AllocError>
    requires { All (ClassNamed (length tabled.now.program.now.names)) tabled.now.program.now.classes }
    ensures { IfOk result (λ f. f ≡ calls.me_form (code_of tabled.now) (definition method.now) me) }
{
    match own_class(tabled, method) {
        Some(class) => {
            let groups = names_of(tabled.alloc, class.groups.as_slice())?;
            Ok(Form::Object(bare_perm(me.perm), Kind::Class(class.name.name, groups)))
        }
        None => Ok(Form::Object(bare_perm(me.perm), Kind::Ints)),
    }
}

// The receiver is visible, where there is one.
fn add_me(tabled: &Tabled, method: &Method, scope: &mut Scope) -> Result<(), AllocError>
    requires classes { All (ClassNamed (length tabled.now.program.now.names)) tabled.now.program.now.classes }
    requires new { (context_of scope.old).local this ≡ None }
    requires within { this < length scope.old.at.items }
    ensures context { OnOk result (context_of scope.new
        ≡ with_me (code_of tabled.now) (definition method.now) (context_of scope.old)) }
    ensures table { OnOk result (length scope.new.at.items ≡ length scope.old.at.items) }
    ensures groups { OnOk result (length scope.new.groups.perms.items ≡ length scope.old.groups.perms.items) }
{
    match method.me {
        Some(me) => {
            let form = me_form(tabled, method, me)?;
            let stays = does_stay(&form, me.away);
            scope.add(THIS, form, stays)
        }
        None => Ok(()),
    }
}

/// What a method knows at its start: the groups of its class, its own and `io`, its receiver and its parameters. Never
/// refused.
pub fn start(tabled: &Tabled, method: &Method, scope: &mut Scope) -> Result<(), Deny>
    requires empty { Empty (length tabled.now.program.now.names) scope.old }
    requires named { MethodNamed (length tabled.now.program.now.names) (definition method.now) }
    requires classes { All (ClassNamed (length tabled.now.program.now.names)) tabled.now.program.now.classes }
    requires names { this < length tabled.now.program.now.names }
    ensures context { Leaves (Holds (spec.start (code_of tabled.now) (definition method.now))) (context_of scope.new)
        result }
    ensures table { OnOk result (length scope.new.at.items ≡ length tabled.now.program.now.names) }
    ensures groups { OnOk result (length scope.new.groups.perms.items ≡ length tabled.now.program.now.names) }
{
    let needs = method.needs.as_slice();
    scope.know(IO, permission_at_start(needs, IO))?;
    know_own_groups(tabled, method, scope)?;
    know_groups(scope, needs, method.groups.as_slice())?;
    add_me(tabled, method, scope)?;
    add_params(tabled.alloc, scope, method.params.as_slice())
}

// A method's body and its end, from its start.
fn judge_whole(tabled: &Tabled, method: &Method, scope: &mut Scope) -> Result<(), Deny>
    requires table { length scope.old.at.items ≡ length tabled.now.program.now.names }
    requires stays { StaysReady (code_of tabled.now) (definition method.now) }
    requires ready { IsReady (code_of tabled.now) (context_of scope.old) }
    requires named { MethodNamed (length tabled.now.program.now.names) (definition method.now) }
    ensures answer { Answers (whole_verdict (code_of tabled.now) (definition method.now) (context_of scope.old)) done
        result }
    ensures grows { OnOk result (Grows scope.old scope.new) }
{
    judge_block(tabled, method, scope, &method.body)?;
    end_method(tabled, method, scope)
}

/// A method, from its signature to its end: refused by the first rule that its statements break, in order, or that its
/// end breaks. Nothing is known after it; after a refusal what is known is not said.
pub fn judge_method(tabled: &Tabled, method: &Method, scope: &mut Scope) -> Result<(), Deny>
    requires empty { Empty (length tabled.now.program.now.names) scope.old }
    requires named { MethodNamed (length tabled.now.program.now.names) (definition method.now) }
    requires classes { All (ClassNamed (length tabled.now.program.now.names)) tabled.now.program.now.classes }
    requires names { this < length tabled.now.program.now.names }
    requires stays { StaysReady (code_of tabled.now) (definition method.now) }
    ensures answer { Answers (spec.judge_method (code_of tabled.now) (definition method.now)) done result }
    ensures empty { OnOk result (Empty (length tabled.now.program.now.names) scope.new) }
{
    start(tabled, method, scope)?;
    judge_whole(tabled, method, scope)?;
    scope.clear();
    Ok(())
}
