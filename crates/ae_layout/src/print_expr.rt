// Types, paths and expressions in their canonical layout.
ghost use Rattle.std.specs.Prelude.{◌≡◌, ◌++◌, true, false, map, OnOk};
ghost use Rattle.ae_layout.specs.Spelling.{tokens_text};
ghost use Rattle.ae_tree.specs.Grammar.{sign_of as op_sign, truth_word};
ghost use Rattle.ae_tree.specs.Shown.{expression, invocation, right_side};
ghost use Rattle.ae_layout.specs.Layout.{after_commas, with_commas, name_tokens, groups_tokens, steps_tokens};
ghost use Rattle.ae_layout.specs.Layout.{path_tokens, perm_tokens, kind_tokens, type_tokens, expression_tokens};
ghost use Rattle.ae_layout.specs.Layout.{arguments_tokens, method_tokens, call_tokens, right_tokens};

use crate::spell::{name, number, root, sign, word};
use ae_text::{Items, Keyword, Sign};
use ae_tree::{Call, Expr, KindAt, NameAt, Op, Path, PermAt, Rhs, Ty};
use std::alloc::{AllocError, Global};

#[tactic(auto, using(crate::proofs::Texts::texts))]
fn more_names(names: &[Items<u8>], list: &[NameAt], out: &mut Vec<u8>) -> Result<(), AllocError>
    ensures { OnOk result (out.new.items ≡ out.old.items
        ++ tokens_text (after_commas (name_tokens names.now false) list.now)) }
{
    for item in list {
        sign(true, Sign::Comma, out)?;
        name(names, false, item.name, out)?;
    }
    Ok(())
}

// Names with commas between them.
#[tactic(auto, using(crate::proofs::Texts::texts))]
pub fn name_list(
    names: &[Items<u8>],
    close: bool,
    list: &[NameAt],
    out: &mut Vec<u8>,
) -> Result<(), AllocError>
    ensures { OnOk result (out.new.items ≡ out.old.items
        ++ tokens_text (with_commas (name_tokens names.now) close list.now)) }
{
    match list.split_first() {
        Some((first, rest)) => {
            name(names, close, first.name, out)?;
            more_names(names, rest, out)
        }
        None => Ok(()),
    }
}

// Group names between < and >, if there are any.
#[tactic(auto, using(crate::proofs::Texts::texts))]
pub fn groups(names: &[Items<u8>], list: &[NameAt], out: &mut Vec<u8>) -> Result<(), AllocError>
    ensures { OnOk result (out.new.items ≡ out.old.items ++ tokens_text (groups_tokens names.now list.now)) }
{
    match list.split_first() {
        Some((first, rest)) => {
            sign(true, Sign::Less, out)?;
            name(names, true, first.name, out)?;
            more_names(names, rest, out)?;
            sign(true, Sign::Greater, out)
        }
        None => Ok(()),
    }
}

#[tactic(auto, using(crate::proofs::Texts::texts))]
fn steps(names: &[Items<u8>], list: &[NameAt], out: &mut Vec<u8>) -> Result<(), AllocError>
    ensures { OnOk result (out.new.items ≡ out.old.items ++ tokens_text (steps_tokens names.now list.now)) }
{
    for step in list {
        sign(true, Sign::Dot, out)?;
        name(names, true, step.name, out)?;
    }
    Ok(())
}

#[tactic(auto, using(crate::proofs::Texts::texts))]
pub fn path(
    names: &[Items<u8>],
    close: bool,
    path: &Path,
    out: &mut Vec<u8>,
) -> Result<(), AllocError>
    ensures { OnOk result (out.new.items ≡ out.old.items ++ tokens_text (path_tokens names.now close path.now)) }
{
    root(names, close, path.root.name, out)?;
    steps(names, path.steps.as_slice(), out)
}

#[tactic(auto, using(crate::proofs::Texts::texts))]
pub fn perm(
    names: &[Items<u8>],
    close: bool,
    perm: &PermAt,
    out: &mut Vec<u8>,
) -> Result<(), AllocError>
    ensures { OnOk result (out.new.items ≡ out.old.items ++ tokens_text (perm_tokens names.now close perm.now)) }
{
    match perm {
        PermAt::Unique(_) => word(close, Keyword::Unique, out),
        PermAt::Immutable(_) => word(close, Keyword::Immutable, out),
        PermAt::Lent(_) => word(close, Keyword::Lent, out),
        PermAt::Shared(_, group) => {
            word(close, Keyword::Shared, out)?;
            sign(true, Sign::Less, out)?;
            name(names, true, group.name, out)?;
            sign(true, Sign::Greater, out)
        }
    }
}

#[tactic(auto, using(crate::proofs::Texts::texts))]
fn object_kind(names: &[Items<u8>], kind: &KindAt, out: &mut Vec<u8>) -> Result<(), AllocError>
    ensures { OnOk result (out.new.items ≡ out.old.items ++ tokens_text (kind_tokens names.now kind.now)) }
{
    match kind {
        KindAt::Ints(_) => word(false, Keyword::Ints, out),
        KindAt::Class(class, list) => {
            name(names, false, class.name, out)?;
            groups(names, list.as_slice(), out)
        }
    }
}

#[tactic(auto, using(crate::proofs::Texts::texts))]
pub fn type_name(
    names: &[Items<u8>],
    close: bool,
    ty: &Ty,
    out: &mut Vec<u8>,
) -> Result<(), AllocError>
    ensures { OnOk result (out.new.items ≡ out.old.items ++ tokens_text (type_tokens names.now close ty.now)) }
{
    match ty {
        Ty::Int(_) => word(close, Keyword::Int, out),
        Ty::Bool(_) => word(close, Keyword::Bool, out),
        Ty::Object(permission, kind) => {
            perm(names, close, permission, out)?;
            object_kind(names, kind, out)
        }
    }
}

#[tactic(auto, using(crate::proofs::Texts::texts))]
fn truth_word(truth: bool) -> Keyword
    ensures { result ≡ truth_word truth }
{
    if truth { Keyword::True } else { Keyword::False }
}

#[tactic(auto, using(crate::proofs::Texts::texts))]
fn sign_of(op: Op) -> Sign
    ensures { result ≡ op_sign op }
{
    match op {
        Op::Or => Sign::OrOr,
        Op::And => Sign::AndAnd,
        Op::Eq => Sign::Equal,
        Op::Ne => Sign::NotEqual,
        Op::Lt => Sign::Less,
        Op::Le => Sign::LessEqual,
        Op::Gt => Sign::Greater,
        Op::Ge => Sign::GreaterEqual,
        Op::Add => Sign::Plus,
        Op::Sub => Sign::Minus,
        Op::Mul => Sign::Star,
        Op::Div => Sign::Slash,
        Op::Rem => Sign::Percent,
    }
}

// An expression, close to what stands before it or not.
#[tactic(auto, using(crate::proofs::Texts::expressions))]
pub fn expr(
    alloc: Global,
    names: &[Items<u8>],
    close: bool,
    tree: &Expr,
    out: &mut Vec<u8>,
) -> Result<(), AllocError>
    ensures { OnOk result (out.new.items ≡ out.old.items
        ++ tokens_text (expression_tokens names.now close (expression tree.now))) }
{
    match tree {
        Expr::Int(value, _) => number(alloc, close, *value, out),
        Expr::Bool(truth, _) => word(close, truth_word(*truth), out),
        Expr::Null(_) => word(close, Keyword::Null, out),
        Expr::Path(read) => path(names, close, read, out),
        Expr::Index(array, index) => {
            path(names, close, array, out)?;
            sign(true, Sign::OpenBracket, out)?;
            expr(alloc, names, true, index.get(), out)?;
            sign(true, Sign::CloseBracket, out)
        }
        Expr::Len(array, _) => {
            word(close, Keyword::Len, out)?;
            path(names, false, array, out)
        }
        Expr::Paren(inner, _) => {
            sign(close, Sign::OpenParen, out)?;
            expr(alloc, names, true, inner.get(), out)?;
            sign(true, Sign::CloseParen, out)
        }
        Expr::Not(inner, _) => {
            sign(close, Sign::Not, out)?;
            expr(alloc, names, true, inner.get(), out)
        }
        Expr::Neg(inner, _) => {
            sign(close, Sign::Minus, out)?;
            expr(alloc, names, true, inner.get(), out)
        }
        Expr::Bin(op, left, right) => {
            expr(alloc, names, close, left.get(), out)?;
            sign(false, sign_of(*op), out)?;
            expr(alloc, names, false, right.get(), out)
        }
    }
}

#[tactic(auto, using(crate::proofs::Texts::texts))]
fn more_exprs(
    alloc: Global,
    names: &[Items<u8>],
    list: &[Expr],
    out: &mut Vec<u8>,
) -> Result<(), AllocError>
    ensures { OnOk result (out.new.items ≡ out.old.items
        ++ tokens_text (after_commas (expression_tokens names.now false) (map expression list.now))) }
{
    for item in list {
        sign(true, Sign::Comma, out)?;
        expr(alloc, names, false, item, out)?;
    }
    Ok(())
}

#[tactic(auto, using(crate::proofs::Texts::texts))]
fn expr_list(
    alloc: Global,
    names: &[Items<u8>],
    list: &[Expr],
    out: &mut Vec<u8>,
) -> Result<(), AllocError>
    ensures { OnOk result (out.new.items ≡ out.old.items
        ++ tokens_text (with_commas (expression_tokens names.now) true (map expression list.now))) }
{
    match list.split_first() {
        Some((first, rest)) => {
            expr(alloc, names, true, first, out)?;
            more_exprs(alloc, names, rest, out)
        }
        None => Ok(()),
    }
}

// Arguments in parentheses.
#[tactic(auto, using(crate::proofs::Texts::texts))]
fn arguments(
    alloc: Global,
    names: &[Items<u8>],
    list: &[Expr],
    out: &mut Vec<u8>,
) -> Result<(), AllocError>
    ensures { OnOk result (out.new.items ≡ out.old.items
        ++ tokens_text (arguments_tokens names.now (map expression list.now))) }
{
    sign(true, Sign::OpenParen, out)?;
    expr_list(alloc, names, list, out)?;
    sign(true, Sign::CloseParen, out)
}

// The method of a call, behind its receiver.
#[tactic(auto, using(crate::proofs::Texts::texts))]
fn method(
    names: &[Items<u8>],
    close: bool,
    on: &Option<Path>,
    method: NameAt,
    out: &mut Vec<u8>,
) -> Result<(), AllocError>
    ensures { OnOk result (out.new.items ≡ out.old.items ++ tokens_text (method_tokens names.now close on.now method)) }
{
    match on {
        Some(receiver) => {
            path(names, close, receiver, out)?;
            sign(true, Sign::Dot, out)?;
            name(names, true, method.name, out)
        }
        None => name(names, close, method.name, out),
    }
}

#[tactic(auto, using(crate::proofs::Texts::texts))]
pub fn call(
    alloc: Global,
    names: &[Items<u8>],
    close: bool,
    call: &Call,
    out: &mut Vec<u8>,
) -> Result<(), AllocError>
    ensures { OnOk result (out.new.items ≡ out.old.items
        ++ tokens_text (call_tokens names.now close (invocation call.now))) }
{
    method(names, close, &call.on, call.method, out)?;
    groups(names, call.groups.as_slice(), out)?;
    arguments(alloc, names, call.args.as_slice(), out)
}

// What stands right of a =.
#[tactic(auto, using(crate::proofs::Texts::texts))]
pub fn right(
    alloc: Global,
    names: &[Items<u8>],
    rhs: &Rhs,
    out: &mut Vec<u8>,
) -> Result<(), AllocError>
    ensures { OnOk result (out.new.items ≡ out.old.items ++ tokens_text (right_tokens names.now (right_side rhs.now))) }
{
    match rhs {
        Rhs::Expr(value) => expr(alloc, names, false, value, out),
        Rhs::Take(field, _) => {
            word(false, Keyword::Take, out)?;
            path(names, false, field, out)
        }
        Rhs::Ints(length, _) => {
            word(false, Keyword::New, out)?;
            word(false, Keyword::Ints, out)?;
            sign(true, Sign::OpenParen, out)?;
            expr(alloc, names, true, length, out)?;
            sign(true, Sign::CloseParen, out)
        }
        Rhs::New(class, list, args, _) => {
            word(false, Keyword::New, out)?;
            name(names, false, class.name, out)?;
            groups(names, list.as_slice(), out)?;
            arguments(alloc, names, args.as_slice(), out)
        }
        Rhs::Call(made) => call(alloc, names, false, made, out),
    }
}
