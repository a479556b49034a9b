// Statements in their canonical layout, each on a line of its own, and blocks four spaces deeper.
ghost use Rattle.std.specs.Prelude.{◌≡◌, ◌++◌, [], ◌∷◌, true, false, IfOk, OnOk};
ghost use Rattle.ae_layout.specs.Spelling.{tokens_text};
ghost use Rattle.ae_tree.specs.Shown.{expression, invocation, right_side, action, braced};
ghost use Rattle.ae_layout.specs.Layout.{with_commas, name_tokens, path_tokens, type_tokens, expression_tokens};
ghost use Rattle.ae_layout.specs.Layout.{call_tokens, right_tokens, name_kind, near, far, semicolon, open_brace};
ghost use Rattle.ae_layout.specs.Layout.{equals_value as assigned_tokens, first_line, row_text, rows_text};
ghost use Rattle.ae_layout.specs.Layout.{close_row as row_of_close, else_row as row_of_else};
ghost use Rattle.ae_layout.specs.Layout.{indented_more as deeper_text, block_rows, row, rows};
ghost use Rattle.ae_text.specs.declared.token.Keyword.TheVariants as word_of;
ghost use Rattle.ae_text.specs.declared.token.Sign.TheVariants as sign_of;
ghost use Rattle.ae_text.specs.declared.token.TokenKind.TheVariants as kind;

use crate::print_expr::{call, expr, name_list, path, right, type_name};
use crate::spell::{name, sign, text, word};
use ae_text::{Items, Keyword, Sign};
use ae_tree::{Block, Call, Expr, Name, NameAt, Path, Rhs, StmtKind, Ty};
use std::alloc::{AllocError, Global};

// An equals sign, an expression and a semicolon.
#[tactic(auto, using(crate::proofs::Texts::texts))]
fn assigned(
    alloc: Global,
    names: &[Items<u8>],
    value: &Expr,
    out: &mut Vec<u8>,
) -> Result<(), AllocError>
    ensures { OnOk result (out.new.items ≡ out.old.items
        ++ tokens_text (assigned_tokens names.now (expression value.now))) }
{
    sign(false, Sign::Assign, out)?;
    expr(alloc, names, false, value, out)?;
    sign(true, Sign::Semicolon, out)
}

// An equals sign, a right side and a semicolon.
#[tactic(auto, using(crate::proofs::Texts::texts))]
fn assigned_right(
    alloc: Global,
    names: &[Items<u8>],
    rhs: &Rhs,
    out: &mut Vec<u8>,
) -> Result<(), AllocError>
    ensures { OnOk result (out.new.items ≡ out.old.items
        ++ tokens_text (far (kind.Sign sign_of.Assign) ∷ right_tokens names.now (right_side rhs.now) ++ semicolon)) }
{
    sign(false, Sign::Assign, out)?;
    right(alloc, names, rhs, out)?;
    sign(true, Sign::Semicolon, out)
}

#[tactic(auto, using(crate::proofs::Texts::texts))]
fn declaration(
    alloc: Global,
    names: &[Items<u8>],
    ty: &Ty,
    local: Name,
    rhs: &Rhs,
    out: &mut Vec<u8>,
) -> Result<(), AllocError>
    ensures { OnOk result (out.new.items ≡ out.old.items
        ++ tokens_text (near (kind.Word word_of.Let) ∷ type_tokens names.now false ty.now
        ++ far (name_kind names.now local) ∷ far (kind.Sign sign_of.Assign)
        ∷ right_tokens names.now (right_side rhs.now) ++ semicolon)) }
{
    word(true, Keyword::Let, out)?;
    type_name(names, false, ty, out)?;
    name(names, false, local, out)?;
    assigned_right(alloc, names, rhs, out)
}

#[tactic(auto, using(crate::proofs::Texts::texts))]
fn assignment(
    alloc: Global,
    names: &[Items<u8>],
    local: Name,
    rhs: &Rhs,
    out: &mut Vec<u8>,
) -> Result<(), AllocError>
    ensures { OnOk result (out.new.items ≡ out.old.items
        ++ tokens_text (near (name_kind names.now local) ∷ far (kind.Sign sign_of.Assign)
        ∷ right_tokens names.now (right_side rhs.now) ++ semicolon)) }
{
    name(names, true, local, out)?;
    assigned_right(alloc, names, rhs, out)
}

#[tactic(auto, using(crate::proofs::Texts::texts))]
fn field_write(
    alloc: Global,
    names: &[Items<u8>],
    field: &Path,
    value: &Expr,
    out: &mut Vec<u8>,
) -> Result<(), AllocError>
    ensures { OnOk result (out.new.items ≡ out.old.items
        ++ tokens_text (path_tokens names.now true field.now ++ assigned_tokens names.now (expression value.now))) }
{
    path(names, true, field, out)?;
    assigned(alloc, names, value, out)
}

#[tactic(auto, using(crate::proofs::Texts::texts))]
fn index_write(
    alloc: Global,
    names: &[Items<u8>],
    array: &Path,
    index: &Expr,
    value: &Expr,
    out: &mut Vec<u8>,
) -> Result<(), AllocError>
    ensures { OnOk result (out.new.items ≡ out.old.items
        ++ tokens_text (path_tokens names.now true array.now ++ near (kind.Sign sign_of.OpenBracket)
        ∷ expression_tokens names.now true (expression index.now) ++ near (kind.Sign sign_of.CloseBracket)
        ∷ assigned_tokens names.now (expression value.now))) }
{
    path(names, true, array, out)?;
    sign(true, Sign::OpenBracket, out)?;
    expr(alloc, names, true, index, out)?;
    sign(true, Sign::CloseBracket, out)?;
    assigned(alloc, names, value, out)
}

#[tactic(auto, using(crate::proofs::Texts::texts))]
fn call_statement(
    alloc: Global,
    names: &[Items<u8>],
    made: &Call,
    out: &mut Vec<u8>,
) -> Result<(), AllocError>
    ensures { OnOk result (out.new.items ≡ out.old.items
        ++ tokens_text (call_tokens names.now true (invocation made.now) ++ semicolon)) }
{
    call(alloc, names, true, made, out)?;
    sign(true, Sign::Semicolon, out)
}

// A word, an expression and a semicolon.
#[tactic(auto, using(crate::proofs::Texts::texts))]
fn with_expr(
    alloc: Global,
    names: &[Items<u8>],
    keyword: Keyword,
    value: &Expr,
    out: &mut Vec<u8>,
) -> Result<(), AllocError>
    ensures { OnOk result (out.new.items ≡ out.old.items
        ++ tokens_text (near (kind.Word keyword) ∷ expression_tokens names.now false (expression value.now)
        ++ semicolon)) }
{
    word(true, keyword, out)?;
    expr(alloc, names, false, value, out)?;
    sign(true, Sign::Semicolon, out)
}

// A word, a condition and an open brace.
#[tactic(auto, using(crate::proofs::Texts::texts))]
fn condition(
    alloc: Global,
    names: &[Items<u8>],
    keyword: Keyword,
    test: &Expr,
    out: &mut Vec<u8>,
) -> Result<(), AllocError>
    ensures { OnOk result (out.new.items ≡ out.old.items
        ++ tokens_text (near (kind.Word keyword) ∷ expression_tokens names.now false (expression test.now)
        ++ open_brace)) }
{
    word(true, keyword, out)?;
    expr(alloc, names, false, test, out)?;
    sign(false, Sign::OpenBrace, out)
}

// A word, a name and a semicolon.
#[tactic(auto, using(crate::proofs::Texts::texts))]
fn with_name(
    names: &[Items<u8>],
    keyword: Keyword,
    about: Name,
    out: &mut Vec<u8>,
) -> Result<(), AllocError>
    ensures { OnOk result (out.new.items ≡ out.old.items
        ++ tokens_text (near (kind.Word keyword) ∷ far (name_kind names.now about) ∷ semicolon)) }
{
    word(true, keyword, out)?;
    name(names, false, about, out)?;
    sign(true, Sign::Semicolon, out)
}

#[tactic(auto, using(crate::proofs::Texts::texts))]
fn atomic(names: &[Items<u8>], group: Name, out: &mut Vec<u8>) -> Result<(), AllocError>
    ensures { OnOk result (out.new.items ≡ out.old.items
        ++ tokens_text (near (kind.Word word_of.Atomic) ∷ far (name_kind names.now group) ∷ open_brace)) }
{
    word(true, Keyword::Atomic, out)?;
    name(names, false, group, out)?;
    sign(false, Sign::OpenBrace, out)
}

#[tactic(auto, using(crate::proofs::Texts::texts))]
fn split(names: &[Items<u8>], list: &[NameAt], out: &mut Vec<u8>) -> Result<(), AllocError>
    ensures { OnOk result (out.new.items ≡ out.old.items
        ++ tokens_text (near (kind.Word word_of.Split) ∷ with_commas (name_tokens names.now) false list.now
        ++ open_brace)) }
{
    word(true, Keyword::Split, out)?;
    name_list(names, false, list, out)?;
    sign(false, Sign::OpenBrace, out)
}

#[tactic(auto, using(crate::proofs::Texts::texts))]
fn share(
    names: &[Items<u8>],
    shared: Name,
    group: Name,
    out: &mut Vec<u8>,
) -> Result<(), AllocError>
    ensures { OnOk result (out.new.items ≡ out.old.items
        ++ tokens_text (near (kind.Word word_of.Share) ∷ far (name_kind names.now shared)
        ∷ far (kind.Word word_of.Into) ∷ far (name_kind names.now group) ∷ semicolon)) }
{
    word(true, Keyword::Share, out)?;
    name(names, false, shared, out)?;
    word(false, Keyword::Into, out)?;
    name(names, false, group, out)?;
    sign(true, Sign::Semicolon, out)
}

#[tactic(auto, using(crate::proofs::Texts::texts))]
fn print_text(bytes: &[u8], out: &mut Vec<u8>) -> Result<(), AllocError>
    ensures { OnOk result (out.new.items ≡ out.old.items
        ++ tokens_text (near (kind.Word word_of.Print) ∷ far (kind.Text bytes.now) ∷ semicolon)) }
{
    word(true, Keyword::Print, out)?;
    text(false, bytes, out)?;
    sign(true, Sign::Semicolon, out)
}

// The line that a statement begins with.
#[tactic(auto, using(crate::proofs::Texts::statements))]
fn begin(
    alloc: Global,
    names: &[Items<u8>],
    stmt: &StmtKind,
    out: &mut Vec<u8>,
) -> Result<(), AllocError>
    ensures { OnOk result (out.new.items ≡ out.old.items ++ tokens_text (first_line names.now (action stmt.now))) }
{
    match stmt {
        StmtKind::Let(ty, local, rhs) => declaration(alloc, names, ty, local.name, rhs, out),
        StmtKind::Assign(local, rhs) => assignment(alloc, names, local.name, rhs, out),
        StmtKind::Field(field, value) => field_write(alloc, names, field, value, out),
        StmtKind::Index(array, index, value) => index_write(alloc, names, array, index, value, out),
        StmtKind::Call(made) => call_statement(alloc, names, made, out),
        StmtKind::If(test, ..) => condition(alloc, names, Keyword::If, test, out),
        StmtKind::While(test, _) => condition(alloc, names, Keyword::While, test, out),
        StmtKind::Group(group) => with_name(names, Keyword::Group, group.name, out),
        StmtKind::Split(list, _) => split(names, list.as_slice(), out),
        StmtKind::Atomic(group, _) => atomic(names, group.name, out),
        StmtKind::Freeze(local) => with_name(names, Keyword::Freeze, local.name, out),
        StmtKind::Share(local, group) => share(names, local.name, group.name, out),
        StmtKind::PrintExpr(value) => with_expr(alloc, names, Keyword::Print, value, out),
        StmtKind::PrintText(bytes) => print_text(bytes.as_slice(), out),
        StmtKind::Assert(value) => with_expr(alloc, names, Keyword::Assert, value, out),
        StmtKind::Return(value) => with_expr(alloc, names, Keyword::Return, value, out),
    }
}

// The spaces before a line.
#[tactic(auto, using(crate::proofs::Texts::texts))]
pub fn start(indent: &[u8], out: &mut Vec<u8>) -> Result<(), AllocError>
    ensures { OnOk result (out.new.items ≡ out.old.items ++ indent.now) }
{
    out.extend_from_slice(indent)
}

// The end of a line.
#[tactic(auto, using(crate::proofs::Texts::texts))]
pub fn end(out: &mut Vec<u8>) -> Result<(), AllocError>
    ensures { OnOk result (out.new.items ≡ out.old.items ++ 10 ∷ []) }
{
    out.extend_from_slice(b"\n")
}

// The indentation inside one more brace.
#[tactic(auto, using(crate::proofs::Texts::texts))]
pub fn deeper(alloc: Global, indent: &[u8]) -> Result<Vec<u8>, AllocError>
    ensures { IfOk result (λ v. v.items ≡ deeper_text indent.now) }
{
    let mut spaces = Vec::from_slice(alloc, indent)?;
    spaces.extend_from_slice(b"    ")?;
    Ok(spaces)
}

#[tactic(auto, using(crate::proofs::Texts::texts))]
pub fn close(indent: &[u8], out: &mut Vec<u8>) -> Result<(), AllocError>
    ensures { OnOk result (out.new.items ≡ out.old.items ++ row_text (row_of_close indent.now)) }
{
    start(indent, out)?;
    sign(true, Sign::CloseBrace, out)?;
    end(out)
}

#[tactic(auto, using(crate::proofs::Texts::texts))]
fn other(indent: &[u8], out: &mut Vec<u8>) -> Result<(), AllocError>
    ensures { OnOk result (out.new.items ≡ out.old.items ++ row_text (row_of_else indent.now)) }
{
    start(indent, out)?;
    sign(true, Sign::CloseBrace, out)?;
    word(false, Keyword::Else, out)?;
    sign(false, Sign::OpenBrace, out)?;
    end(out)
}

#[tactic(auto, using(crate::proofs::Texts::texts))]
fn first(
    alloc: Global,
    names: &[Items<u8>],
    indent: &[u8],
    stmt: &StmtKind,
    out: &mut Vec<u8>,
) -> Result<(), AllocError>
    ensures { OnOk result (out.new.items ≡ out.old.items
        ++ row_text (row indent.now (first_line names.now (action stmt.now)))) }
{
    start(indent, out)?;
    begin(alloc, names, stmt, out)?;
    end(out)
}

// Statements in braces, of which the first stands already.
#[cycle(lines)]
#[tactic(auto, using(crate::proofs::Texts::blocks))]
fn braces(
    alloc: Global,
    names: &[Items<u8>],
    indent: &[u8],
    block: &Block,
    out: &mut Vec<u8>,
) -> Result<(), AllocError>
    ensures { OnOk result (out.new.items ≡ out.old.items
        ++ rows_text (rows names.now (deeper_text indent.now) (braced block.now).lines)) }
{
    let inner = deeper(alloc, indent)?;
    for stmt in block.stmts.as_slice() {
        first(alloc, names, inner.as_slice(), &stmt.kind, out)?;
        blocks(alloc, names, inner.as_slice(), &stmt.kind, out)?;
    }
    Ok(())
}

// The blocks of a statement, each up to its closing brace.
#[cycle(lines)]
#[tactic(auto, using(crate::proofs::Texts::blocks))]
fn blocks(
    alloc: Global,
    names: &[Items<u8>],
    indent: &[u8],
    stmt: &StmtKind,
    out: &mut Vec<u8>,
) -> Result<(), AllocError>
    ensures { OnOk result (out.new.items ≡ out.old.items
        ++ rows_text (block_rows names.now indent.now (action stmt.now))) }
{
    match stmt {
        StmtKind::If(_, then, otherwise) => {
            braces(alloc, names, indent, then, out)?;
            match otherwise {
                Some(block) => {
                    other(indent, out)?;
                    braces(alloc, names, indent, block, out)?;
                    close(indent, out)
                }
                None => close(indent, out),
            }
        }
        StmtKind::While(_, block) | StmtKind::Split(_, block) | StmtKind::Atomic(_, block) => {
            braces(alloc, names, indent, block, out)?;
            close(indent, out)
        }
        StmtKind::Let(..)
        | StmtKind::Assign(..)
        | StmtKind::Field(..)
        | StmtKind::Index(..)
        | StmtKind::Call(_)
        | StmtKind::Group(_)
        | StmtKind::Freeze(_)
        | StmtKind::Share(..)
        | StmtKind::PrintExpr(_)
        | StmtKind::PrintText(_)
        | StmtKind::Assert(_)
        | StmtKind::Return(_) => Ok(()),
    }
}

// The lines of a block's statements, and its closing brace.
#[tactic(auto, using(crate::proofs::Texts::blocks))]
pub fn body(
    alloc: Global,
    names: &[Items<u8>],
    indent: &[u8],
    block: &Block,
    out: &mut Vec<u8>,
) -> Result<(), AllocError>
    ensures { OnOk result (out.new.items ≡ out.old.items
        ++ rows_text (rows names.now (deeper_text indent.now) (braced block.now).lines ++ row_of_close indent.now
        ∷ [])) }
{
    braces(alloc, names, indent, block, out)?;
    close(indent, out)
}
