// Methods, classes and whole programs in their canonical layout.
ghost use Rattle.std.specs.Prelude.{◌≡◌, ◌++◌, [], ◌∷◌, true, false, map, slice_get, IfOk, OnOk};
ghost use Rattle.ae_layout.specs.Spelling.{tokens_text};
ghost use Rattle.ae_tree.specs.Shown.{definition, code};
ghost use Rattle.ae_layout.specs.Layout.{after_commas, with_commas, away_tokens, param_tokens, me_tokens};
ghost use Rattle.ae_layout.specs.Layout.{params_tokens, need_tokens, needs_tokens, result_tokens, head_tokens, row};
ghost use Rattle.ae_layout.specs.Layout.{row_text, rows_text, method_rows, found_method_rows, methods_rows};
ghost use Rattle.ae_layout.specs.Layout.{field_tokens, fields_rows, class_tokens, class_rows, found_class_rows};
ghost use Rattle.ae_layout.specs.Layout.{indented_more as deeper_text, decl_rows, decls_rows, layout};
ghost use Rattle.ae_tree.specs.Grammar.{need_word};

use crate::print_expr::{groups, perm, type_name};
use crate::print_stmt::{body, close, deeper, end, start};
use crate::spell::{name, sign, word};
use ae_text::{Items, Keyword, Memory, Sign, Spot};
use ae_tree::{Class, Decl, Field, GroupNeed, Me, Method, Need, Param, Program, Ty};
use std::alloc::{AllocError, Global};

// `>> none`, where the caller gets nothing back.
#[tactic(auto, using(crate::proofs::Texts::texts))]
fn away(away: &Option<Spot>, out: &mut Vec<u8>) -> Result<(), AllocError>
    ensures { OnOk result (out.new.items ≡ out.old.items ++ tokens_text (away_tokens away.now)) }
{
    match away {
        Some(_) => {
            sign(false, Sign::Away, out)?;
            word(false, Keyword::None, out)
        }
        None => Ok(()),
    }
}

#[tactic(auto, using(crate::proofs::Texts::texts))]
fn param(
    names: &[Items<u8>],
    close: bool,
    param: &Param,
    out: &mut Vec<u8>,
) -> Result<(), AllocError>
    ensures { OnOk result (out.new.items ≡ out.old.items ++ tokens_text (param_tokens names.now close param.now)) }
{
    type_name(names, close, &param.ty, out)?;
    name(names, false, param.name.name, out)?;
    away(&param.away, out)
}

#[tactic(auto, using(crate::proofs::Texts::texts))]
fn more_params(names: &[Items<u8>], list: &[Param], out: &mut Vec<u8>) -> Result<(), AllocError>
    ensures { OnOk result (out.new.items ≡ out.old.items
        ++ tokens_text (after_commas (param_tokens names.now false) list.now)) }
{
    for item in list {
        sign(true, Sign::Comma, out)?;
        param(names, false, item, out)?;
    }
    Ok(())
}

#[tactic(auto, using(crate::proofs::Texts::texts))]
fn receiver(names: &[Items<u8>], me: &Me, out: &mut Vec<u8>) -> Result<(), AllocError>
    ensures { OnOk result (out.new.items ≡ out.old.items ++ tokens_text (me_tokens names.now me.now)) }
{
    perm(names, true, &me.perm, out)?;
    word(false, Keyword::This, out)?;
    away(&me.away, out)
}

#[tactic(auto, using(crate::proofs::Texts::texts))]
fn param_list(names: &[Items<u8>], list: &[Param], out: &mut Vec<u8>) -> Result<(), AllocError>
    ensures { OnOk result (out.new.items ≡ out.old.items
        ++ tokens_text (with_commas (param_tokens names.now) true list.now)) }
{
    match list.split_first() {
        Some((first, rest)) => {
            param(names, true, first, out)?;
            more_params(names, rest, out)
        }
        None => Ok(()),
    }
}

// The receiver and the parameters.
#[tactic(auto, using(crate::proofs::Texts::texts))]
fn params(
    names: &[Items<u8>],
    me: &Option<Me>,
    list: &[Param],
    out: &mut Vec<u8>,
) -> Result<(), AllocError>
    ensures { OnOk result (out.new.items ≡ out.old.items ++ tokens_text (params_tokens names.now me.now list.now)) }
{
    match me {
        Some(me) => {
            receiver(names, me, out)?;
            more_params(names, list, out)
        }
        None => param_list(names, list, out),
    }
}

#[tactic(auto, using(crate::proofs::Texts::texts))]
fn need_word(need: Need) -> Keyword
    ensures { result ≡ need_word need }
{
    match need {
        Need::Exclusive => Keyword::Exclusive,
        Need::Shared => Keyword::Shared,
        Need::Protected => Keyword::Protected,
    }
}

#[tactic(auto, using(crate::proofs::Texts::texts))]
fn need(names: &[Items<u8>], need: &GroupNeed, out: &mut Vec<u8>) -> Result<(), AllocError>
    ensures { OnOk result (out.new.items ≡ out.old.items ++ tokens_text (need_tokens names.now false need.now)) }
{
    word(false, need_word(need.need), out)?;
    name(names, false, need.group.name, out)
}

#[tactic(auto, using(crate::proofs::Texts::texts))]
fn more_needs(names: &[Items<u8>], list: &[GroupNeed], out: &mut Vec<u8>) -> Result<(), AllocError>
    ensures { OnOk result (out.new.items ≡ out.old.items
        ++ tokens_text (after_commas (need_tokens names.now false) list.now)) }
{
    for item in list {
        sign(true, Sign::Comma, out)?;
        need(names, item, out)?;
    }
    Ok(())
}

// What a method needs of groups, if it needs anything.
#[tactic(auto, using(crate::proofs::Texts::texts))]
fn needs(names: &[Items<u8>], list: &[GroupNeed], out: &mut Vec<u8>) -> Result<(), AllocError>
    ensures { OnOk result (out.new.items ≡ out.old.items ++ tokens_text (needs_tokens names.now list.now)) }
{
    match list.split_first() {
        Some((first, rest)) => {
            word(false, Keyword::With, out)?;
            need(names, first, out)?;
            more_needs(names, rest, out)
        }
        None => Ok(()),
    }
}

// A result, or `void`.
#[tactic(auto, using(crate::proofs::Texts::texts))]
fn result_type(names: &[Items<u8>], ty: &Option<Ty>, out: &mut Vec<u8>) -> Result<(), AllocError>
    ensures { OnOk result (out.new.items ≡ out.old.items ++ tokens_text (result_tokens names.now ty.now)) }
{
    match ty {
        Some(ty) => type_name(names, false, ty, out),
        None => word(false, Keyword::Void, out),
    }
}

// A method up to its open brace.
#[tactic(auto, using(crate::proofs::Texts::texts))]
fn head(names: &[Items<u8>], method: &Method, out: &mut Vec<u8>) -> Result<(), AllocError>
    ensures { OnOk result (out.new.items ≡ out.old.items
        ++ tokens_text (head_tokens names.now (definition method.now))) }
{
    word(true, Keyword::Method, out)?;
    result_type(names, &method.result, out)?;
    name(names, false, method.name.name, out)?;
    groups(names, method.groups.as_slice(), out)?;
    sign(true, Sign::OpenParen, out)?;
    params(names, &method.me, method.params.as_slice(), out)?;
    sign(true, Sign::CloseParen, out)?;
    needs(names, method.needs.as_slice(), out)?;
    sign(false, Sign::OpenBrace, out)
}

#[tactic(auto, using(crate::proofs::Texts::decls))]
fn method(
    alloc: Global,
    names: &[Items<u8>],
    indent: &[u8],
    method: &Method,
    out: &mut Vec<u8>,
) -> Result<(), AllocError>
    ensures { OnOk result (out.new.items ≡ out.old.items
        ++ rows_text (method_rows names.now indent.now (definition method.now))) }
{
    start(indent, out)?;
    head(names, method, out)?;
    end(out)?;
    body(alloc, names, indent, &method.body, out)
}

// The method with this number, if there is one.
#[tactic(auto, using(crate::proofs::Texts::decls))]
fn numbered_method(
    alloc: Global,
    names: &[Items<u8>],
    indent: &[u8],
    list: &[Method],
    number: u32,
    out: &mut Vec<u8>,
) -> Result<(), AllocError>
    ensures { OnOk result (out.new.items ≡ out.old.items
        ++ rows_text (found_method_rows names.now indent.now (slice_get (map definition list.now) number))) }
{
    match list.get(number as usize) {
        Some(found) => method(alloc, names, indent, found, out),
        None => Ok(()),
    }
}

#[tactic(auto, using(crate::proofs::Texts::decls))]
fn numbered_methods(
    alloc: Global,
    names: &[Items<u8>],
    indent: &[u8],
    list: &[Method],
    numbers: &[u32],
    out: &mut Vec<u8>,
) -> Result<(), AllocError>
    ensures { OnOk result (out.new.items ≡ out.old.items
        ++ rows_text (methods_rows names.now indent.now (map definition list.now) numbers.now)) }
{
    for number in numbers {
        numbered_method(alloc, names, indent, list, *number, out)?;
    }
    Ok(())
}

#[tactic(auto, using(crate::proofs::Texts::texts))]
fn field(
    names: &[Items<u8>],
    indent: &[u8],
    field: &Field,
    out: &mut Vec<u8>,
) -> Result<(), AllocError>
    ensures { OnOk result (out.new.items ≡ out.old.items
        ++ row_text (row indent.now (field_tokens names.now field.now))) }
{
    start(indent, out)?;
    type_name(names, true, &field.ty, out)?;
    name(names, false, field.name.name, out)?;
    sign(true, Sign::Semicolon, out)?;
    end(out)
}

#[tactic(auto, using(crate::proofs::Texts::decls))]
fn fields(
    names: &[Items<u8>],
    indent: &[u8],
    list: &[Field],
    out: &mut Vec<u8>,
) -> Result<(), AllocError>
    ensures { OnOk result (out.new.items ≡ out.old.items ++ rows_text (fields_rows names.now indent.now list.now)) }
{
    for item in list {
        field(names, indent, item, out)?;
    }
    Ok(())
}

// A class up to its open brace, and the end of the line.
#[tactic(auto, using(crate::proofs::Texts::texts))]
fn class_head(names: &[Items<u8>], class: &Class, out: &mut Vec<u8>) -> Result<(), AllocError>
    ensures { OnOk result (out.new.items ≡ out.old.items ++ row_text (row [] (class_tokens names.now class.now))) }
{
    word(true, Keyword::Class, out)?;
    name(names, false, class.name.name, out)?;
    groups(names, class.groups.as_slice(), out)?;
    sign(false, Sign::OpenBrace, out)?;
    end(out)
}

#[tactic(auto, using(crate::proofs::Texts::decls))]
fn class(
    alloc: Global,
    names: &[Items<u8>],
    list: &[Method],
    class: &Class,
    out: &mut Vec<u8>,
) -> Result<(), AllocError>
    ensures { OnOk result (out.new.items ≡ out.old.items
        ++ rows_text (class_rows names.now (map definition list.now) class.now)) }
{
    let indent = deeper(alloc, b"")?;
    class_head(names, class, out)?;
    fields(names, indent.as_slice(), class.fields.as_slice(), out)?;
    numbered_methods(
        alloc,
        names,
        indent.as_slice(),
        list,
        class.methods.as_slice(),
        out,
    )?;
    close(b"", out)
}

// A declaration, where the program has it.
#[tactic(auto, using(crate::proofs::Texts::decls))]
fn declaration(
    alloc: Global,
    program: &Program,
    decl: Decl,
    out: &mut Vec<u8>,
) -> Result<(), AllocError>
    ensures { OnOk result (out.new.items ≡ out.old.items ++ rows_text (decl_rows (code program.now) decl)) }
{
    let names = program.names.as_slice();
    let methods = program.methods.as_slice();
    match decl {
        Decl::Class(number) => match program.classes.as_slice().get(number as usize) {
            Some(found) => class(alloc, names, methods, found, out),
            None => Ok(()),
        },
        Decl::Method(number) => numbered_method(alloc, names, b"", methods, number, out),
    }
}

#[tactic(auto, using(crate::proofs::Texts::decls))]
fn declarations(alloc: Global, program: &Program, out: &mut Vec<u8>) -> Result<(), AllocError>
    ensures { OnOk result (out.new.items ≡ out.old.items
        ++ rows_text (decls_rows (code program.now) program.now.decls)) }
{
    for decl in program.decls.as_slice() {
        declaration(alloc, program, *decl, out)?;
    }
    Ok(())
}

/// The canonical layout of a program: a statement, a field, a head up to its brace or a closing brace a line, four
/// spaces for each open brace, and one space between two tokens but where they stand close. A name, class or method
/// whose number is out of range is written as nothing.
#[tactic(auto, using(crate::proofs::Texts::decls))]
pub fn print_program(alloc: Global, program: &Program) -> Result<Items<u8>, Memory>
    ensures { IfOk result (λ t. t ≡ layout (code program.now)) }
{
    let mut out = Vec::new(alloc);
    match declarations(alloc, program, &mut out) {
        Ok(()) => Ok(Items::from_vec(out)),
        Err(_) => Err(Memory),
    }
}
