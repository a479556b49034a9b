// Classes and methods, one after another.
ghost use Rattle.std.specs.Prelude.{◌≡◌, ◌≤◌, ◌+◌, length};
ghost use Rattle.ae_tree.specs.Grammar as grammar;
ghost use Rattle.ae_parser.specs.Reading.{ReadsAll};
ghost use Rattle.ae_parser.specs.Productions.{ReadsOne, class_behind, method_behind};

use crate::classes::{WithMethods, class};
use crate::methods::method;
use ae_reading::{Fail, is_end_next, is_word_next};
use ae_text::{Items, Keyword};
use ae_tree::{Class, Decl, Lexeme, Method};
use std::alloc::Global;

/// The parts of a program, in the order in which they are declared.
#[derive(Drop)]
pub(crate) struct Parts {
    pub(crate) classes: Items<Class>,
    pub(crate) methods: Items<Method>,
    pub(crate) decls: Items<Decl>,
}

fn add_class<'a>(alloc: Global, parts: &mut Parts, ts: &'a [Lexeme]) -> Result<&'a [Lexeme], Fail>
    requires classes { length parts.old.classes + length ts.now ≤ 1048577 }
    requires methods { length parts.old.methods + length ts.now ≤ 1048577 }
    ensures { ReadsOne class_behind parts.old parts.new ts.now result }
{
    let number = parts.classes.len() as u32;
    let first = parts.methods.len() as u32;
    let (read, rest) = class(alloc, number, first, ts)?;
    let WithMethods { class, methods } = read;
    parts.classes.push(class)?;
    parts.methods.append(methods)?;
    parts.decls.push(Decl::Class(number))?;
    Ok(rest)
}

fn add_method<'a>(alloc: Global, parts: &mut Parts, ts: &'a [Lexeme]) -> Result<&'a [Lexeme], Fail>
    requires classes { length parts.old.classes + length ts.now ≤ 1048577 }
    requires methods { length parts.old.methods + length ts.now ≤ 1048577 }
    ensures { ReadsOne method_behind parts.old parts.new ts.now result }
{
    let number = parts.methods.len() as u32;
    let (method, rest) = method(alloc, None, ts)?;
    parts.methods.push(method)?;
    parts.decls.push(Decl::Method(number))?;
    Ok(rest)
}

/// Reads a declaration and adds it.
fn add<'a>(alloc: Global, parts: &mut Parts, ts: &'a [Lexeme]) -> Result<&'a [Lexeme], Fail>
    requires classes { length parts.old.classes + length ts.now ≤ 1048577 }
    requires methods { length parts.old.methods + length ts.now ≤ 1048577 }
    ensures { ReadsOne grammar.declaration parts.old parts.new ts.now result }
{
    if is_word_next(ts, Keyword::Class) {
        add_class(alloc, parts, ts)
    } else {
        add_method(alloc, parts, ts)
    }
}

/// All declarations of a program, with the end behind them.
pub(crate) fn read_all_declarations(alloc: Global, ts: &[Lexeme]) -> Result<Parts, Fail>
    requires { length ts.now ≤ 1048577 }
    ensures { ReadsAll ts.now result }
{
    let mut parts = Parts {
        classes: Items::new(alloc),
        methods: Items::new(alloc),
        decls: Items::new(alloc),
    };
    let mut rest = ts;
    'declarations: while !is_end_next(rest) {
        rest = add(alloc, &mut parts, rest)?;
    }
    Ok(parts)
}
