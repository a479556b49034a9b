// Classes with their methods.
ghost use Rattle.std.specs.Prelude.{◌≡◌, ◌≤◌, ◌+◌, length, map, IfOk};
ghost use Rattle.ae_text.specs.declared.token.Keyword.TheVariants as word;
ghost use Rattle.ae_tree.specs.declared.lexeme.Lexical.TheVariants as tok;
ghost use Rattle.ae_tree.specs.Shown as shown;
ghost use Rattle.ae_tree.specs.Grammar as grammar;
ghost use Rattle.ae_reading.specs.Reads.{Reads, itself, Always, Free, Isnt};
ghost use Rattle.ae_parser.specs.Productions.{NoType, AllMethodsKeep, KeepsOne, shown_class, class_behind};

use crate::methods::method;
use crate::params::is_type_next;
use ae_reading::{Fail, expect_sign, expect_word, groups, is_word_next, name, type_};
use ae_text::{Items, Keyword, Sign};
use ae_tree::{Class, Field, Lexeme, Method};
use std::alloc::{AllocError, Global};

/// A class, and the methods in it.
#[derive(Drop)]
pub(crate) struct WithMethods {
    pub(crate) class: Class,
    pub(crate) methods: Items<Method>,
}

fn field<'a>(alloc: Global, ts: &'a [Lexeme]) -> Result<(Field, &'a [Lexeme]), Fail>
    ensures { Reads itself grammar.field Free Always ts.now result }
{
    let (ty, rest) = type_(alloc, ts)?;
    let (name, rest) = name(rest)?;
    let (_, rest) = expect_sign(rest, Sign::Semicolon)?;
    Ok((Field { ty, name }, rest))
}

fn fields<'a>(alloc: Global, ts: &'a [Lexeme]) -> Result<(Items<Field>, &'a [Lexeme]), Fail>
    ensures { Reads itself (grammar.one_by_one grammar.field) Free NoType ts.now result }
{
    let mut fields = Items::new(alloc);
    let mut rest = ts;
    'fields: while is_type_next(rest) {
        let (field, after) = field(alloc, rest)?;
        fields.push(field)?;
        rest = after;
    }
    Ok((fields, rest))
}

fn class_methods<'a>(
    alloc: Global,
    class: u32,
    ts: &'a [Lexeme],
) -> Result<(Items<Method>, &'a [Lexeme]), Fail>
    requires { length ts.now ≤ 1048577 }
    ensures { Reads (map shown.definition) (grammar.one_by_one (grammar.method (Some class))) AllMethodsKeep
        (Isnt (tok.Word word.Method)) ts.now result }
{
    let mut methods = Items::new(alloc);
    let mut rest = ts;
    'methods: while is_word_next(rest, Keyword::Method) {
        let (method, after) = method(alloc, Some(class), rest)?;
        methods.push(method)?;
        rest = after;
    }
    Ok((methods, rest))
}

/// So many numbers, from `first` on.
fn numbers(alloc: Global, first: u32, count: usize) -> Result<Items<u32>, AllocError>
    requires { first + count ≤ 4294967295 }
    ensures { IfOk result (λ numbers. numbers ≡ grammar.numbers_from first count) }
{
    let mut numbers = Items::new(alloc);
    let mut next = first;
    let mut left = count;
    'numbers: while left > 0 {
        numbers.push(next)?;
        next += 1;
        left -= 1;
    }
    Ok(numbers)
}

/// The class with this number, whose methods are numbered from `first` on.
pub(crate) fn class<'a>(
    alloc: Global,
    number: u32,
    first: u32,
    ts: &'a [Lexeme],
) -> Result<(WithMethods, &'a [Lexeme]), Fail>
    requires short { length ts.now ≤ 1048577 }
    requires numbers { first + length ts.now ≤ 4294967295 }
    ensures { Reads shown_class (class_behind number first) KeepsOne Always ts.now result }
{
    let (_, rest) = expect_word(ts, Keyword::Class)?;
    let (name, rest) = name(rest)?;
    let (groups, rest) = groups(alloc, rest)?;
    let (_, rest) = expect_sign(rest, Sign::OpenBrace)?;
    let (fields, rest) = fields(alloc, rest)?;
    let (methods, rest) = class_methods(alloc, number, rest)?;
    let (_, rest) = expect_sign(rest, Sign::CloseBrace)?;
    let numbers = numbers(alloc, first, methods.len())?;
    let class = Class {
        name,
        groups,
        fields,
        methods: numbers,
    };
    Ok((WithMethods { class, methods }, rest))
}
