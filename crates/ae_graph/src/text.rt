// The text of the graphs of a program.
ghost use Rattle.std.specs.Prelude.{◌≡◌, ◌<◌, ◌≤◌, ◌^◌, ◌++◌, [], ◌∷◌, List, ℕ, length, slice_index_or, codes, IfOk, OnOk};
ghost use Rattle.std.specs.Prelude.{Some};
ghost use Rattle.std.specs.List.{flat_map};
ghost use Rattle.std.specs.Fmt.{decimal};
ghost use Rattle.ae_tree.specs.Plain.{Code};
ghost use Rattle.ae_tree.specs.Shown.{definition, code as plain};
ghost use Rattle.ae_tree.specs.Limits.{Within};
ghost use Rattle.ae_tree.specs.WellShaped.{WellShaped};
ghost use Rattle.ae_rules.specs.Lookups.{method_at};
ghost use Rattle.ae_rules.specs.Judges.{Accepts};
ghost use Rattle.ae_rules.specs.Blocks.{Opened};
ghost use Rattle.ae_judge.specs.Tabled.{code_of};
ghost use Rattle.ae_scope.specs.Scope.{Empty};
ghost use Rattle.ae_graph.specs.Graph.{Graph};
ghost use Rattle.ae_graph.specs.GraphText as texts;
ghost use Rattle.ae_graph.specs.GraphText.{written_name, spaced, line_text, lines_text, block_text};
ghost use Rattle.ae_graph.specs.Drawn.{AreDrawable, IsDrawable};

use crate::block::{BlockGraph, graph_drawn};
use crate::drawable::{drawable_blocks, empty_scope};
use ae_bodies::tabled_of;
use ae_code::{Checked, Method, Name, Program};
use ae_judge::Tabled;
use ae_scope::Scope;
use ae_text::{Items, Memory};
use ae_uses::OpenedBlock;
use std::alloc::{AllocError, Global};

fn spelling_of(names: &[Items<u8>], name: Name) -> &[u8]
    ensures { result.now ≡ written_name names.now name }
{
    match names.get(name as usize) {
        Some(spelling) => spelling.as_slice(),
        None => &[],
    }
}

// A number behind a space.
fn put_number(alloc: Global, text: &mut Vec<u8>, number: u32) -> Result<(), AllocError>
    ensures { OnOk result (text.new.items ≡ text.old.items ++ 32 ∷ decimal number) }
{
    let one = format!(in alloc; " {number}")?;
    text.extend_from_slice(one.as_bytes())
}

fn put_numbers(alloc: Global, text: &mut Vec<u8>, numbers: &[u32]) -> Result<(), AllocError>
    ensures { OnOk result (text.new.items ≡ text.old.items ++ spaced numbers.now) }
{
    for number in numbers {
        put_number(alloc, text, *number)?;
    }
    Ok(())
}

fn put_line_head(alloc: Global, text: &mut Vec<u8>, at: u32) -> Result<(), AllocError>
    ensures { OnOk result (text.new.items ≡ text.old.items ++ (decimal at ++ codes " after")) }
{
    let head = format!(in alloc; "{at} after")?;
    text.extend_from_slice(head.as_bytes())
}

// The line of a statement, where it waits for some.
#[tactic(auto, using(crate::proofs::Rules::forms))]
fn put_line(alloc: Global, text: &mut Vec<u8>, at: u32, preds: &[u32]) -> Result<(), AllocError>
    ensures { OnOk result (text.new.items ≡ text.old.items ++ line_text at preds.now) }
{
    if preds.is_empty() {
        return Ok(());
    }
    put_line_head(alloc, text, at)?;
    put_numbers(alloc, text, preds)?;
    text.push(b'\n')?;
    Ok(())
}

fn put_lines(alloc: Global, text: &mut Vec<u8>, rows: &[Items<u32>]) -> Result<(), AllocError>
    requires { length rows.now < 2 ^ 32 }
    ensures { OnOk result (text.new.items ≡ text.old.items ++ lines_text 0 rows.now) }
{
    for (at, preds) in rows.iter().enumerate() {
        put_line(alloc, text, at as u32, preds.as_slice())?;
    }
    Ok(())
}

fn put_block_head(
    alloc: Global,
    text: &mut Vec<u8>,
    number: u32,
    count: usize,
) -> Result<(), AllocError>
    ensures { OnOk result (text.new.items ≡ text.old.items
        ++ (codes "block " ++ decimal number ++ codes " has " ++ decimal count ++ codes "\n")) }
{
    let head = format!(in alloc; "block {number} has {count}\n")?;
    text.extend_from_slice(head.as_bytes())
}

#[tactic(auto, using(crate::proofs::Rules::forms))]
fn put_block(
    alloc: Global,
    text: &mut Vec<u8>,
    number: u32,
    graph: &BlockGraph,
) -> Result<(), AllocError>
    ensures { OnOk result (text.new.items ≡ text.old.items ++ block_text number graph.now) }
{
    let rows = graph.rows();
    put_block_head(alloc, text, number, rows.len())?;
    put_lines(alloc, text, rows)
}

// The graph of a block.
fn put_opened(alloc: Global, text: &mut Vec<u8>, opened: &OpenedBlock) -> Result<(), AllocError>
    requires { (p : Code) × (x : Opened) × IsDrawable p x opened.now }
    ensures { (p : Code) (x : Opened) → IsDrawable p x opened.now
        → OnOk result (text.new.items ≡ text.old.items ++ texts.text_of_block p x) }
{
    let graph = graph_drawn(alloc, opened)?;
    put_block(alloc, text, opened.no, &graph)
}

// The graphs of blocks, one after another.
fn put_blocks(alloc: Global, text: &mut Vec<u8>, blocks: &[OpenedBlock]) -> Result<(), AllocError>
    requires { (p : Code) × (xs : List Opened) × AreDrawable p xs blocks.now }
    ensures { (p : Code) (xs : List Opened) → AreDrawable p xs blocks.now
        → OnOk result (text.new.items ≡ text.old.items ++ flat_map (texts.text_of_block p) xs) }
{
    for opened in blocks {
        put_opened(alloc, text, opened)?;
    }
    Ok(())
}

// The class in which a method stands, with a dot.
#[tactic(auto, using(crate::proofs::Rules::forms))]
fn put_class(text: &mut Vec<u8>, program: &Program, method: &Method) -> Result<(), AllocError>
    ensures { OnOk result (text.new.items
        ≡ text.old.items ++ texts.in_class (plain program.now) (definition method.now)) }
{
    match method.class {
        Some(number) => match program.classes.get(number as usize) {
            Some(class) => {
                text.extend_from_slice(spelling_of(program.names.as_slice(), class.name.name))?;
                text.push(b'.')?;
                Ok(())
            }
            None => Ok(()),
        },
        None => Ok(()),
    }
}

// A method's name.
#[tactic(auto, using(crate::proofs::Rules::forms))]
fn put_head(text: &mut Vec<u8>, program: &Program, method: &Method) -> Result<(), AllocError>
    ensures { OnOk result (text.new.items ≡ text.old.items ++ (codes "method "
        ++ texts.in_class (plain program.now) (definition method.now)
        ++ written_name program.now.names method.now.name.name ++ codes "\n")) }
{
    text.extend_from_slice(b"method ")?;
    put_class(text, program, method)?;
    text.extend_from_slice(spelling_of(program.names.as_slice(), method.name.name))?;
    text.push(b'\n')?;
    Ok(())
}

// A method's name, and the graphs of these blocks.
fn put_named(
    alloc: Global,
    text: &mut Vec<u8>,
    program: &Program,
    method: &Method,
    blocks: &[OpenedBlock],
) -> Result<(), AllocError>
    requires { (xs : List Opened) × AreDrawable (plain program.now) xs blocks.now }
    ensures { (xs : List Opened) → AreDrawable (plain program.now) xs blocks.now → OnOk result (text.new.items
        ≡ text.old.items ++ texts.text_of_blocks (plain program.now) (definition method.now) xs) }
{
    put_head(text, program, method)?;
    put_blocks(alloc, text, blocks)
}

// A method with the graphs of its blocks.
fn put_method(
    tabled: &Tabled,
    text: &mut Vec<u8>,
    method: &Method,
    scope: &mut Scope,
) -> Result<(), Memory>
    requires accepted { Accepts (code_of tabled.now) }
    requires shaped { WellShaped (code_of tabled.now) }
    requires within { Within (code_of tabled.now) }
    requires method { (n : ℕ) × (method_at (code_of tabled.now) n ≡ Some (definition method.now)) }
    requires empty { Empty (length tabled.now.program.now.names) scope.old }
    ensures text { OnOk result (text.new.items
        ≡ text.old.items ++ texts.text_of_method (code_of tabled.now) (definition method.now)) }
    ensures empty { OnOk result (Empty (length tabled.now.program.now.names) scope.new) }
{
    let blocks = drawable_blocks(tabled, method, scope)?;
    let program = tabled.program;
    match put_named(tabled.alloc, text, program, method, blocks.as_slice()) {
        Ok(()) => Ok(()),
        Err(_) => Err(Memory),
    }
}

// The methods in order, each with the graphs of its blocks.
fn methods_text(tabled: &Tabled, scope: &mut Scope) -> Result<Items<u8>, Memory>
    requires accepted { Accepts (code_of tabled.now) }
    requires shaped { WellShaped (code_of tabled.now) }
    requires within { Within (code_of tabled.now) }
    requires empty { Empty (length tabled.now.program.now.names) scope.old }
    ensures { IfOk result (λ text. text ≡ texts.graph_text (code_of tabled.now)) }
{
    let mut text = Vec::new(tabled.alloc);
    for method in tabled.program.methods.as_slice() {
        put_method(tabled, &mut text, method, scope)?;
    }
    Ok(Items::from_vec(text))
}

/// The text of the graphs of an accepted program within the limits: the methods in order, a class's with its name
/// before theirs, under each its blocks that are not inside an atomic block, in the order in which they are opened, with
/// their numbers and how many statements they have, and a line for each statement that waits for others. Nothing is
/// refused but for memory.
pub fn graph_text(alloc: Global, code: &Checked) -> Result<Items<u8>, Memory>
    requires shaped { WellShaped (plain code.now.program) }
    requires within { Within (plain code.now.program) }
    ensures { IfOk result (λ text. text ≡ texts.graph_text (plain code.now.program)) }
{
    let tabled = tabled_of(alloc, code);
    let mut scope = empty_scope(alloc, tabled.program.names.len())?;
    methods_text(&tabled, &mut scope)
}
