// Calls that no mode makes, the graph of a block, and the order in which it is run, on programs that were read.
ghost use Rattle.std.specs.Prelude.{IfOk};
ghost use Rattle.ae_tree.specs.Shown.{code as plain};
ghost use Rattle.ae_tree.specs.Built.{Built};
ghost use Rattle.ae_tree.specs.Limits.{Within};
ghost use Rattle.ae_tree.specs.WellShaped.{WellShaped};
ghost use Rattle.aem.specs.Small.{HasSource};

use crate::built::is_built;
use crate::modes::judge;
use crate::top::{aeminium, read_program};
use ae_bodies::{method_uses, tabled_of};
use ae_code::Checked;
use ae_graph::BlockGraph;
use ae_meaning::{Ending, evaluate};
use ae_rules::{Mode, Resource, Use};
use ae_scope::Scope;
use ae_text::{Deny, Edge, Gate, Items, MemSink, MemSource, Memory, Spot};
use ae_tree::{Form, Kind, Name, Perm, Program, derived_programs_are_well_shaped, form_of};
use ae_uses::OpenedBlock;
use std::alloc::{AllocError, Global};
use std::sync::atomic::{AtomicBool, AtomicU32, AtomicUsize, Ordering};
use std::test::Fail;

const MOST: usize = 1_048_576;

/// The program that a text is.
pub fn program_of(alloc: Global, text: &[u8]) -> Result<Program, Deny>
    ensures { IfOk result (λ p. HasSource (plain p)) }
{
    if text.len() > MOST {
        return Err(Deny::Memory);
    }
    read_program(alloc, text)
}

// The accepted program that a text is.
fn accepted_of(alloc: Global, text: &[u8]) -> Result<Checked, Deny>
    ensures shaped { IfOk result (λ k. WellShaped (plain k.program)) }
    ensures within { IfOk result (λ k. Within (plain k.program)) }
{
    derived_programs_are_well_shaped();
    let program = match program_of(alloc, text) {
        Ok(program) => program,
        Err(deny) => return Err(deny),
    };
    judge(alloc, program)
}

// ---- forms of types

const TYPES: &str = "class C {
int x;
bool y;
unique Ints z;
immutable Ints w;
unique C u;
}
class D<g, h> {
shared<g> Ints s;
immutable D<h, g> i;
shared<h> D<g, h> t;
unique D<g, g> u;
}
method int f<k, g>(int p, bool q, lent Ints l, lent C c, lent D<g, k> d, shared<k> C s, immutable C i) {
return p;
}
";

// The forms of its fields and parameters, with the groups of a class behind it.
const FORMS: &str = "int
bool
unique Ints
immutable Ints
unique C
shared g Ints
immutable D h g
shared h D g h
unique D g g
int
bool
lent Ints
lent C
lent D g k
shared k C
immutable C
";

// The spelling of a name.
fn put_name(names: &[Items<u8>], name: Name, text: &mut Vec<u8>) -> Result<(), AllocError> {
    match names.get(name as usize) {
        Some(spelling) => text.extend_from_slice(spelling.as_slice()),
        None => text.extend_from_slice(b"?"),
    }
}

// A permission, with its group.
fn put_perm(names: &[Items<u8>], perm: Perm, text: &mut Vec<u8>) -> Result<(), AllocError> {
    match perm {
        Perm::Unique => text.extend_from_slice(b"unique "),
        Perm::Immutable => text.extend_from_slice(b"immutable "),
        Perm::Lent => text.extend_from_slice(b"lent "),
        Perm::Shared(group) => {
            text.extend_from_slice(b"shared ")?;
            put_name(names, group, text)?;
            text.extend_from_slice(b" ")
        }
    }
}

// Integers, or a class with its groups.
fn put_kind(names: &[Items<u8>], kind: &Kind, text: &mut Vec<u8>) -> Result<(), AllocError> {
    match kind {
        Kind::Ints => text.extend_from_slice(b"Ints"),
        Kind::Class(class, groups) => {
            put_name(names, *class, text)?;
            for group in groups.as_slice() {
                text.extend_from_slice(b" ")?;
                put_name(names, *group, text)?;
            }
            Ok(())
        }
    }
}

// A line with the form.
fn put_form(names: &[Items<u8>], form: &Form, text: &mut Vec<u8>) -> Result<(), AllocError> {
    match form {
        Form::Int => text.extend_from_slice(b"int")?,
        Form::Bool => text.extend_from_slice(b"bool")?,
        Form::Object(perm, kind) => {
            put_perm(names, *perm, text)?;
            put_kind(names, kind, text)?;
        }
    }
    text.extend_from_slice(b"\n")
}

// Each kind of type has its form.
#[test]
fn forms(rt: HostRuntime) -> Result<(), Fail> {
    let alloc = rt.alloc();
    let program = program_of(alloc, TYPES.as_bytes())?;
    let names = program.names.as_slice();
    let mut text = Vec::new(alloc);
    for class in program.classes.as_slice() {
        for field in class.fields.as_slice() {
            put_form(names, &form_of(alloc, &field.ty)?, &mut text)?;
        }
    }
    for method in program.methods.as_slice() {
        for param in method.params.as_slice() {
            put_form(names, &form_of(alloc, &param.ty)?, &mut text)?;
        }
    }
    assert_eq!(rt; text.as_slice(), FORMS.as_bytes());
    Ok(())
}

// ---- uses and graphs

const USES: &str = "method void main() with exclusive io {
let int a = 2;
let int b = a;
print a + b;
a = a * a;
print 7;
let int c = 7;
}
";

const A: Name = 3;

const B: Name = 4;

const C: Name = 5;

// A statement, what it uses, those for which it waits, and those that wait for it.
struct Row {
    stmt: u32,
    uses: &'static [Use],
    preds: &'static [u32],
    succs: &'static [u32],
}

const A_READ: Use = Use {
    what: Resource::Local(A),
    mode: Mode::Read,
};

const A_WRITTEN: Use = Use {
    what: Resource::Local(A),
    mode: Mode::Write,
};

const B_READ: Use = Use {
    what: Resource::Local(B),
    mode: Mode::Read,
};

const B_WRITTEN: Use = Use {
    what: Resource::Local(B),
    mode: Mode::Write,
};

const C_WRITTEN: Use = Use {
    what: Resource::Local(C),
    mode: Mode::Write,
};

const IO_WHOLE: Use = Use {
    what: Resource::Group(0),
    mode: Mode::GroupWhole,
};

const ROWS: [Row; 6] = [
    Row {
        stmt: 0,
        uses: &[A_WRITTEN],
        preds: &[],
        succs: &[1, 2, 3],
    },
    Row {
        stmt: 1,
        uses: &[A_READ, B_WRITTEN],
        preds: &[0],
        succs: &[2, 3],
    },
    Row {
        stmt: 2,
        uses: &[A_READ, B_READ, IO_WHOLE],
        preds: &[0, 1],
        succs: &[3, 4],
    },
    Row {
        stmt: 3,
        uses: &[A_WRITTEN],
        preds: &[0, 1, 2],
        succs: &[],
    },
    Row {
        stmt: 4,
        uses: &[IO_WHOLE],
        preds: &[2],
        succs: &[],
    },
    Row {
        stmt: 5,
        uses: &[C_WRITTEN],
        preds: &[],
        succs: &[],
    },
];

const EDGES: [Edge; 7] = [
    Edge { from: 0, to: 1 },
    Edge { from: 0, to: 2 },
    Edge { from: 1, to: 2 },
    Edge { from: 0, to: 3 },
    Edge { from: 1, to: 3 },
    Edge { from: 2, to: 3 },
    Edge { from: 2, to: 4 },
];

// What the statements of the first method use, block by block.
fn uses_of(alloc: Global, code: &Checked) -> Result<Items<OpenedBlock>, Memory>
    requires shaped { WellShaped (plain code.now.program) }
{
    let tabled = tabled_of(alloc, code);
    let Some(method) = tabled.program.methods.get(0) else {
        return Err(Memory);
    };
    match Scope::new(alloc, tabled.program.names.len()) {
        Ok(mut scope) => method_uses(&tabled, method, &mut scope),
        Err(_) => Err(Memory),
    }
}

// The graph of the body of `main`.
fn graph_of(alloc: Global, code: &Checked) -> Result<BlockGraph, Memory>
    requires built { Built (plain code.now.program) }
    requires shaped { WellShaped (plain code.now.program) }
    requires within { Within (plain code.now.program) }
{
    BlockGraph::of(alloc, code, 0, 0)
}

// Each statement has its uses, and the graph is theirs.
#[test]
fn uses_and_graph(rt: HostRuntime) -> Result<(), Fail> {
    let alloc = rt.alloc();
    let code = accepted_of(alloc, USES.as_bytes())?;
    assert!(rt; is_built(code.program()));
    let graph = graph_of(alloc, &code)?;
    let blocks = uses_of(alloc, &code)?;
    assert_eq!(rt; blocks.len(), 1);
    let body = &blocks.as_slice()[0];
    assert_eq!(rt; body.no, 0);
    assert_eq!(rt; body.uses.len(), 6);
    for row in &ROWS {
        assert!(rt; (row.stmt as usize) < body.uses.len());
        let footprint = &body.uses.as_slice()[row.stmt as usize];
        assert_eq!(rt; footprint.uses.as_slice(), row.uses, "uses of {}", row.stmt);
        assert!(rt; (row.stmt as usize) < graph.len());
        assert_eq!(rt; graph.preds(row.stmt), row.preds, "before {}", row.stmt);
        assert_eq!(rt; graph.succs(row.stmt), row.succs, "after {}", row.stmt);
    }
    assert_eq!(rt; graph.len(), 6);
    assert_eq!(rt; graph.edges(), EDGES.as_slice());
    assert_eq!(rt; graph.wide(), 2);
    Ok(())
}

// ---- meanings

// A source, its ending, and what it prints up to there.
struct Run {
    source: &'static str,
    ending: Ending,
    out: &'static str,
}

const RUNS: [Run; 7] = [
    Run {
        source: "method void main() with exclusive io {\nlet int a = 2;\nlet int b = 3;\nprint a + b;\n}\n",
        ending: Ending::Done,
        out: "5\n",
    },
    Run {
        source: "method void main() with exclusive io { }",
        ending: Ending::Done,
        out: "",
    },
    Run {
        source: "method void main() with exclusive io {\nlet int a = -7;\nprint a / 2;\nprint a % 2;\na = a * a;\nprint a - (1 - 2);\n}\n",
        ending: Ending::Done,
        out: "-3\n-1\n50\n",
    },
    Run {
        source: "method void main() with exclusive io {\nlet int a = 9223372036854775807;\nprint a;\nprint a + 1;\nprint 2;\n}\n",
        ending: Ending::Trap {
            code: 1,
            at: Spot { line: 4, col: 1 },
        },
        out: "9223372036854775807\n",
    },
    Run {
        source: "method void main() with exclusive io {\nlet int a = -9223372036854775807 - 1;\nprint a % -1;\nprint -a;\n}\n",
        ending: Ending::Trap {
            code: 1,
            at: Spot { line: 4, col: 1 },
        },
        out: "0\n",
    },
    Run {
        source: "method void main() with exclusive io {\nlet int a = 0;\nprint a - 7;\nlet int b = 1 / a;\nprint b;\n}\n",
        ending: Ending::Trap {
            code: 2,
            at: Spot { line: 4, col: 1 },
        },
        out: "-7\n",
    },
    Run {
        source: "method void main() with exclusive io {\nprint 1 % 0;\n}\n",
        ending: Ending::Trap {
            code: 2,
            at: Spot { line: 2, col: 1 },
        },
        out: "",
    },
];

const FUEL: u32 = 100_000;

// Each program has its ending, and printed this up to there.
#[test]
fn meanings(rt: HostRuntime) -> Result<(), Fail> {
    let alloc = rt.alloc();
    for run in &RUNS {
        let code = accepted_of(alloc, run.source.as_bytes())?;
        assert!(rt; is_built(code.program()));
        let meant = evaluate(alloc, &code, &[], FUEL)?;
        assert_eq!(rt; meant.ending, Some(run.ending), "{}", run.source);
        assert_eq!(rt; meant.out.as_slice(), run.out.as_bytes(), "{}", run.source);
    }
    Ok(())
}

// ---- the order of a run

const ORDER: &str = "method void main() with exclusive io {
let int a = 2;
let int b = 3;
let int c = a * 10;
let int d = b * 10;
print c;
print d;
print c + d;
}
";

// The moments of its run, by number: of the statements that are ready, the last one in the source is run first, and it
// is over before the next begins.
const MOMENTS: [(usize, u32, bool); 14] = [
    (0, 1, false),
    (1, 1, true),
    (2, 3, false),
    (3, 3, true),
    (4, 0, false),
    (5, 0, true),
    (6, 2, false),
    (7, 2, true),
    (8, 4, false),
    (9, 4, true),
    (10, 5, false),
    (11, 5, true),
    (12, 6, false),
    (13, 6, true),
];

// A statement that began or is over.
#[derive(Drop)]
struct Moment {
    task: AtomicU32,
    over: AtomicBool,
}

// The moments of a run, and how many there were.
#[derive(Drop)]
struct Recorder {
    moments: Vec<Moment>,
    told: AtomicUsize,
}

impl Recorder {
    // Room for so many moments.
    fn new(alloc: Global, room: usize) -> Result<Recorder, AllocError> {
        let mut moments = Vec::new(alloc);
        for _ in 0..room {
            moments.push(Moment {
                task: AtomicU32::new(u32::MAX),
                over: AtomicBool::new(false),
            })?;
        }
        Ok(Recorder {
            moments,
            told: AtomicUsize::new(0),
        })
    }

    fn tell(&self, task: u32, over: bool) {
        let at = self.told.fetch_add(1, Ordering::SeqCst);
        if let Some(moment) = self.moments.get(at) {
            moment.task.store(task, Ordering::SeqCst);
            moment.over.store(over, Ordering::SeqCst);
        }
    }

    // Whether the moment with this number is this one.
    fn is_at(&self, at: usize, task: u32, over: bool) -> bool {
        match self.moments.get(at) {
            Some(moment) => {
                moment.task.load(Ordering::SeqCst) == task
                    && moment.over.load(Ordering::SeqCst) == over
            }
            None => false,
        }
    }
}

impl Gate for Recorder {
    fn enter(&self, task: u32) {
        self.tell(task, false);
    }

    fn leave(&self, task: u32) {
        self.tell(task, true);
    }
}

// The gate is told of each statement once, in the order in which they are run.
#[test]
fn order_of_a_run(rt: HostRuntime) -> Result<(), Fail> {
    let alloc = rt.alloc();
    let gate = Recorder::new(alloc, 14)?;
    let mut words = Vec::new(alloc);
    words.push(String::from_str(alloc, "run")?)?;
    let text = Items::from_slice(alloc, ORDER.as_bytes())?;
    let mut source = MemSource::new(text, 4096, Items::new(alloc));
    let mut sink = MemSink::new(alloc, 4096, Items::new(alloc));
    let answer = aeminium(&rt, alloc, words.as_slice(), &mut source, &mut sink, &gate);
    assert_eq!(rt; answer.status, 0);
    assert_eq!(rt; sink.taken(), b"20\n30\n50\n== done\n".as_slice());
    for (at, task, over) in &MOMENTS {
        assert!(rt; gate.is_at(*at, *task, *over), "moment {at}");
    }
    assert_eq!(rt; gate.told.load(Ordering::SeqCst), 14);
    Ok(())
}
