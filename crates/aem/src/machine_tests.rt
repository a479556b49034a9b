// Runs in source order with other fuel than that of the mode, and with integers, on programs that were read.
ghost use Rattle.std.specs.Prelude.{IfOk};
ghost use Rattle.ae_tree.specs.Shown.{code as plain};
ghost use Rattle.ae_levels.specs.Going.{IsSound};

use crate::answer::{Report, What};
use crate::calls_tests::program_of;
use crate::modes::judge;
use crate::texts::text_of;
use ae_bodies::tabled_of;
use ae_code::Checked;
use ae_machine::{Task, evaluate};
use ae_text::{Deny, Items};
use ae_tree::derived_programs_are_well_shaped;
use ae_unsplit::{is_unsplit, texts_have_this_free};
use std::alloc::Global;
use std::test::Fail;

// The accepted program that a text is, in which nothing is split.
fn sound_of(alloc: Global, text: &[u8]) -> Result<Checked, Deny>
    ensures { IfOk result (λ k. IsSound (plain k.program)) }
{
    derived_programs_are_well_shaped();
    texts_have_this_free();
    let program = match program_of(alloc, text) {
        Ok(program) => program,
        Err(deny) => return Err(deny),
    };
    if !is_unsplit(&program) {
        return Err(Deny::Memory);
    }
    judge(alloc, program)
}

// A source, the integers of its `main`, the fuel, and the text of its run.
struct Case {
    source: &'static str,
    ints: &'static [i64],
    fuel: u32,
    text: &'static str,
}

const CASES: [Case; 32] = [
    Case {
        source: "method void main() with exclusive io {\nlet int i = 0;\nwhile i < 3 { i = i + 1; }\nprint i;\n}\n",
        ints: &[],
        fuel: 3,
        text: "3\n== done\n",
    },
    Case {
        source: "method void main() with exclusive io {\nlet int i = 0;\nwhile i < 3 { i = i + 1; }\nprint i;\n}\n",
        ints: &[],
        fuel: 2,
        text: "== fuel at 3:1\n",
    },
    Case {
        source: "method void main() with exclusive io {\nlet int i = 0;\nwhile i < 3 { i = i + 1; }\nprint i;\n}\n",
        ints: &[],
        fuel: 0,
        text: "== fuel at 3:1\n",
    },
    Case {
        source: "method void main() with exclusive io {\nwhile false { print 1; }\nprint 2;\n}\n",
        ints: &[],
        fuel: 0,
        text: "2\n== done\n",
    },
    Case {
        source: "method void main() with exclusive io {\nlet int a = 1;\nif a == 1 { print a; }\n}\n",
        ints: &[],
        fuel: 0,
        text: "1\n== done\n",
    },
    Case {
        source: "method void f() { }\nmethod void main() { f(); }\n",
        ints: &[],
        fuel: 1,
        text: "== done\n",
    },
    Case {
        source: "method void f() { }\nmethod void main() { f(); }\n",
        ints: &[],
        fuel: 0,
        text: "== fuel at 2:22\n",
    },
    Case {
        source: "method void f() { }\nmethod void main() {\nf();\nf();\n}\n",
        ints: &[],
        fuel: 1,
        text: "== done\n",
    },
    Case {
        source: "method void f() { }\nmethod void main() {\nf();\nf();\n}\n",
        ints: &[],
        fuel: 0,
        text: "== fuel at 3:1\n",
    },
    Case {
        source: "method void down() { down(); }\nmethod void main() { down(); }\n",
        ints: &[],
        fuel: 5,
        text: "== fuel at 1:22\n",
    },
    Case {
        source: "method void down() { down(); }\nmethod void main() { down(); }\n",
        ints: &[],
        fuel: 998,
        text: "== fuel at 1:22\n",
    },
    Case {
        source: "method void down() { down(); }\nmethod void main() { down(); }\n",
        ints: &[],
        fuel: 1_000,
        text: "== trap 6 at 1:22\n",
    },
    Case {
        source: "method void down() { down(); }\nmethod void main() { down(); }\n",
        ints: &[],
        fuel: 999,
        text: "== trap 6 at 1:22\n",
    },
    Case {
        source: "method void down() { down(); }\nmethod void main() { down(); }\n",
        ints: &[],
        fuel: 0,
        text: "== fuel at 2:22\n",
    },
    Case {
        source: "method void f() { }\nmethod void main() {\nlet int i = 0;\nwhile i < 2 {\nf();\ni = i + 1;\n}\n}\n",
        ints: &[],
        fuel: 3,
        text: "== done\n",
    },
    Case {
        source: "method void f() { }\nmethod void main() {\nlet int i = 0;\nwhile i < 2 {\nf();\ni = i + 1;\n}\n}\n",
        ints: &[],
        fuel: 2,
        text: "== fuel at 5:1\n",
    },
    Case {
        source: "method void main() with exclusive io {\nlet int i = 0;\nwhile i < 2 {\nlet int j = 0;\nwhile j < 2 {\nj = j + 1;\n}\nprint i;\ni = i + 1;\n}\n}\n",
        ints: &[],
        fuel: 4,
        text: "0\n1\n== done\n",
    },
    Case {
        source: "method void main() with exclusive io {\nlet int i = 0;\nwhile i < 2 {\nlet int j = 0;\nwhile j < 2 {\nj = j + 1;\n}\nprint i;\ni = i + 1;\n}\n}\n",
        ints: &[],
        fuel: 3,
        text: "0\n== fuel at 5:1\n",
    },
    Case {
        source: "method void main() with exclusive io {\nlet int i = 0;\nwhile i < 2 {\nlet int j = 0;\nwhile j < 2 {\nj = j + 1;\n}\nprint i;\ni = i + 1;\n}\n}\n",
        ints: &[],
        fuel: 2,
        text: "== fuel at 5:1\n",
    },
    Case {
        source: "method int f(int n) {\nlet int r = n;\nif n > 0 {\nlet int a = f(n - 1);\nr = a + 1;\n}\nreturn r;\n}\nmethod void main() with exclusive io {\nlet int r = f(3);\nprint r;\n}\n",
        ints: &[],
        fuel: 4,
        text: "3\n== done\n",
    },
    Case {
        source: "method int f(int n) {\nlet int r = n;\nif n > 0 {\nlet int a = f(n - 1);\nr = a + 1;\n}\nreturn r;\n}\nmethod void main() with exclusive io {\nlet int r = f(3);\nprint r;\n}\n",
        ints: &[],
        fuel: 3,
        text: "== fuel at 4:1\n",
    },
    Case {
        source: "method int f(int n) {\nlet int r = n;\nif n > 0 {\nlet int a = f(n - 1);\nr = a + 1;\n}\nreturn r;\n}\nmethod void main() with exclusive io {\nlet int r = f(3);\nprint r;\n}\n",
        ints: &[],
        fuel: 0,
        text: "== fuel at 10:1\n",
    },
    Case {
        source: "method void f(int n) { }\nmethod void main() {\nf(1 / 0);\n}\n",
        ints: &[],
        fuel: 0,
        text: "== trap 2 at 3:1\n",
    },
    Case {
        source: "method void main() {\nlet int i = 0;\nwhile 1 / i == 0 { i = 1; }\n}\n",
        ints: &[],
        fuel: 0,
        text: "== trap 2 at 3:1\n",
    },
    Case {
        source: "class Box { int v; }\nmethod void g() { }\nmethod void f(unique Box b) {\nb.v = 2;\ng();\n}\nmethod void main() with exclusive io {\nlet unique Box b = new Box(1);\nf(b);\nprint b.v;\n}\n",
        ints: &[],
        fuel: 2,
        text: "2\n== done\n",
    },
    Case {
        source: "class Box { int v; }\nmethod void g() { }\nmethod void f(unique Box b) {\nb.v = 2;\ng();\n}\nmethod void main() with exclusive io {\nlet unique Box b = new Box(1);\nf(b);\nprint b.v;\n}\n",
        ints: &[],
        fuel: 1,
        text: "== fuel at 5:1\n",
    },
    Case {
        source: "method void main() with exclusive io {\nlet int i = 0;\nwhile true {\nprint i;\ni = i + 1;\n}\n}\n",
        ints: &[],
        fuel: 2,
        text: "0\n1\n== fuel at 3:1\n",
    },
    Case {
        source: "method void main(unique Ints a) with exclusive io { print a[0]; print len a; }",
        ints: &[-5, 7],
        fuel: 100_000,
        text: "-5\n2\n== done\n",
    },
    Case {
        source: "method void main(unique Ints a) { assert a[0] == 1; }",
        ints: &[],
        fuel: 100_000,
        text: "== trap 4 at 1:35\n",
    },
    Case {
        source: "method void main(unique Ints a) { assert a[0] == 1; }",
        ints: &[-5, 7],
        fuel: 0,
        text: "== trap 5 at 1:35\n",
    },
    Case {
        source: "method void main(unique Ints a) with exclusive io {\nwhile a[1] > 5 { a[1] = a[1] - 1; }\nprint a[1];\n}\n",
        ints: &[-5, 7],
        fuel: 2,
        text: "5\n== done\n",
    },
    Case {
        source: "method void main(unique Ints a) with exclusive io {\nwhile a[1] > 5 { a[1] = a[1] - 1; }\nprint a[1];\n}\n",
        ints: &[-5, 7],
        fuel: 1,
        text: "== fuel at 2:1\n",
    },
];

// The text of the run of a program.
fn text_of_run(alloc: Global, code: &Checked, ints: &[i64], fuel: u32) -> Result<Items<u8>, Deny>
    requires { IsSound (plain code.now.program) }
{
    let task = Task {
        tabled: tabled_of(alloc, code),
        ints,
        fuel,
    };
    match evaluate(&task) {
        Ok(meant) => {
            let report = Report {
                ending: meant.ending,
                out: Items::from_vec(meant.out),
            };
            match text_of(alloc, &What::Ran(report)) {
                Ok(text) => Ok(text),
                Err(_) => Err(Deny::Memory),
            }
        }
        Err(_) => Err(Deny::Memory),
    }
}

// Fuel is spent by turns and by calls along the way to a statement, and not by those that are over.
#[test]
fn fuel_and_integers(rt: HostRuntime) -> Result<(), Fail> {
    let alloc = rt.alloc();
    for case in &CASES {
        let code = sound_of(alloc, case.source.as_bytes())?;
        let text = text_of_run(alloc, &code, case.ints, case.fuel)?;
        assert_eq!(rt;
            text.as_slice(),
            case.text.as_bytes(),
            "{} with {}",
            case.source,
            case.fuel
        );
    }
    Ok(())
}
