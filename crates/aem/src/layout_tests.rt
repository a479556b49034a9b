// Programs are read, printed, and read again.
use ae_layout::print_program;
use ae_parser::parse;
use ae_text::{Deny, Items, lex};
use std::alloc::Global;
use std::test::Fail;

// Each form of the language, laid out.
const LAYOUTS: [&str; 17] = [
    "class C {\n}\n",
    "class C<a> {\n    int x;\n    bool y;\n    unique Ints z;\n    immutable C<a> w;\n    shared<a> D<a, a> v;\n}\n",
    "class C {\n    int x;\n    method int get(immutable this) {\n        return this.x;\n    }\n    method void put<g>(shared<g> this >> none, int v, unique C c >> none) with shared g {\n    }\n}\nmethod void f() {\n}\nclass D {\n}\n",
    "method void main() {\n}\n",
    "method int f(int a, bool b, unique C c, lent D d) {\n    return a;\n}\n",
    "method unique C<a> f<a, b>() with exclusive io, shared a, protected b {\n    return null;\n}\n",
    "method void m() {\n    if a {\n    }\n    if a {\n        if b {\n        } else {\n        }\n    } else {\n        while c {\n        }\n    }\n}\n",
    "method void m() {\n    while a < b {\n        a = b;\n    }\n}\n",
    "method void m() {\n    group g;\n    split g, h {\n        atomic g {\n        }\n    }\n    freeze x;\n    share x into g;\n}\n",
    "method void m() {\n    print a;\n    print \"a\\n\\t\\\"\\\\\";\n    print \"\";\n    assert a == b;\n    return a;\n}\n",
    "method void m() {\n    let int a = 1;\n    let bool b = true;\n    let unique Ints x = new Ints(3);\n    let shared<g> C<g> c = d;\n}\n",
    "method void m() {\n    x = new C<g, h>(1, x, null);\n    x = new C();\n    x = take p.f;\n    x = take this.a.b;\n}\n",
    "method void m() {\n    x = m<g>(a);\n    x = p.q.m<g, h>(a, b);\n    x = this.m();\n    m();\n    m(1, a);\n    m<g>();\n    x.y.m<g>(a);\n}\n",
    "method void m() {\n    x.y = 1;\n    this.y.z = a && b;\n    x[0] = 1;\n    x.y[a + 1] = b;\n}\n",
    "method void m() {\n    x = a < b;\n    x = a.b < c && d > e || !f;\n    x = a <= b;\n    x = a >= b;\n    x = a != null;\n}\n",
    "method void m() {\n    x = a - b - c;\n    x = a - (b - c);\n    x = (1 + 2) * 3;\n    x = -a * --1 % 2 / 3;\n    x = a - -1;\n    x = !!a;\n    x = (a == b) == (c == d);\n}\n",
    "method void m() {\n    x = a[b[0]];\n    x = len a.b;\n    x = a.b.c[d + 1];\n    x = this;\n    x = false;\n    x = 9223372036854775807;\n}\n",
];

// Texts, and their layout.
const LAID_OUT: [(&str, &str); 4] = [
    (
        "method void main()with exclusive io{print(1+2)*3;}",
        "method void main() with exclusive io {\n    print (1 + 2) * 3;\n}\n",
    ),
    (
        "class C{int x;method int get(lent this){return x;}}",
        "class C {\n    int x;\n    method int get(lent this) {\n        return x;\n    }\n}\n",
    ),
    (
        "method void m(){if a{}else{x=007;}} // the end",
        "method void m() {\n    if a {\n    } else {\n        x = 7;\n    }\n}\n",
    ),
    (
        "method void m(){x=m<g , h>(a,b);print( - - a);}",
        "method void m() {\n    x = m<g, h>(a, b);\n    print (--a);\n}\n",
    ),
];

const MOST: usize = 1_048_576;

fn laid_out(alloc: Global, text: &[u8]) -> Result<Items<u8>, Deny> {
    if text.len() > MOST {
        return Err(Deny::Memory);
    }
    let tokens = lex(alloc, text)?;
    let program = parse(alloc, tokens.as_slice())?;
    print_program(alloc, &program).map_err(|_| Deny::Memory)
}

#[test]
fn layouts_stay(rt: HostRuntime) -> Result<(), Fail> {
    let alloc = rt.alloc();
    for text in &LAYOUTS {
        match laid_out(alloc, text.as_bytes()) {
            Ok(layout) => assert_eq!(rt; layout.as_slice(), text.as_bytes(), "{text}"),
            Err(_) => assert!(rt; false, "{text}"),
        }
    }
    Ok(())
}

#[test]
fn texts_are_laid_out(rt: HostRuntime) -> Result<(), Fail> {
    let alloc = rt.alloc();
    for (text, wanted) in &LAID_OUT {
        match laid_out(alloc, text.as_bytes()) {
            Ok(layout) => assert_eq!(rt; layout.as_slice(), wanted.as_bytes(), "{text}"),
            Err(_) => assert!(rt; false, "{text}"),
        }
    }
    Ok(())
}
