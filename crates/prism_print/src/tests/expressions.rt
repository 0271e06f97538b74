//! Expressions at each place, printed by hand.

use super::print_text;
use std::alloc::{AllocError, Global};
use std::test::Fail;

/// Expressions as they are written, and as they are printed.
static EXPRESSIONS: [(&str, &str); 33] = [
    ("12", "12"),
    ("1.5", "1.5"),
    ("true", "true"),
    ("false", "false"),
    ("x", "x"),
    ("(x)", "(x)"),
    ("((x))", "((x))"),
    ("!x", "!x"),
    ("! ! x", "!!x"),
    ("-x", "-x"),
    ("- -1", "--1"),
    ("a=>b", "a => b"),
    ("a<=>b", "a <=> b"),
    ("a|b|c", "a | b | c"),
    ("a&b", "a & b"),
    ("a=b", "a = b"),
    ("a!=b", "a != b"),
    ("a<b", "a < b"),
    ("a<=b>=c", "a <= b >= c"),
    ("a>b", "a > b"),
    ("1+2-3", "1 + 2 - 3"),
    ("2- -1", "2 - -1"),
    ("1*2/3", "1 * 2 / 3"),
    (
        "a=>b<=>c|d&!e=f<1+2*-3",
        "a => b <=> c | d & !e = f < 1 + 2 * -3",
    ),
    ("a?b:c", "a ? b : c"),
    ("a ?b :c? d: k", "a ? b : c ? d : k"),
    ("(a?b:c)+1", "(a ? b : c) + 1"),
    ("min(1,2)", "min(1, 2)"),
    ("max( a , -b , (c) )", "max(a, -b, (c))"),
    ("floor(x/2)", "floor(x / 2)"),
    ("ceil(1.50)", "ceil(1.5)"),
    ("pow(2,x)", "pow(2, x)"),
    ("mod(x,a?b:c)", "mod(x, a ? b : c)"),
];

/// What stands around expressions in a text: the value of a constant, the ends and the initial value of a global variable
/// and of a module's, a formula, a guard, weights, assigned values and a label.
static WRITTEN: [&str; 15] = [
    "dtmc const int n=",
    ";global g:[",
    "..",
    "]init ",
    ";formula h=",
    ";module m v:[",
    "..",
    "]init ",
    ";[]",
    "->",
    ":(v'=",
    ")&(w'=",
    ")+",
    ":true;endmodule label\"l\"=",
    ";",
];

/// What stands around them in its printed form.
static PRINTED: [&str; 15] = [
    "dtmc\nconst int n = ",
    ";\nglobal g : [",
    "..",
    "] init ",
    ";\nformula h = ",
    ";\nmodule m\n  v : [",
    "..",
    "] init ",
    ";\n  [] ",
    " -> ",
    " : (v'=",
    ") & (w'=",
    ") + ",
    " : true;\nendmodule\nlabel \"l\" = ",
    ";\n",
];

/// The parts with an expression between each two of them.
fn around(alloc: Global, parts: [&str; 15], expression: &str) -> Result<Vec<u8>, AllocError> {
    let mut text = Vec::new(alloc);
    let mut before = "";
    for part in parts {
        text.extend_from_slice(before.as_bytes())?;
        text.extend_from_slice(part.as_bytes())?;
        before = expression;
    }
    Ok(text)
}

#[test]
fn each_form_of_expression_is_printed_at_each_place(rt: HostRuntime) -> Result<(), Fail> {
    let alloc = rt.alloc();
    for (written, printed) in EXPRESSIONS {
        let text = around(alloc, WRITTEN, written)?;
        let form = around(alloc, PRINTED, printed)?;
        let mut out = Vec::new(alloc);
        if text.len() < 65_536 {
            print_text(alloc, text.as_slice(), &mut out)?;
        }
        assert!(rt; out.as_slice() == form.as_slice(), "{written}");
    }
    Ok(())
}
