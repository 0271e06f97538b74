//! Whole models, printed by hand.

use super::print_text;
use std::test::Fail;

/// Texts, and their printed forms.
static MODELS: [(&str, &str); 9] = [
    ("dtmc", "dtmc\n"),
    // formulas and renamed modules written out
    (
        "dtmc module M x:[0..1]; [] f -> (x'=0); endmodule module B = M [x=y] endmodule formula f = x>0;",
        "dtmc
formula f = x > 0;
module M
  x : [0..1];
  [] (x > 0) -> (x'=0);
endmodule
module B
  y : [0..1];
  [] (y > 0) -> (y'=0);
endmodule
",
    ),
    // the sorts of constants
    (
        "dtmc const n; const int i=2; const double d=0.5; const bool b=true; const double e;",
        "dtmc
const int n;
const int i = 2;
const double d = 0.5;
const bool b = true;
const double e;
",
    ),
    // global variables
    (
        "probabilistic global x:[0..n]init 1; global b:bool; global c:bool init false;",
        "dtmc
global x : [0..n] init 1;
global b : bool;
global c : bool init false;
",
    ),
    // the order of the groups, each in text order
    (
        "dtmc label \"l\"=x=0; module m endmodule formula f=x; global x:[0..1]; const int n=1;
        module k endmodule label \"init2\"=true; formula a=1; const int b=2;",
        "dtmc
const int n = 1;
const int b = 2;
global x : [0..1];
formula f = x;
formula a = 1;
module m
endmodule
module k
endmodule
label \"l\" = x = 0;
label \"init2\" = true;
",
    ),
    // weights and updates
    (
        "dtmc module m x:[0..2]; y:bool init true;
        [a]x=0->0.5:(x'=1)+1/2:(x'=2)&(y'=true); []true->1:true; []y->(x'=x+1)&(y'=false); [b]!y->true; endmodule",
        "dtmc
module m
  x : [0..2];
  y : bool init true;
  [a] x = 0 -> 0.5 : (x'=1) + 1 / 2 : (x'=2) & (y'=true);
  [] true -> 1 : true;
  [] y -> (x'=x + 1) & (y'=false);
  [b] !y -> true;
endmodule
",
    ),
    // rewards are passed over, and so are comments
    (
        "dtmc // a model\nrewards \"coins\" true:1; endrewards const int n=1; // its end",
        "dtmc\nconst int n = 1;\n",
    ),
    // names of functions as names, and reserved words as names of labels
    (
        "dtmc global floor:[0..1]; label \"true\"=floor=1; label \"max\"=floor(floor)=0;",
        "dtmc
global floor : [0..1];
label \"true\" = floor = 1;
label \"max\" = floor(floor) = 0;
",
    ),
    // a conditional as a weight
    (
        "dtmc module m x:[0..1]; []true->x=0?1:0:(x'=0)+x=0?0:1:(x'=1); endmodule",
        "dtmc
module m
  x : [0..1];
  [] true -> x = 0 ? 1 : 0 : (x'=0) + x = 0 ? 0 : 1 : (x'=1);
endmodule
",
    ),
];

#[test]
fn models_are_printed_line_by_line(rt: HostRuntime) -> Result<(), Fail> {
    for (text, form) in MODELS {
        let mut out = Vec::new(rt.alloc());
        if text.len() < 65_536 {
            print_text(rt.alloc(), text.as_bytes(), &mut out)?;
        }
        assert!(rt; out.as_slice() == form.as_bytes(), "{text}");
    }
    Ok(())
}

#[test]
fn a_printed_form_is_appended(rt: HostRuntime) -> Result<(), Fail> {
    let mut out = Vec::from_slice(rt.alloc(), b"before ")?;
    print_text(rt.alloc(), b"dtmc const k=1;", &mut out)?;
    assert!(rt; out.as_slice() == b"before dtmc\nconst int k = 1;\n".as_slice());
    Ok(())
}
