//! `expand`: the printed form of a model's flat text, byte for byte, or its refusal.

use super::*;
use std::test::Fail;

/// A model with a formula and a renamed module.
const RENAMED: &str =
    "dtmc formula f=x>0; module M x:[0..1]; [] f -> (x'=0); endmodule module B=M[x=y] endmodule";

/// Its printed form.
const RENAMED_PRINTED: &str = "dtmc\n\
    formula f = x > 0;\n\
    module M\n\
    \x20 x : [0..1];\n\
    \x20 [] (x > 0) -> (x'=0);\n\
    endmodule\n\
    module B\n\
    \x20 y : [0..1];\n\
    \x20 [] (y > 0) -> (y'=0);\n\
    endmodule\n";

/// A model with each of what a model may have.
const WHOLE: &str = "probabilistic\n\
    label \"both\"=x=N&b; // a label before all else\n\
    const N=2; const double p=1.50e-1; const bool q;\n\
    rewards true:1; endrewards\n\
    global b:bool init !q; global c : [-1..N*2];\n\
    formula half=floor(N/2);\n\
    module m x:[0..max(N,half,3)]init min(1,2)-1;\n\
    [a]x<N?true:false->p:(x'=x+1)&(b'=true)+1-p:(x'=0);\n\
    []!b&x!=half=>x>=1->true;endmodule\n\
    module n=m[x=y,a=e]endmodule";

/// Its printed form.
const WHOLE_PRINTED: &str = "dtmc\n\
    const int N = 2;\n\
    const double p = 0.15;\n\
    const bool q;\n\
    global b : bool init !q;\n\
    global c : [-1..N * 2];\n\
    formula half = floor(N / 2);\n\
    module m\n\
    \x20 x : [0..max(N, (floor(N / 2)), 3)] init min(1, 2) - 1;\n\
    \x20 [a] x < N ? true : false -> p : (x'=x + 1) & (b'=true) + 1 - p : (x'=0);\n\
    \x20 [] !b & x != (floor(N / 2)) => x >= 1 -> true;\n\
    endmodule\n\
    module n\n\
    \x20 y : [0..max(N, (floor(N / 2)), 3)] init min(1, 2) - 1;\n\
    \x20 [e] y < N ? true : false -> p : (y'=y + 1) & (b'=true) + 1 - p : (y'=0);\n\
    \x20 [] !b & y != (floor(N / 2)) => y >= 1 -> true;\n\
    endmodule\n\
    label \"both\" = x = N & b;\n";

/// Texts that `expand` answers.
static EXPANDED: [Row; 12] = [
    ("expand|--model=M", RENAMED, 0, RENAMED_PRINTED),
    ("expand|--model|M", RENAMED_PRINTED, 0, RENAMED_PRINTED),
    ("expand|--model=M", WHOLE, 0, WHOLE_PRINTED),
    ("expand|--model=M", WHOLE_PRINTED, 0, WHOLE_PRINTED),
    ("expand|--model=M", "dtmc", 0, "dtmc\n"),
    // What only later stages refuse is printed all the same.
    (
        "expand|--model=M",
        "dtmc const int N; formula f=true+nothing;",
        0,
        "dtmc\nconst int N;\nformula f = true + nothing;\n",
    ),
    (
        "expand|--model=M",
        "dtmc formula f=--1-(-x)+ -2.0*1e3/0.000000000000000001;",
        0,
        "dtmc\nformula f = --1 - (-x) + -2.0 * 1000.0 / 0.000000000000000001;\n",
    ),
    (
        "expand|--model=M",
        "",
        5,
        "refused 522: not in the grammar at 0\n",
    ),
    (
        "expand|--model=M",
        "dtmc $",
        5,
        "refused 510: bad byte at 5\n",
    ),
    (
        "expand|--model=M",
        "dtmc formula a=b; formula b=a;",
        5,
        "refused 531: formula cycle a\n",
    ),
    (
        "expand|--model=M",
        "dtmc const int x=1; formula x=2;",
        5,
        "refused 530: duplicate x\n",
    ),
    (
        "expand|--model=M",
        "dtmc module n=m[x=y] endmodule",
        5,
        "refused 532: no such module m\n",
    ),
];

#[test]
fn a_model_is_printed_with_formulas_and_renamed_modules_written_out(
    rt: HostRuntime,
) -> Result<(), Fail> {
    for row in &EXPANDED {
        assert!(rt; is_answered(&rt, row)?, "{row:?}");
    }
    Ok(())
}
