//! Models, worked out by hand from the grammar.

use super::model_of;
use std::test::Fail;

/// Texts, and the models that they are, or why they are refused.
static MODELS: [(&str, &str); 100] = [
    // items stand in text order
    ("dtmc", ""),
    ("probabilistic", ""),
    ("dtmc const int N = 3;", "int N=3;"),
    ("dtmc const N;", "int N;"),
    (
        "dtmc const double p=0.5; const bool b=true;",
        "double p=~1/2;bool b=true;",
    ),
    ("dtmc const bool b;", "bool b;"),
    ("dtmc formula f = x>0 & y;", "formula f={{x>0}&y};"),
    ("dtmc formula f=a?b:c?d:e;", "formula f={a?b:{c?d:e}};"),
    ("dtmc label \"done\" = s=7;", "label done={s=7};"),
    ("dtmc label \"true\" = x;", "label true=x;"),
    ("dtmc global g : [0..N] init 1;", "global g:0..N init 1;"),
    ("dtmc global b : bool;", "global b:bool;"),
    (
        "dtmc global b : bool init !true;",
        "global b:bool init !{true};",
    ),
    ("dtmc module m endmodule", "m{}"),
    (
        "dtmc module m x:[0..1]; b:bool init false; endmodule",
        "m{x:0..1;b:bool init false;}",
    ),
    ("dtmc module m [] true -> true; endmodule", "m{[]true->:;}"),
    (
        "dtmc module m [a] x=0 -> (x'=1); endmodule",
        "m{[a]{x=0}->:x=1&;}",
    ),
    (
        "dtmc module m [] x=0 -> 0.5:(x'=1) + 0.5:(x'=0)&(y'=1); endmodule",
        "m{[]{x=0}-> ~1/2:x=1& ~1/2:x=0&y=1&;}",
    ),
    (
        "dtmc module m [] true -> true : true; endmodule",
        "m{[]true-> true:;}",
    ),
    (
        "dtmc module m [] x -> 1/3:true+2/3:(x'=1); endmodule",
        "m{[]x-> {1/3}: {2/3}:x=1&;}",
    ),
    (
        "dtmc module m [] x -> (p) : true; endmodule",
        "m{[]x-> (p):;}",
    ),
    (
        "dtmc module m [] true -> true+0.5:true; endmodule",
        "m{[]true-> {true+~1/2}:;}",
    ),
    (
        "dtmc module m [floor] true -> (floor'=1); endmodule",
        "m{[floor]true->:floor=1&;}",
    ),
    ("dtmc module n = m [ x=y ] endmodule", "n=m,x>y;"),
    ("dtmc module n = m [ x=y, a=b ] endmodule", "n=m,x>y,a>b;"),
    ("dtmc rewards x=1 : 5; ctmc => endrewards", ""),
    (
        "dtmc rewards a => b => c : 1; endrewards formula f=a=>b;",
        "formula f={a=>b};",
    ),
    ("dtmc // ctmc\n const a=1;", "int a=1;"),
    (
        "dtmc global floor:bool; formula g=floor;",
        "global floor:bool;formula g=floor;",
    ),
    (
        "dtmc label \"l\"=true; const a=1; module m endmodule formula f=1; global g:bool; rewards endrewards const b=2;",
        "int a=1;int b=2;global g:bool;formula f=1;m{}label l=true;",
    ),
    (
        "dtmc module m [] x -> true&y : true; endmodule",
        "m{[]x-> {true&y}:;}",
    ),
    (
        "dtmc module m [] x -> p+q:true+r:(y'=1); endmodule",
        "m{[]x-> {p+q}: r:y=1&;}",
    ),
    (
        "dtmc module m [] a?b:c -> a?b:c:(x'=a?b:c); endmodule",
        "m{[]{a?b:c}-> {a?b:c}:x={a?b:c}&;}",
    ),
    (
        "dtmc module m x:[-1..a?1:2] init -1; [x] x -> (x'=x); [] (x) -> ((x)):(x'=(x)); endmodule",
        "m{x:-{1}..{a?1:2} init -{1};[x]x->:x=x&;[](x)-> ((x)):x=(x)&;}",
    ),
    // the first token with which the tokens so far begin no model
    ("", "not in the grammar at 0"),
    ("module m endmodule", "not in the grammar at 0"),
    ("dtmc dtmc", "not in the grammar at 5"),
    ("dtmc ;", "not in the grammar at 5"),
    ("dtmc endmodule", "not in the grammar at 5"),
    ("dtmc const = 1;", "not in the grammar at 11"),
    ("dtmc const int;", "not in the grammar at 14"),
    ("dtmc const int N=;", "not in the grammar at 17"),
    ("dtmc const int N 3;", "not in the grammar at 17"),
    ("dtmc const int N=3", "not in the grammar at 18"),
    ("dtmc formula f x;", "not in the grammar at 15"),
    ("dtmc formula f=a?b?c:d:e;", "not in the grammar at 18"),
    ("dtmc formula f=\"l\";", "not in the grammar at 15"),
    ("dtmc formula f=a+;", "not in the grammar at 17"),
    ("dtmc formula f=min(a);", "not in the grammar at 20"),
    ("dtmc label done=true;", "not in the grammar at 11"),
    ("dtmc global x:int;", "not in the grammar at 14"),
    ("dtmc global x:[0..];", "not in the grammar at 18"),
    ("dtmc global x:[0,1];", "not in the grammar at 16"),
    ("dtmc global x:bool init;", "not in the grammar at 23"),
    ("dtmc global x:bool", "not in the grammar at 18"),
    (
        "dtmc module m x:[0..1]; endmodul",
        "not in the grammar at 32",
    ),
    (
        "dtmc module m x:[0..1]; [] x=0 ->",
        "not in the grammar at 33",
    ),
    (
        "dtmc module m [] true -> true; x:bool; endmodule",
        "not in the grammar at 31",
    ),
    (
        "dtmc module m [1] true -> true; endmodule",
        "not in the grammar at 15",
    ),
    (
        "dtmc module m [] true; endmodule",
        "not in the grammar at 21",
    ),
    (
        "dtmc module m [] true -> ; endmodule",
        "not in the grammar at 25",
    ),
    (
        "dtmc module m [] true -> (x'=1) (y'=1); endmodule",
        "not in the grammar at 32",
    ),
    (
        "dtmc module m [] true -> 1:(x'=1)&true; endmodule",
        "not in the grammar at 34",
    ),
    (
        "dtmc module m [] true -> 0.5:true+true; endmodule",
        "not in the grammar at 38",
    ),
    (
        "dtmc module m [] true -> (x=1); endmodule",
        "not in the grammar at 30",
    ),
    (
        "dtmc module m [] true -> (x'1); endmodule",
        "not in the grammar at 28",
    ),
    (
        "dtmc module m [] true -> (x'=1; endmodule",
        "not in the grammar at 30",
    ),
    (
        "dtmc module m [] true -> true & (x'=1); endmodule",
        "not in the grammar at 34",
    ),
    ("dtmc module m endmodule x", "not in the grammar at 24"),
    ("dtmc module n=m[] endmodule", "not in the grammar at 16"),
    (
        "dtmc module n=m[a=b,] endmodule",
        "not in the grammar at 20",
    ),
    ("dtmc module n=m[a=b]", "not in the grammar at 20"),
    (
        "dtmc module n=m[a=b] const c=1;",
        "not in the grammar at 21",
    ),
    ("dtmc module n=m[a=1] endmodule", "not in the grammar at 18"),
    ("dtmc rewards x", "not in the grammar at 14"),
    ("dtmc formula f=a=>b=>c; ;", "not in the grammar at 24"),
    ("dtmc formula f=log;;", "not in the grammar at 19"),
    (
        "dtmc module m [a b] x -> true; endmodule",
        "not in the grammar at 17",
    ),
    (
        "dtmc module m [] -> true; endmodule",
        "not in the grammar at 17",
    ),
    (
        "dtmc module m [] x+ -> true; endmodule",
        "not in the grammar at 20",
    ),
    (
        "dtmc module m [] a?b -> true; endmodule",
        "not in the grammar at 21",
    ),
    (
        "dtmc module m [] \"a\" -> true; endmodule",
        "not in the grammar at 17",
    ),
    (
        "dtmc module m [] x -> true:; endmodule",
        "not in the grammar at 27",
    ),
    (
        "dtmc module m [] x -> true+(x'=1); endmodule",
        "not in the grammar at 29",
    ),
    (
        "dtmc module m [] x -> (x'=1)+(y'=1); endmodule",
        "not in the grammar at 28",
    ),
    (
        "dtmc module m [] x -> (x'=1):true; endmodule",
        "not in the grammar at 28",
    ),
    (
        "dtmc module m [] x -> (x'=floor(1); endmodule",
        "not in the grammar at 34",
    ),
    (
        "dtmc module m [] x -> (x'=); endmodule",
        "not in the grammar at 26",
    ),
    ("dtmc const int int;", "not in the grammar at 15"),
    ("dtmc const a=1 const b;", "not in the grammar at 15"),
    ("dtmc rewards ctmc", "not in the grammar at 17"),
    // words and arrows that are refused by name
    ("ctmc", "unsupported ctmc at 0"),
    ("dtmc ; ; const int a=1 system", "unsupported system at 23"),
    (
        "dtmc rewards ctmc endrewards clock",
        "unsupported clock at 29",
    ),
    ("dtmc formula f=log (x);", "unsupported log at 15"),
    ("dtmc formula W=1;", "unsupported W at 13"),
    (
        "dtmc formula f = true => true => true;",
        "unsupported => at 30",
    ),
    ("dtmc formula f=a=>(b=>c=>d)=>e;", "unsupported => at 23"),
    (
        "dtmc formula f=a=>b; formula g=a=>b=>c;",
        "unsupported => at 35",
    ),
    (
        "dtmc module m [] a=>b -> (x'=1=>2=>3); endmodule",
        "unsupported => at 33",
    ),
];

#[test]
fn a_text_is_its_model_or_is_refused_at_its_place(rt: HostRuntime) -> Result<(), Fail> {
    for (text, want) in MODELS.iter() {
        let got = model_of(rt.alloc(), text.as_bytes())?;
        assert_eq!(rt; got.as_slice(), want.as_bytes(), "{text}");
    }
    Ok(())
}
