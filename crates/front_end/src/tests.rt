//! Texts through all stages: what refuses them, and what they say.

use super::*;
use chain_model::{Given, PathKind, Sort, Value};
use smc_num::{Frac, Text};
use smc_report::refusal;
use std::alloc::{AllocError, Global};
use std::test::Fail;

/// A model of one variable that goes from 0 to 1.
const MODEL: &str = "dtmc module m x:[0..1] init 0; [] x=0 -> 1/1:(x'=1); endmodule";

/// Whether a stop is a refusal with this line.
fn has_line(alloc: Global, stop: &Stop, line: &str) -> Result<bool, AllocError> {
    match stop {
        Stop::Refused(reason) => Ok(refusal(alloc, reason)?.as_slice() == line.as_bytes()),
        Stop::OutOfMemory(_) => Ok(false),
    }
}

/// Texts of models, each with the line of its refusal.
static MODELS: [(&str, &str); 27] = [
    ("", "refused 522: not in the grammar at 0\n"),
    (
        "dtmc module m x:[0..1]; [] x=0 ->",
        "refused 522: not in the grammar at 33\n",
    ),
    ("dtmc #", "refused 510: bad byte at 5\n"),
    (
        "dtmc const int a=4611686018427387904;",
        "refused 511: number too wide at 17\n",
    ),
    ("ctmc", "refused 520: unsupported ctmc at 0\n"),
    (
        "dtmc formula f = true => true => true;",
        "refused 520: unsupported => at 30\n",
    ),
    (
        "dtmc const int a=(((((((((((((((((((((((((((((((((((((((((((((((((((((((((((((((((",
        "refused 521: too deep at 81\n",
    ),
    (
        "dtmc const int a=1; const int a=2;",
        "refused 530: duplicate a\n",
    ),
    (
        "dtmc formula f=g; formula g=f;",
        "refused 531: formula cycle f\n",
    ),
    (
        "dtmc module B = M [ x=y ] endmodule",
        "refused 532: no such module M\n",
    ),
    (
        "dtmc module M x:[0..1]; endmodule module B = M [ a=b ] endmodule",
        "refused 533: variable not renamed x\n",
    ),
    (
        "dtmc module M x:[0..1]; endmodule module B = M [ x=y, x=z ] endmodule",
        "refused 534: renamed twice x\n",
    ),
    (
        "dtmc formula f=true; module M x:[0..1]; endmodule module B = M [ x=y, c=f ] endmodule",
        "refused 536: renamed to formula f\n",
    ),
    ("dtmc const int N;", "refused 540: undefined constant N\n"),
    (
        "dtmc const int a=b; const int b=a;",
        "refused 543: constant cycle a\n",
    ),
    (
        "dtmc const int a=true;",
        "refused 544: wrong type of constant a\n",
    ),
    (
        "dtmc const double a=1/0;",
        "refused 545: zero divisor in constant a\n",
    ),
    (
        "dtmc module m x:[0..1] init 0; [] q=0 -> 1/1:(x'=1); endmodule",
        "refused 550: unknown name q\n",
    ),
    (
        "dtmc module m x:[0..1] init 0; [] x -> 1/1:(x'=1); endmodule",
        "refused 551: wrong type in command 0\n",
    ),
    (
        "dtmc module m x:[1..0]; [] x=0 -> 1/1:(x'=1); endmodule",
        "refused 552: bad range x\n",
    ),
    (
        "dtmc module m x:[0..1] init 2; [] x=0 -> 1/1:(x'=1); endmodule",
        "refused 553: initial value outside x\n",
    ),
    (
        "dtmc module m x:[0..1]; endmodule module k [] true -> (x'=1); endmodule",
        "refused 554: foreign write x\n",
    ),
    (
        "dtmc global g:[0..1]; module m [a] true -> (g'=1); endmodule",
        "refused 555: global in a labelled command g\n",
    ),
    (
        "dtmc module m x:[0..1] init 0; [] x=0 -> 1/1:(x'=1)&(x'=0); endmodule",
        "refused 556: written twice x\n",
    ),
    (
        "dtmc module m x:[0..floor(1/0)] init 0; [] x=0 -> 1/1:(x'=1); endmodule",
        "refused 558: zero divisor in variable 0\n",
    ),
    // Of two mistakes that of the earlier stage is told.
    (
        "dtmc const int N; formula f=f;",
        "refused 531: formula cycle f\n",
    ),
    (
        "dtmc const int N; module m x:[1..0]; endmodule",
        "refused 540: undefined constant N\n",
    ),
];

/// Whether a model's text is refused with the line of its row.
fn is_refused(alloc: Global, row: &(&str, &str)) -> Result<bool, AllocError> {
    match read_model(alloc, row.0.as_bytes(), &[]) {
        Ok(_) => Ok(false),
        Err(stop) => has_line(alloc, &stop, row.1),
    }
}

#[test]
fn each_stage_refuses_a_model(rt: HostRuntime) -> Result<(), Fail> {
    for row in &MODELS {
        assert!(rt; is_refused(rt.alloc(), row)?, "{}", row.0);
    }
    Ok(())
}

/// A given whole number.
fn whole(alloc: Global, name: &str, number: i64) -> Result<Option<Given>, AllocError> {
    match Frac::new(number, 1) {
        Ok(value) => Ok(Some(Given {
            name: Text::from_bytes(alloc, name.as_bytes())?,
            sort: Sort::Int,
            value: Value::Num(value),
        })),
        Err(_) => Ok(None),
    }
}

/// Whether the first variable of a model goes up to 3.
fn goes_to_three(model: &Model) -> bool {
    match model.chain.vars.as_slice().first() {
        Some(var) => var.hi == 3,
        None => false,
    }
}

/// Whether the model of `const int N` and this given constant has a variable up to 3.
fn is_given(alloc: Global, name: &str) -> Result<bool, AllocError> {
    let text = "dtmc const int N; module m x:[0..N]; endmodule";
    let Some(given) = whole(alloc, name, 3)? else {
        return Ok(false);
    };
    match read_model(alloc, text.as_bytes(), &[given]) {
        Ok(model) => Ok(goes_to_three(&model)),
        Err(_) => Ok(false),
    }
}

#[test]
fn a_constant_is_given_from_outside(rt: HostRuntime) -> Result<(), Fail> {
    assert!(rt; is_given(rt.alloc(), "N")?);
    assert!(rt; !is_given(rt.alloc(), "K")?);
    Ok(())
}

/// Texts of properties over the model, each with the line of its refusal.
static PROPERTIES: [(&str, &str); 8] = [
    ("#", "refused 610: bad byte at 0\n"),
    (
        "P>=0.9 [ F x=1 ]",
        "refused 622: not in the grammar at 11\n",
    ),
    ("P>=0.9 [ F<=1 q=1 ]", "refused 650: unknown name q\n"),
    (
        "P>=0.9 [ F<=1 \"lab\" ]",
        "refused 659: unknown label lab\n",
    ),
    ("P>=0.9 [ F<=1 x ]", "refused 651: wrong type in property\n"),
    (
        "P>=1/0 [ F<=1 x=1 ]",
        "refused 658: zero divisor in property\n",
    ),
    ("P>=0.9 [ F<0 x=1 ]", "refused 660: bad horizon\n"),
    ("P>=0.9 [ F<=1000001 x=1 ]", "refused 660: bad horizon\n"),
];

/// Whether a property's text is refused with the line of its row.
fn is_refused_property(alloc: Global, row: &(&str, &str)) -> Result<bool, AllocError> {
    let Ok(model) = read_model(alloc, MODEL.as_bytes(), &[]) else {
        return Ok(false);
    };
    match read_property(alloc, row.0.as_bytes(), &model) {
        Ok(_) => Ok(false),
        Err(stop) => has_line(alloc, &stop, row.1),
    }
}

#[test]
fn each_stage_refuses_a_property(rt: HostRuntime) -> Result<(), Fail> {
    for row in &PROPERTIES {
        assert!(rt; is_refused_property(rt.alloc(), row)?, "{}", row.0);
    }
    Ok(())
}

/// Whether a property's text is a path formula of this kind, with a claim of nine tenths.
fn is_question(alloc: Global, text: &str, kind: PathKind, at_most: bool) -> bool {
    let Ok(model) = read_model(alloc, MODEL.as_bytes(), &[]) else {
        return false;
    };
    match read_property(alloc, text.as_bytes(), &model) {
        Ok((path, claim)) => path.kind == kind
            && claim.at_most == at_most
            && claim.theta.num() == 9
            && claim.theta.den() == 10,
        Err(_) => false,
    }
}

#[test]
fn a_property_is_a_path_formula_and_a_claim(rt: HostRuntime) {
    assert!(rt;
        is_question(
            rt.alloc(),
            "P>=0.9 [ F<=7 x=1 ]",
            PathKind::Finally(7),
            false
        )
    );
    assert!(rt;
        is_question(
            rt.alloc(),
            "P<0.9 [ x=0 U<7 \"deadlock\" ]",
            PathKind::Until(6),
            true
        )
    );
    assert!(rt; is_question(rt.alloc(), "P>0.9 [ X x=1 ]", PathKind::Next, false));
}
