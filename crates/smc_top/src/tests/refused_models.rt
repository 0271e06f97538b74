//! Models that are refused: each with its status and its line.

use super::models::STEP;
use super::*;
use std::test::Fail;

/// Models that are refused.
static MODELS: [Row; 40] = [
    (CHECK, "dtmc #", 5, "refused 510: bad byte at 5\n"),
    (
        CHECK,
        "dtmc const int a=4611686018427387904;",
        5,
        "refused 511: number too wide at 17\n",
    ),
    (CHECK, "ctmc", 5, "refused 520: unsupported ctmc at 0\n"),
    (
        CHECK,
        "dtmc formula f = true => true => true;",
        5,
        "refused 520: unsupported => at 30\n",
    ),
    (
        CHECK,
        "dtmc const int a=(((((((((((((((((((((((((((((((((((((((((((((((((((((((((((((((((",
        5,
        "refused 521: too deep at 81\n",
    ),
    (
        CHECK,
        "dtmc const int a=1; const int a=2;",
        5,
        "refused 530: duplicate a\n",
    ),
    (
        CHECK,
        "dtmc formula f=g; formula g=f;",
        5,
        "refused 531: formula cycle f\n",
    ),
    (
        CHECK,
        "dtmc module B = M [ x=y ] endmodule",
        5,
        "refused 532: no such module M\n",
    ),
    (
        CHECK,
        "dtmc module M x:[0..1]; endmodule module B = M [ a=b ] endmodule",
        5,
        "refused 533: variable not renamed x\n",
    ),
    (
        CHECK,
        "dtmc module M x:[0..1]; endmodule module B = M [ x=y, x=z ] endmodule",
        5,
        "refused 534: renamed twice x\n",
    ),
    (
        CHECK,
        "dtmc formula f=true; module M x:[0..1]; endmodule module B = M [ x=y, c=f ] endmodule",
        5,
        "refused 536: renamed to formula f\n",
    ),
    (
        CHECK,
        "dtmc const int N;",
        5,
        "refused 540: undefined constant N\n",
    ),
    (
        CHECK,
        "dtmc const int a=b; const int b=a;",
        5,
        "refused 543: constant cycle a\n",
    ),
    (
        CHECK,
        "dtmc const int a=true;",
        5,
        "refused 544: wrong type of constant a\n",
    ),
    (
        CHECK,
        "dtmc const double a=1/0;",
        5,
        "refused 545: zero divisor in constant a\n",
    ),
    (
        CHECK,
        "dtmc module m x:[0..1] init 0; [] q=0 -> 1/1:(x'=1); endmodule",
        5,
        "refused 550: unknown name q\n",
    ),
    (
        CHECK,
        "dtmc module m x:[0..1] init 0; [] x -> 1/1:(x'=1); endmodule",
        5,
        "refused 551: wrong type in command 0\n",
    ),
    (
        CHECK,
        "dtmc module m x:[1..0]; [] x=0 -> 1/1:(x'=1); endmodule",
        5,
        "refused 552: bad range x\n",
    ),
    (
        CHECK,
        "dtmc module m x:[0..1] init 2; [] x=0 -> 1/1:(x'=1); endmodule",
        5,
        "refused 553: initial value outside x\n",
    ),
    (
        CHECK,
        "dtmc module m x:[0..1]; endmodule module k [] true -> (x'=1); endmodule",
        5,
        "refused 554: foreign write x\n",
    ),
    (
        CHECK,
        "dtmc global g:[0..1]; module m [a] true -> (g'=1); endmodule",
        5,
        "refused 555: global in a labelled command g\n",
    ),
    (
        CHECK,
        "dtmc module m x:[0..1] init 0; [] x=0 -> 1/1:(x'=1)&(x'=0); endmodule",
        5,
        "refused 556: written twice x\n",
    ),
    (
        CHECK,
        "dtmc module m x:[0..floor(1/0)] init 0; [] x=0 -> 1/1:(x'=1); endmodule",
        5,
        "refused 558: zero divisor in variable 0\n",
    ),
    (CHECK, "", 5, "refused 522: not in the grammar at 0\n"),
    (
        CHECK,
        "dtmc module m x:[0..1]; [] x=0 ->",
        5,
        "refused 522: not in the grammar at 33\n",
    ),
    (
        "check|--model=M|--property=P>=0.9 [ F<=1 x=1 ]|--const=K=1",
        STEP,
        5,
        "refused 541: unknown constant K\n",
    ),
    (
        "check|--model=M|--property=P>=0.9 [ F<=1 x=1 ]|--const=N=1,N=2",
        "dtmc const int N;",
        5,
        "refused 542: constant given twice N\n",
    ),
    (
        CHECK,
        "dtmc formula f=(((((((((((((((((((((((((((((((((((((((((((((((((((((((((((((((((1)))))))))))))))))))))))))))))))))))))))))))))))))))))))))))))))));",
        5,
        "refused 521: too deep at 79\n",
    ),
    (
        CHECK,
        "dtmc formula f=!!!!!!!!!!!!!!!!!!!!!!!!!!!!!!!!!!!!!!!!!!!!!!!!!!!!!!!!!!!!!!!!!true;",
        5,
        "refused 521: too deep at 79\n",
    ),
    (
        CHECK,
        "dtmc formula f=-----------------------------------------------------------------1;",
        5,
        "refused 521: too deep at 79\n",
    ),
    (
        CHECK,
        "dtmc formula f0=x+x;formula f1=f0+f0;formula f2=f1+f1;formula f3=f2+f2;formula f4=f3+f3;formula f5=f4+f4;formula f6=f5+f5;formula f7=f6+f6;formula f8=f7+f7;formula f9=f8+f8;formula f10=f9+f9;formula f11=f10+f10;formula f12=f11+f11;formula f13=f12+f12;",
        5,
        "refused 535: too large after expansion\n",
    ),
    (
        CHECK,
        "dtmc module m x:[0..1]; endmodul",
        5,
        "refused 522: not in the grammar at 32\n",
    ),
    (
        CHECK,
        "dtmc const = 1;",
        5,
        "refused 522: not in the grammar at 11\n",
    ),
    (
        CHECK,
        "dtmc formula f=a?b?c:d:e;",
        5,
        "refused 522: not in the grammar at 18\n",
    ),
    (
        CHECK,
        "dtmc const double a=pow(2,-1);",
        5,
        "refused 545: outside the domain in constant a\n",
    ),
    (
        CHECK,
        "dtmc const int a=pow(2,62);",
        5,
        "refused 545: out of limit in constant a\n",
    ),
    (
        CHECK,
        "dtmc module m x:[0..true]; endmodule",
        5,
        "refused 551: wrong type in variable 0\n",
    ),
    (
        CHECK,
        "dtmc module m x:[0..1]; endmodule label \"a\"=true; label \"b\"=x;",
        5,
        "refused 551: wrong type in label 1\n",
    ),
    (
        CHECK,
        "dtmc module m x:[0..mod(1,-1)]; endmodule",
        5,
        "refused 558: outside the domain in variable 0\n",
    ),
    (
        CHECK,
        "dtmc module m x:[0..1]; y:[0..1] init pow(2,62); endmodule",
        5,
        "refused 558: out of limit in variable 1\n",
    ),
];

#[test]
fn a_model_is_refused_in_one_line(rt: HostRuntime) -> Result<(), Fail> {
    for row in &MODELS {
        assert!(rt; is_answered(&rt, row)?, "{row:?}");
    }
    Ok(())
}
