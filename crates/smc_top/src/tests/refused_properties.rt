//! Properties that are refused: each with its status and its line.

use super::models::STEP;
use super::*;
use std::test::Fail;

/// Properties that are refused.
static PROPERTIES: [Row; 22] = [
    (
        "check|--model=M|--property=P>=0.9 [ F<=1 x=1",
        STEP,
        6,
        "refused 622: not in the grammar at 17\n",
    ),
    (
        "check|--model=M|--property=P>=0.9 [ F x=1 ]",
        STEP,
        6,
        "refused 622: not in the grammar at 11\n",
    ),
    (
        "check|--model=M|--property=P>=0.9 [ F[2,3] x=1 ]",
        STEP,
        6,
        "refused 622: not in the grammar at 10\n",
    ),
    (
        "check|--model=M|--property=P>=0.9 [ G[1,4] x=1 ]",
        STEP,
        6,
        "refused 622: not in the grammar at 10\n",
    ),
    (
        "check|--model=M|--property=P>=0.9 [ F[3,2] x=1 ]",
        STEP,
        6,
        "refused 622: not in the grammar at 10\n",
    ),
    (
        "check|--model=M|--property=P>=0.9 [ x=0 W<=0 x=2 ]",
        STEP,
        6,
        "refused 620: unsupported W at 13\n",
    ),
    (
        "check|--model=M|--property=P>=0.9 [ x=0 R<=2 x<=1 ]",
        STEP,
        6,
        "refused 620: unsupported R at 13\n",
    ),
    (
        "check|--model=M|--property=P>=0.9 [ x=0 W<=3 x=2 ]",
        STEP,
        6,
        "refused 620: unsupported W at 13\n",
    ),
    (
        "check|--model=M|--property=P>=0.9 [ x=1 R[0,2] x=0 ]",
        STEP,
        6,
        "refused 620: unsupported R at 13\n",
    ),
    (
        "check|--model=M|--property=P>=0.9 [ F<=1 q=1 ]",
        STEP,
        6,
        "refused 650: unknown name q\n",
    ),
    (
        "check|--model=M|--property=P>=0.9 [ F<=1 \"lab\" ]",
        STEP,
        6,
        "refused 659: unknown label lab\n",
    ),
    (
        "check|--model=M|--property=P>=0.9 [ F<0 x=1 ]",
        STEP,
        6,
        "refused 660: bad horizon\n",
    ),
    (
        "check|--model=M|--property=P>=0.9 [ F<=1000001 x=1 ]",
        STEP,
        6,
        "refused 660: bad horizon\n",
    ),
    (
        "check|--model=M|--property=P>=1/2 [ F<=1000001 x=1 ]|--plan=1,0",
        STEP,
        6,
        "refused 660: bad horizon\n",
    ),
    (
        "check|--model=M|--property=#",
        STEP,
        6,
        "refused 610: bad byte at 0\n",
    ),
    (
        "check|--model=M|--property=P>=4611686018427387904 [ X x=1 ]",
        STEP,
        6,
        "refused 611: number too wide at 3\n",
    ),
    (
        "check|--model=M|--property=P>=0.9 [ F<=1 (((((((((((((((((((((((((((((((((((((((((((((((((((((((((((((((((",
        STEP,
        6,
        "refused 621: too deep at 78\n",
    ),
    (
        "check|--model=M|--property=P>=0.9 [ F<=1 x ]",
        STEP,
        6,
        "refused 651: wrong type in property\n",
    ),
    (
        "check|--model=M|--property=P>=1/0 [ F<=1 x=1 ]",
        STEP,
        6,
        "refused 658: zero divisor in property\n",
    ),
    (
        "check|--model=M|--property=P>=0.9 [ F<=(mod(1,-1)) x=1 ]",
        STEP,
        6,
        "refused 658: outside the domain in property\n",
    ),
    (
        "check|--model=M|--property=P>=pow(2,62) [ F<=1 x=1 ]",
        STEP,
        6,
        "refused 658: out of limit in property\n",
    ),
    (
        "check|--model=M|--property=P>=0.9 [ F<=1 f12+f12+f12>0 ]",
        "dtmc formula f0=x+x;formula f1=f0+f0;formula f2=f1+f1;formula f3=f2+f2;formula f4=f3+f3;formula f5=f4+f4;formula f6=f5+f5;formula f7=f6+f6;formula f8=f7+f7;formula f9=f8+f8;formula f10=f9+f9;formula f11=f10+f10;formula f12=f11+f11; module m x:[0..1]; endmodule",
        6,
        "refused 635: too large after expansion\n",
    ),
];

#[test]
fn a_property_is_refused_in_one_line(rt: HostRuntime) -> Result<(), Fail> {
    for row in &PROPERTIES {
        assert!(rt; is_answered(&rt, row)?, "{row:?}");
    }
    Ok(())
}
