//! Traces, each with its status and all that it writes. Which part a draw picks is that of the published ChaCha8 streams.

use super::models::{COIN, COUNTER, STAY, STEP, THREE};
use super::*;
use std::test::Fail;

/// Traces, state by state.
static TRACES: [Row; 12] = [
    (
        "trace|--model=M|--steps=1",
        STEP,
        0,
        "state 0: x=0\n\
        choices 1: [] #0\n\
        took [] #0.0\n\
        state 1: x=1\n\
        draws: 0\n",
    ),
    (
        "trace|--model=M|--steps=1",
        STAY,
        0,
        "state 0:\n\
        choices 0: stays\n\
        took nothing\n\
        state 1:\n\
        draws: 0\n",
    ),
    (
        "trace|--model=M",
        THREE,
        0,
        "state 0: x=0 y=0 z=0\n\
        choices 5: [] #4; [a] #0 #2; [a] #0 #3; [a] #1 #2; [a] #1 #3\n\
        took [a] #0.0 #2.0\n\
        state 1: x=0 y=0 z=0\n\
        choices 5: [] #4; [a] #0 #2; [a] #0 #3; [a] #1 #2; [a] #1 #3\n\
        took [a] #0.0 #2.0\n\
        state 2: x=0 y=0 z=0\n\
        choices 5: [] #4; [a] #0 #2; [a] #0 #3; [a] #1 #2; [a] #1 #3\n\
        took [a] #1.0 #2.0\n\
        state 3: x=1 y=0 z=0\n\
        choices 5: [] #4; [a] #0 #2; [a] #0 #3; [a] #1 #2; [a] #1 #3\n\
        took [a] #1.0 #3.0\n\
        state 4: x=1 y=1 z=0\n\
        choices 5: [] #4; [a] #0 #2; [a] #0 #3; [a] #1 #2; [a] #1 #3\n\
        took [a] #1.0 #3.0\n\
        state 5: x=1 y=1 z=0\n\
        choices 5: [] #4; [a] #0 #2; [a] #0 #3; [a] #1 #2; [a] #1 #3\n\
        took [] #4.0\n\
        state 6: x=1 y=1 z=1\n\
        choices 5: [] #4; [a] #0 #2; [a] #0 #3; [a] #1 #2; [a] #1 #3\n\
        took [a] #1.0 #2.0\n\
        state 7: x=1 y=0 z=1\n\
        choices 5: [] #4; [a] #0 #2; [a] #0 #3; [a] #1 #2; [a] #1 #3\n\
        took [a] #1.0 #2.0\n\
        state 8: x=1 y=0 z=1\n\
        choices 5: [] #4; [a] #0 #2; [a] #0 #3; [a] #1 #2; [a] #1 #3\n\
        took [a] #0.0 #3.0\n\
        state 9: x=0 y=1 z=1\n\
        choices 5: [] #4; [a] #0 #2; [a] #0 #3; [a] #1 #2; [a] #1 #3\n\
        took [a] #0.0 #3.0\n\
        state 10: x=0 y=1 z=1\n\
        draws: 10\n",
    ),
    (
        "trace|--model=M|--steps=0",
        STEP,
        0,
        "state 0: x=0\n\
        draws: 0\n",
    ),
    (
        "trace|--model=M|--steps=1|--index=2",
        COIN,
        0,
        "state 0: x=0\n\
        choices 1: [] #0\n\
        took [] #0.0\n\
        state 1: x=1\n\
        draws: 1\n",
    ),
    (
        "trace|--model=M|--steps=1|--index=3",
        COIN,
        0,
        "state 0: x=0\n\
        choices 1: [] #0\n\
        took [] #0.1\n\
        state 1: x=2\n\
        draws: 1\n",
    ),
    (
        "trace|--model=M|--steps=1|--seed=2",
        COIN,
        0,
        "state 0: x=0\n\
        choices 1: [] #0\n\
        took [] #0.1\n\
        state 1: x=2\n\
        draws: 1\n",
    ),
    (
        "trace|--model=M|--steps=1|--index=18446744073709551615|--seed=18446744073709551615",
        COIN,
        0,
        "state 0: x=0\n\
        choices 1: [] #0\n\
        took [] #0.1\n\
        state 1: x=2\n\
        draws: 1\n",
    ),
    (
        "trace|--model=M",
        COUNTER,
        8,
        "state 0: x=0\n\
        choices 1: [] #0\n\
        took [] #0.0\n\
        state 1: x=1\n\
        choices 1: [] #0\n\
        took [] #0.0\n\
        state 2: x=2\n\
        choices 1: [] #0\n\
        took [] #0.0\n\
        state 3: x=3\n\
        choices 1: [] #0\n\
        fault at step 4: x outside its range\n\
        draws: 0\n",
    ),
    (
        "trace|--model=M",
        "dtmc module m x:[0..1] init 0; [] 1/x>0 -> 1/1:(x'=1); endmodule",
        8,
        "state 0: x=0\n\
        fault at step 1: zero divisor\n\
        draws: 0\n",
    ),
    (
        "trace|--model=M|--steps=1|--const=b=true,n=-2",
        "dtmc const bool b; const int n; module m c:bool init b; x:[n..0]; [] c -> (c'=false)&(x'=x+1); endmodule",
        0,
        "state 0: c=true x=-2\n\
        choices 1: [] #0\n\
        took [] #0.0\n\
        state 1: c=false x=-1\n\
        draws: 0\n",
    ),
    (
        "trace|--model=M|--steps=1",
        "dtmc module m [] true -> true; [] true -> true; [] true -> true; [] true -> true; [] true -> true; [] true -> true; [] true -> true; [] true -> true; [] true -> true; [] true -> true; [] true -> true; [] true -> true; [] true -> true; [] true -> true; [] true -> true; [] true -> true; [] true -> true; endmodule",
        0,
        "state 0:\n\
        choices 17: [] #0; [] #1; [] #2; [] #3; [] #4; [] #5; [] #6; [] #7; [] #8; [] #9; [] #10; [] #11; [] #12; [] #13; [] #14; [] #15; and 1 more\n\
        took [] #6.0\n\
        state 1:\n\
        draws: 1\n",
    ),
];

#[test]
fn a_trace_is_written_whole(rt: HostRuntime) -> Result<(), Fail> {
    for row in &TRACES {
        assert!(rt; is_answered(&rt, row)?, "{row:?}");
    }
    Ok(())
}
