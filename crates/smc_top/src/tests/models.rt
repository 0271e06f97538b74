//! Models that several tables share.

/// A variable that goes from 0 to 1 and stays there.
pub(super) const STEP: &str = "dtmc module m x:[0..1] init 0; [] x=0 -> 1/1:(x'=1); endmodule";

/// A module without commands.
pub(super) const STAY: &str = "dtmc module m endmodule";

/// A variable that counts past its range.
pub(super) const COUNTER: &str = "dtmc module m x:[0..3]; [] true -> (x'=x+1); endmodule";

/// A coin: 1 or 2.
pub(super) const COIN: &str =
    "dtmc module m x:[0..2] init 0; [] x=0 -> 1/2:(x'=1)+1/2:(x'=2); endmodule";

/// A coin of which one side leaves the range.
pub(super) const LEAVING: &str =
    "dtmc module m x:[0..1]; [] x=0 -> 1/2:(x'=0)+1/2:(x'=2); endmodule";

/// Two modules that move together, and one by itself.
pub(super) const THREE: &str = "dtmc\n\
    module M x:[0..1]; [a] true -> (x'=0); [a] true -> (x'=1); endmodule\n\
    module B y:[0..1]; [a] true -> (y'=0); [a] true -> (y'=1); endmodule\n\
    module D z:[0..1]; [] true -> (z'=1-z); endmodule\n";

/// A die from a coin, by Knuth and Yao.
pub(super) const DIE: &str = "dtmc\n\
    module die\n\
    \x20 s : [0..7] init 0;\n\
    \x20 d : [0..6] init 0;\n\
    \x20 [] s=0 -> 0.5 : (s'=1) + 0.5 : (s'=2);\n\
    \x20 [] s=1 -> 0.5 : (s'=3) + 0.5 : (s'=4);\n\
    \x20 [] s=2 -> 0.5 : (s'=5) + 0.5 : (s'=6);\n\
    \x20 [] s=3 -> 0.5 : (s'=1) + 0.5 : (s'=7) & (d'=1);\n\
    \x20 [] s=4 -> 0.5 : (s'=7) & (d'=2) + 0.5 : (s'=7) & (d'=3);\n\
    \x20 [] s=5 -> 0.5 : (s'=7) & (d'=4) + 0.5 : (s'=7) & (d'=5);\n\
    \x20 [] s=6 -> 0.5 : (s'=2) + 0.5 : (s'=7) & (d'=6);\n\
    \x20 [] s=7 -> (s'=7);\n\
    endmodule\n\
    rewards \"coin_flips\"\n\
    \x20 [] s<7 : 1;\n\
    endrewards\n";
