ghost use Rattle.std.specs.Prelude.{◌≡◌, ◌↔◌, ℤ, pos, ◌+ℤ◌, ◌*ℤ◌, ◌<ℤ◌, ◌≤ℤ◌, IfOk, IsErrOf};
ghost use Rattle.smc_num.specs.Arithmetic.{modulo_of};

use crate::fault::NumFault;

/// The remainder of `i` by `n`, which is 0 to `n - 1` whatever the sign of `i`.
#[tactic(auto, unfolding(crate::specs::Arithmetic::modulo_of))]
pub fn modulo(i: i64, n: i64) -> Result<i64, NumFault>
    ensures value { result ≡ modulo_of i n }
    ensures zero { IsErrOf result NumFault.ZeroDivisor ↔ (n ≡ pos 0) }
    ensures negative { IsErrOf result NumFault.OutsideDomain ↔ (n <ℤ pos 0) }
    ensures range { IfOk result (λ rest. (pos 0 ≤ℤ rest) × (rest <ℤ n)) }
    ensures multiple { IfOk result (λ rest. (q : ℤ) × (i ≡ q *ℤ n +ℤ rest)) }
{
    if n == 0 {
        Err(NumFault::ZeroDivisor)
    } else if n < 0 {
        Err(NumFault::OutsideDomain)
    } else {
        Ok(i.rem_euclid(n))
    }
}
