ghost use Rattle.std.specs.Prelude.{◌≡◌, ◌<◌, ◌≤◌, ◌↔◌, ◌⊎◌, ℕ, ℤ, pos, ◌*ℤ◌, Bool, true, Ok, Err, IsOkUnless};
ghost use Rattle.std.specs.Int.{IsGcd, ◌∣◌};
ghost use Rattle.smc_num.specs.declared.fault.NumFault.TheVariants.{OutOfLimit};
ghost use Rattle.smc_num.specs.Gcd.{gcd_of, lcm_of};
ghost use Rattle.smc_num.specs.Fraction.{Fraction, IsFrac, HasValue, limit, lowest, fraction_of};
ghost use Rattle.smc_num.specs.Spelling.{is_wide, limited_of, ratio_of};
ghost use Rattle.smc_num.specs.declared.fault.ReadNum.TheVariants as read_fault;

/// What `gcd_of` means: it divides both numbers, and each number that divides both divides it.
pub fn gcd_law()
    ensures { (a b : ℕ) → IsGcd a b (gcd_of a b) }
{}

/// What `lcm_of` means: both numbers divide it, and it divides each number that both divide.
pub fn lcm_law()
    ensures first { (a b : ℕ) → a ∣ lcm_of a b }
    ensures second { (a b : ℕ) → b ∣ lcm_of a b }
    ensures least { (a b n : ℕ) → a ∣ n → b ∣ n → lcm_of a b ∣ n }
{}

/// What `lowest` and `fraction_of` mean: the one fraction in lowest terms and within the limits that
/// has the value, and `OutOfLimit` exactly where there is none.
pub fn lowest_law()
    ensures lowest { (n : ℤ) (d : ℕ) (f : Fraction) → 0 < d
        → (lowest n d ≡ Ok f) ↔ (IsFrac f × HasValue f n d) }
    ensures signed { (n d : ℤ) (f : Fraction) → (d ≡ pos 0 → ⊥)
        → (fraction_of n d ≡ Ok f) ↔ (IsFrac f × (f.num *ℤ d ≡ n *ℤ pos f.den)) }
    ensures refusal { (n : ℤ) (d : ℕ) → IsOkUnless (lowest n d) OutOfLimit }
    ensures one { (f g : Fraction) → IsFrac f → IsFrac g → HasValue f g.num g.den → f ≡ g }
{}

/// What "too wide" means: digits with a power of ten, and two numbers with a bar, are refused exactly
/// where they are too wide by their sizes, and otherwise have a value.
pub fn wide_law()
    ensures decimal { (sign : Bool) (m : ℕ) (e : ℤ)
        → (limited_of sign m e ≡ Err read_fault.OutOfLimit) ↔ (is_wide m e ≡ true) }
    ensures ratio { (sign : Bool) (m n : ℕ)
        → (ratio_of sign m n ≡ Err read_fault.OutOfLimit) ↔ ((limit ≤ m) ⊎ (limit ≤ n)) }
{}
