ghost use Rattle.std.specs.Prelude.{◌≡◌, ℕ, ◌+◌, ◌*◌, ◌<◌, ◌≤◌};
ghost use Rattle.wald_test.specs.SequentialTest.{SequentialTest};
ghost use Rattle.wald_test.specs.Side.{CrossesAccept, CrossesReject, HasSide};
ghost use Rattle.wald_test.specs.Settings.{least_terms};

/// Law: no counts cross both boundaries. With two error probabilities that add up to less than 1, the
/// likelihoods of the counts cannot speak for both hypotheses; only counts that neither probability can
/// bring about, where each side is 0, meet both boundaries.
pub fn one_boundary_law()
    ensures { (t : SequentialTest) (d f : ℕ) → t.alpha + t.beta < t.error_parts → HasSide t d f
        → CrossesAccept t d f → CrossesReject t d f → ⊥ }
{}

/// Law: what `least_terms` means. It gives two fractions `a/n` and `b/n` over a denominator that serves
/// both, and each other denominator over which both have whole numerators is at least as large.
pub fn least_terms_law()
    ensures first { (a b n : ℕ) → 0 < n
        → (least_terms a b n).first * n ≡ a * (least_terms a b n).parts }
    ensures second { (a b n : ℕ) → 0 < n
        → (least_terms a b n).second * n ≡ b * (least_terms a b n).parts }
    ensures least { (a b n x y m : ℕ) → 0 < n → 0 < m → x * n ≡ a * m → y * n ≡ b * m
        → (least_terms a b n).parts ≤ m }
{}
