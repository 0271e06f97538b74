ghost use Rattle.std.specs.Prelude.{◌≡◌, ℕ, List};
ghost use Rattle.smc_settings.specs.declared.commands.Settings.{Settings};
ghost use Rattle.smc_settings.specs.Settings.{IsSettings};

/// Words have at most one settings.
pub fn one_settings()
    ensures { (words : List (List ℕ)) (one two : Settings) → IsSettings words one → IsSettings words two → one ≡ two }
{}
