//! The built-in labels, which are asked only where an expression reads them.

ghost use Rattle.std.specs.Prelude.{◌≡◌};
ghost use Rattle.chain_model.specs.declared.values.LabelValues.{LabelValues};

use chain_model::TraceFault;

/// What the built-in labels say where an expression stands.
pub trait BuiltInLabels {
    ghost values: { Self → LabelValues };

    /// What the label `"init"` says.
    fn init(&self) -> bool
        ensures { result ≡ (values self.now).init };

    /// What the label `"deadlock"` says, or the fault of the first guard that faults.
    fn deadlock(&self) -> Result<bool, TraceFault>
        ensures { result ≡ (values self.now).deadlock };
}

/// In guards, weights and right sides no built-in label stands.
pub struct NoLabels;

impl BuiltInLabels for NoLabels {
    ghost use Rattle.chain_model.specs.Choices.{no_labels};

    ghost values = { λ _. no_labels };

    fn init(&self) -> bool {
        false
    }

    fn deadlock(&self) -> Result<bool, TraceFault> {
        Ok(false)
    }
}
