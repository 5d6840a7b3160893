ghost use Rattle.std.specs.Prelude.{◌≡◌, ◌++◌, [], ◌∷◌, OnOk, OnErr};

use crate::steps::Step;
use std::alloc::{AllocError, Global};
use std::marker::Model;

/// A list of steps. Whether they prove a membership, `check_proof` tells.
pub struct Proof {
    steps: Vec<Step>,
}

impl Model for Proof {
    ghost use Rattle.std.specs.Prelude.{List};
    ghost use Rattle.proof_trees.specs.declared.steps.Step.{Step};

    ghost Value = { List Step };

    ghost view = { λ p. p.steps.items };
}

// By hand, so that who holds one drops it by one call, whose proof stands here.
impl Drop for Proof {
    fn drop(self) {
        let Proof { steps: _steps } = self;
    }
}

impl Proof {
    /// No step yet.
    pub fn new(alloc: Global) -> Self
        ensures { result ≡ [] }
    {
        Proof {
            steps: Vec::new(alloc),
        }
    }

    /// Adds a step behind the others. The step is dropped where memory is refused.
    pub fn push(&mut self, step: Step) -> Result<(), AllocError>
        ensures pushed { OnOk result (self.new ≡ self.old ++ step ∷ []) }
        ensures unchanged { OnErr result (self.new ≡ self.old) }
    {
        self.steps.push(step)?;
        Ok(())
    }

    /// The steps in order.
    pub fn steps(&self) -> &[Step]
        ensures { result.now ≡ self.now }
    {
        self.steps.as_slice()
    }
}
