//! Weights of counties, as a line of a bound leaf has them.

ghost use Rattle.std.specs.Prelude.{◌≡◌, IfOk};

use county_codes::CountyCode;
use std::alloc::AllocError;
use std::marker::Model;

/// The weight of a county.
#[derive(Clone, Copy, Debug, PartialEq, Eq)]
pub struct Weight {
    /// The county.
    pub county: CountyCode,
    /// Its weight, 1 to 1,000,000 on a line of a certificate.
    pub weight: u32,
}

/// Weights of counties, in their own order.
#[derive(Debug, Drop)]
pub struct Weights {
    weights: Vec<Weight>,
}

impl Model for Weights {
    ghost use Rattle.std.specs.Prelude.{List};
    ghost use Rattle.certificate_data.specs.declared.weights.Weight.{Weight};

    /// The weights, in order.
    ghost Value = { List Weight };

    ghost view = { λ s. s.weights.items };
}

impl Weights {
    /// Creates the list of these `weights`. It takes no memory.
    pub fn new(weights: Vec<Weight>) -> Self
        ensures { result ≡ weights.items }
    {
        Weights { weights }
    }

    /// Returns the weights as a slice.
    pub fn as_slice(&self) -> &[Weight]
        ensures { result.now ≡ self.now }
    {
        self.weights.as_slice()
    }

    /// Returns an equal list, or an error if memory was refused.
    pub fn copy(&self) -> Result<Weights, AllocError>
        ensures { IfOk result (λ weights. weights ≡ self.now) }
    {
        Ok(Weights {
            weights: self.weights.clone()?,
        })
    }
}
