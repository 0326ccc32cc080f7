//! How much is owed, where the obligations themselves are dropped.
use crate::list::{MOST_OBLIGATIONS, MOST_TERMS, terms_of};
use crate::obligation::Obligation;
use affine_forms::FormError;

/// The number of obligations and of the terms in them together, within the limits of a list.
#[derive(Clone, Copy)]
pub struct Amount {
    count: usize,
    terms: usize,
}

impl Amount {
    ghost use Rattle.std.specs.Prelude.{◌≡◌, ◌≤◌, ◌++◌, List, [], map};
    ghost use Rattle.affine_systems.specs.Amounts.{IsAmount, Counted};
    ghost use Rattle.affine_systems.specs.Outcomes.{Owed, plain_obligation};

    /// That of no obligations.
    pub fn none() -> Amount
        ensures { IsAmount [] result }
    {
        Amount { count: 0, terms: 0 }
    }

    /// The number of obligations.
    pub fn count(self) -> usize
        ensures { result ≡ self.count }
    {
        self.count
    }

    /// That with more obligations; `TooManySystems` where one passes a limit.
    pub fn grown_by(self, more: &[Obligation]) -> Result<Amount, FormError>
        ensures { (os : List Owed)
            → IsAmount os self
            → Counted result (os ++ map plain_obligation more.now) }
    {
        // in this order nothing passes the greatest number, whatever the counts are
        if self.count > MOST_OBLIGATIONS || more.len() > MOST_OBLIGATIONS - self.count {
            return Err(FormError::TooManySystems);
        }
        let terms = terms_of(more);
        if self.terms > MOST_TERMS || terms > MOST_TERMS - self.terms {
            return Err(FormError::TooManySystems);
        }
        Ok(Amount {
            count: self.count + more.len(),
            terms: self.terms + terms,
        })
    }

    /// That of these obligations and then the others; `TooManySystems` where both together pass a
    /// limit.
    pub fn joined(self, other: Amount) -> Result<Amount, FormError>
        ensures { (os ps : List Owed)
            → IsAmount os self
            → IsAmount ps other
            → Counted result (os ++ ps) }
    {
        if self.count > MOST_OBLIGATIONS || other.count > MOST_OBLIGATIONS - self.count {
            return Err(FormError::TooManySystems);
        }
        if self.terms > MOST_TERMS || other.terms > MOST_TERMS - self.terms {
            return Err(FormError::TooManySystems);
        }
        Ok(Amount {
            count: self.count + other.count,
            terms: self.terms + other.terms,
        })
    }
}
