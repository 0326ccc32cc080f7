//! Some places of a procedure that are listed by themselves.
use crate::error::CheckError;
use crate::listing::behind;
use affine_systems::Amount;

/// Places of a procedure that come one after the other, behind some that are listed elsewhere. The
/// limits are those of a whole list.
#[derive(Drop)]
pub struct Stripe {
    pub(crate) skip: usize,
    pub(crate) places: usize,
    pub(crate) more: bool,
    pub(crate) amount: Amount,
}

impl Stripe {
    ghost use Rattle.std.specs.Prelude.{◌≡◌, ◌+◌, ◌<◌, ◌++◌, OnOk, IfErr};
    ghost use Rattle.exo_tree.specs.Tree.{Procedure, Program};
    ghost use Rattle.bounds_check.specs.Parts.{GoesFurther, IsStripe, PassLimits, owed_in};

    /// Nothing is listed yet behind so many places.
    pub fn new(skip: usize) -> Stripe
        ensures stripe { (u : Program) (p : Procedure) → IsStripe u p result }
        ensures skip { result.skip ≡ skip }
        ensures places { result.places ≡ 0 }
    {
        Stripe {
            skip,
            places: 0,
            more: true,
            amount: Amount::none(),
        }
    }

    /// Whether the procedure has a place behind those, once some are listed.
    pub fn has_more(&self) -> bool
        ensures { result ≡ self.now.more }
    {
        self.more
    }

    /// Goes on with the places of a stripe that begins where this one ends. `TooManyObligations`
    /// where both together pass the limits.
    pub fn append(&mut self, other: Stripe) -> Result<(), CheckError>
        ensures goes { (u : Program) (p : Procedure)
            → IsStripe u p self.old
            → IsStripe u p other
            → other.skip ≡ self.old.skip + self.old.places
            → 0 < other.places
            → OnOk result
            (GoesFurther u p self.old self.new other.places (owed_in u p other)) }
        ensures refused { (u : Program) (p : Procedure)
            → IsStripe u p self.old
            → IsStripe u p other
            → IfErr result (λ e. PassLimits e (owed_in u p self.old ++ owed_in u p other)) }
    {
        self.amount = self.amount.joined(other.amount)?;
        self.places = behind(self.places, other.places)?;
        self.more = other.more;
        Ok(())
    }
}
