//! The laws of contexts, each the contract of a function that does nothing.
ghost use Rattle.check_facts.specs.Laws.{WellFormedMayBeWalked};

use affine_places::laws::well_formed_procedures_are_affine;

/// A well-formed procedure may be asked for the context at each of its places.
pub fn well_formed_procedures_may_be_walked()
    ensures { WellFormedMayBeWalked }
{
    well_formed_procedures_are_affine();
}
