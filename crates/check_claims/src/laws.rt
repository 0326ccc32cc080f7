//! Laws of claims, each the contract of a function with nothing to do.
ghost use Rattle.check_claims.specs.Places.{PlacesHaveAllClaims};

/// The claims of all places of a procedure, in their order, are those of the procedure.
pub fn places_have_all_claims()
    ensures { PlacesHaveAllClaims }
{}
