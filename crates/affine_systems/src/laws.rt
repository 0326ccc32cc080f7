//! The laws of systems, each the contract of a function that does nothing.
ghost use Rattle.affine_systems.specs.Laws.{ShownLaw, SystemsLaw};

/// Values at which a context is met and a claim fails are a point of one of the claim's systems.
pub fn failed_claims_have_points()
    ensures { SystemsLaw }
{}

/// A claim without integer points in its systems holds wherever its context does.
pub fn shown_claims_hold()
    ensures { ShownLaw }
{}
