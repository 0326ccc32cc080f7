//! The laws of claims, each the contract of a function that does nothing.
ghost use Rattle.bounds_check.specs.Laws.{ClaimsMayBeOwed};

/// Each claim of a well-formed procedure is affine, and its place is one of the procedure's: so it has a formula and a context.
pub fn claims_may_be_owed()
    ensures { ClaimsMayBeOwed }
{}
