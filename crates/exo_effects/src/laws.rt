//! The laws of uses, each the contract of a function that does nothing.
ghost use Rattle.exo_effects.specs.Low.{LowLaw, UsesLowLaw, PassedLowLaw};

/// In a well-formed procedure all that uses are made from is affine, over variables below 2^31.
pub fn well_formed_procedures_are_low()
    ensures { LowLaw }
{}

/// So are the uses of each piece of one.
pub fn uses_are_low()
    ensures { UsesLowLaw }
{}

/// So is what each call of one passes.
pub fn passed_is_low()
    ensures { PassedLowLaw }
{}
