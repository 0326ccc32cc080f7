//! The laws of bounds, each the contract of a function that does nothing.
ghost use Rattle.effect_laws.specs.Bounds.Laws.{AccessesLowLaw, ArgumentsLowLaw, ContextLowLaw};

/// In a well-formed procedure all variables of the context of a place are below 2^31.
pub fn contexts_are_low()
    ensures { ContextLowLaw }
{
    meaning_laws::laws::well_formed_names_are_in_scope();
    meaning_laws::laws::names_out_of_scope_are_not_mentioned();
    affine_places::laws::well_formed_procedures_are_affine();
    exo_effects::laws::well_formed_procedures_are_low();
}

/// The program's accesses of a piece of one have variables below 2^31, and are not long.
pub fn accesses_are_low()
    ensures { AccessesLowLaw }
{
    exo_effects::laws::well_formed_procedures_are_low();
    exo_effects::laws::uses_are_low();
}

/// So have its accesses of what a call of one passes.
pub fn arguments_are_low()
    ensures { ArgumentsLowLaw }
{
    exo_effects::laws::well_formed_procedures_are_low();
    exo_effects::laws::passed_is_low();
}
