//! The laws of contexts, each the contract of a function that does nothing.
ghost use Rattle.check_laws.specs.Facts.Laws.{ContextsHold, ShownConditionsHold, WellFormedIsAllowed};

/// Wherever a run on an admissible input comes to, without fault, there are numbers for the atoms with which the context of the place
/// is met, and each expression and condition over the names there has its number.
pub fn contexts_hold()
    ensures { ContextsHold }
{
    meaning_laws::laws::place_facts_hold();
    meaning_laws::laws::plain_writes_are_told();
    meaning_laws::laws::names_stay_as_made();
    meaning_laws::laws::opened_blocks_are_there();
    meaning_laws::laws::well_formed_names_are_in_scope();
    affine_places::laws::well_formed_procedures_are_affine();
    affine_places::laws::normal_is_exact_at_places();
    affine_places::laws::formulas_are_exact_at_places();
}

/// The expressions and conditions of a well-formed procedure are among those of which the law of contexts speaks.
pub fn well_formed_is_allowed()
    ensures { WellFormedIsAllowed }
{}

/// A condition over the names at a place whose systems there have no integer point holds in each state that such a run comes to.
pub fn shown_conditions_hold()
    ensures { ShownConditionsHold }
{
    contexts_hold();
    well_formed_is_allowed();
    affine_systems::laws::shown_claims_hold();
}
