//! The laws of claims, each the contract of a function with nothing to do.
ghost use Rattle.check_laws.specs.Claims.Laws.{ProceduresMayRun, ClaimsAreFormed, ClaimsSufficeHere, ClaimsSuffice};

use meaning_laws::laws::{
    first_states_are_admissible, grown_units_do_the_same, opened_blocks_are_there,
    places_are_sound, places_fit, well_formed_calls_are_below,
};

/// A procedure of a well-formed unit may call all of it.
pub fn procedures_may_run()
    ensures { ProceduresMayRun }
{}

/// The claims of a well-formed procedure are conditions over the names in scope at their places.
pub fn claims_are_formed()
    ensures { ClaimsAreFormed }
{}

/// No admissible input makes a procedure fault whose claims hold and which calls procedures that never fault.
pub fn claims_suffice_here()
    ensures { ClaimsSufficeHere }
{
    opened_blocks_are_there();
    places_are_sound();
    places_fit();
    first_states_are_admissible();
    grown_units_do_the_same();
    well_formed_calls_are_below();
}

/// In a well-formed unit no admissible input makes a procedure fault whose claims hold, with those of all that it calls: each claim
/// in every state in which a run comes to its place.
pub fn claims_suffice()
    ensures { ClaimsSuffice }
{
    opened_blocks_are_there();
    places_are_sound();
    places_fit();
    first_states_are_admissible();
    grown_units_do_the_same();
    well_formed_calls_are_below();
}
