// Laws of accesses and conflicts, each the contract of a function with nothing to do.

ghost use Rattle.effect_laws.specs.Apart.{ApartIsMet};
ghost use Rattle.effect_laws.specs.Clear.{ClearLaw};
ghost use Rattle.effect_laws.specs.Covers.{CoversLaw};
ghost use Rattle.effect_laws.specs.CoversAtPlaces.{CoversAtPlaces};
ghost use Rattle.effect_laws.specs.Fits.{HalvesFit, NestsFit, NeighboursFit};
ghost use Rattle.effect_laws.specs.Pairs.{PairsAreApart};

pub use check_laws::facts::laws::contexts_hold;

/// The accesses of a piece cover what a run of it touches, calls included.
pub fn accesses_cover()
    ensures { CoversLaw }
{
    affine_forms::laws::normal_is_exact();
    affine_forms::laws::formulas_are_exact();
}

/// Wherever a run comes to a piece, its accesses cover what it touches from there.
pub fn accesses_cover_at_places()
    ensures { CoversAtPlaces }
{
    meaning_laws::laws::opened_blocks_are_there();
    meaning_laws::laws::names_stay_as_made();
    meaning_laws::laws::places_fit();
    meaning_laws::laws::places_are_sound();
    meaning_laws::laws::free_names_stand_for_nothing();
    check_laws::facts::laws::contexts_hold();
    affine_forms::laws::normal_is_exact();
    place_laws::scope::laws::first_statements_are_at_one_place();
    place_laws::scope::laws::rules_hold_at_places();
    accesses_cover();
    shown_conflicts_are_clear();
}

/// What two lists of accesses cover does not clash where their conflicts have no integer point.
pub fn shown_conflicts_are_clear()
    ensures { ClearLaw }
{
    affine_systems::laws::failed_claims_have_points();
}

/// Wherever a run comes to a place, what it then touches in two pieces does not clash at turns in
/// that order, where what is owed for them there has no integer point.
pub fn shown_pieces_are_apart()
    ensures { ApartIsMet }
{
    meaning_laws::laws::opened_blocks_are_there();
    meaning_laws::laws::names_stay_as_made();
    meaning_laws::laws::places_fit();
    meaning_laws::laws::places_are_sound();
    meaning_laws::laws::free_names_stand_for_nothing();
    check_laws::facts::laws::contexts_hold();
    affine_forms::laws::normal_is_exact();
    accesses_cover();
    shown_conflicts_are_clear();
}

/// What the laws on parted and fused loops ask of two loops, where their bodies are apart.
pub fn halves_fit()
    ensures { HalvesFit }
{}

/// What the law on two loops that change places asks, where turns of the body are apart.
pub fn nests_fit()
    ensures { NestsFit }
{}

/// What the law on neighbours that change places asks, where they are apart.
pub fn neighbours_fit()
    ensures { NeighboursFit }
{}

/// Wherever a run comes to a call, two of its arguments have no cell in common where nothing that is
/// owed for the two has an integer point.
pub fn pairs_are_apart()
    ensures { PairsAreApart }
{
    meaning_laws::laws::opened_blocks_are_there();
    meaning_laws::laws::names_stay_as_made();
    meaning_laws::laws::places_fit();
    meaning_laws::laws::places_are_sound();
    meaning_laws::laws::free_names_stand_for_nothing();
    check_laws::facts::laws::contexts_hold();
    affine_forms::laws::normal_is_exact();
    affine_systems::laws::failed_claims_have_points();
    exo_meaning::laws::windows_are_tested();
}
