// What strings of a schedule stand for, each law the contract of a function with nothing to do.

ghost use Rattle.exo_types_laws.specs.Strings.Laws.{SameNamesAtPlace, SameIdsAtPlace};
ghost use Rattle.exo_types_laws.specs.Strings.Laws.{SameControlsAtPlace, SameConditionsAtPlace};
ghost use Rattle.exo_types_laws.specs.Strings.Laws.{ControlsStandAtPlace, ConditionsStandAtPlace};

/// The names in scope at a statement, or behind it, are those of the meaning.
pub fn names_are_those_of_the_meaning()
    ensures { SameNamesAtPlace }
{}

/// A name stands for the same id.
pub fn ids_are_those_of_the_meaning()
    ensures { SameIdsAtPlace }
{}

/// A string stands for the same control expression.
pub fn controls_are_those_of_the_meaning()
    ensures { SameControlsAtPlace }
{}

/// And for the same condition.
pub fn conditions_are_those_of_the_meaning()
    ensures { SameConditionsAtPlace }
{}

/// In a well-formed unit a string that breaks no rule over these names is well formed there.
pub fn controls_stand_at_places()
    ensures { ControlsStandAtPlace }
{}

/// So is a condition.
pub fn conditions_stand_at_places()
    ensures { ConditionsStandAtPlace }
{}
