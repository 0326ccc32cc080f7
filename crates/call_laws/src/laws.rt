// That what an expression reads at a place has its number there, and that the rule which simplifies
// keeps the meaning and carries statements, each law the contract of a function with nothing to do.

ghost use Rattle.step_rules.specs.Lawful.{IsLawful, IsCarrying};
ghost use Rattle.call_laws.specs.Places.{PlacesStand, EntryReads, ReadsThere, EachIsRead};
ghost use Rattle.call_laws.specs.Nameless.{OfEachNameless};
ghost use Rattle.call_laws.specs.Spots.{PiecesAreRead};
ghost use Rattle.call_laws.specs.Simplify.{simplify_rule, SimplifiesAll};

/// Each name that sees something sees a part of its root, and each name in scope that has a
/// dimension sees something.
pub fn places_stand()
    ensures { PlacesStand }
{}

/// What is read there of variables, fields and strides has their numbers.
pub fn entries_read()
    ensures { EntryReads }
{}

/// So does all that is read of an expression that keeps the rules.
pub fn expressions_are_read_there()
    ensures { ReadsThere }
{}

/// And of each expression of a block, wherever its run comes.
pub fn each_is_read()
    ensures { EachIsRead }
{}

/// Names of binders are of no account for it.
pub fn each_nameless_is_read()
    ensures { OfEachNameless }
{}

/// So each expression of a piece is read wherever a run comes to it, with names of binders or
/// without.
pub fn pieces_are_read()
    ensures { PiecesAreRead }
{}

/// The rule simplifies each control expression of a block that keeps the rules.
pub fn all_is_simplified()
    ensures { SimplifiesAll }
{}

/// Control expressions may be written out from their normal forms.
pub fn simplifications_are_lawful()
    ensures { IsLawful simplify_rule }
{}

/// Each statement stays where it is.
pub fn simplifications_carry()
    ensures { IsCarrying simplify_rule }
{}
