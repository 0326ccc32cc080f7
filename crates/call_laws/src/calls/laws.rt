// Laws of calls that are inlined, each the contract of a function with nothing to do.

ghost use Rattle.call_laws.specs.Calls.Callees.{CalleeAt, CalleeKeepsRules, CalleeCallsBefore};
ghost use Rattle.call_laws.specs.Calls.Fresh.{FreshIds, FreshAnywhere, FreshConditionsAnywhere};
ghost use Rattle.call_laws.specs.Calls.Puts.{PutsRenumbered};
ghost use Rattle.call_laws.specs.Calls.Here.{AtOnceHere, CallsStandThere};
ghost use Rattle.call_laws.specs.Calls.InlineWindow.{inline_window_rule, NothingFollows};
ghost use Rattle.call_laws.specs.Calls.InlineWindow.{ViewsMayGo};
ghost use Rattle.call_laws.specs.Calls.Inlinable.{NewNames};
ghost use Rattle.call_laws.specs.Calls.Takes.{CallsTake};
ghost use Rattle.call_laws.specs.Calls.Inline.{inline_rule};
ghost use Rattle.step_rules.specs.Lawful.{IsLawful, IsCarrying};

/// A number names the procedure behind so many others.
pub fn callees_stand_at_their_numbers()
    ensures { CalleeAt }
{}

/// A procedure of a unit keeps the rules.
pub fn callees_keep_rules()
    ensures { CalleeKeepsRules }
{}

/// It calls those before it alone.
pub fn callees_call_those_before()
    ensures { CalleeCallsBefore }
{}

/// New numbers are given one to each id.
pub fn new_numbers_are_given_once()
    ensures { FreshIds }
{}

/// The callee with any new ids is the callee under a renaming.
pub fn any_new_ids_rename_callees()
    ensures { FreshAnywhere }
{}

/// So it may be inlined.
pub fn callees_with_any_new_ids_may_be_inlined()
    ensures { FreshConditionsAnywhere }
{}

/// New ids and arguments are put in one pass.
pub fn new_ids_and_arguments_are_put_at_once()
    ensures { PutsRenumbered }
{}

/// So it is at a call of a well-formed procedure.
pub fn calls_are_inlined_at_once()
    ensures { AtOnceHere }
{}

/// Nothing follows a view that is opened with all that follows it.
pub fn views_with_what_follows_are_last()
    ensures { NothingFollows }
{}

/// A view may be removed where what is made of the rest is formed.
pub fn views_may_go()
    ensures { ViewsMayGo }
{}

/// The rule that removes a view is lawful.
pub fn inlined_windows_are_lawful()
    ensures { IsLawful inline_window_rule }
{}

/// It moves what follows up.
pub fn inlined_windows_carry()
    ensures { IsCarrying inline_window_rule }
{}

/// The names of a callee with fresh ids are as a call asks for that is inlined.
pub fn inlined_callees_have_new_names()
    ensures { NewNames }
{}

/// Where a run comes to a call its arguments have the types of the parameters.
pub fn arguments_have_their_types()
    ensures { CallsStandThere }
{}

/// Arguments of a call may stand for the parameters of the callee with fresh ids.
pub fn arguments_may_be_taken()
    ensures { CallsTake }
{}

/// The rule that puts the callee's body in the place of a call is lawful.
pub fn inlined_calls_are_lawful()
    ensures { IsLawful inline_rule }
{}

/// It takes the call away.
pub fn inlined_calls_carry()
    ensures { IsCarrying inline_rule }
{}
