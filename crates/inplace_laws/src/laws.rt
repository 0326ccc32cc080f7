// Laws of calls and windows, each the contract of a function with nothing to do.

ghost use Rattle.inplace_laws.specs.Along.{AlongLaw};
ghost use Rattle.inplace_laws.specs.Above.{AboveLaw};
ghost use Rattle.inplace_laws.specs.Passed.{PassedLaw};
ghost use Rattle.inplace_laws.specs.Inline.{WiderLaw};
ghost use Rattle.inplace_laws.specs.Inline.{ReplaceRefines};
ghost use Rattle.inplace_laws.specs.Inline.{InlineRefines};
ghost use Rattle.inplace_laws.specs.InPlace.{InPlace};
ghost use Rattle.inplace_laws.specs.CallInPlace.{CallInPlace};
ghost use Rattle.inplace_laws.specs.Windows.{WindowLaw};
ghost use Rattle.inplace_laws.specs.InlineWindow.{InlineWindowRefines};
ghost use Rattle.inplace_laws.specs.Staged.{StagedLaw};
ghost use Rattle.inplace_laws.specs.Steady.{SteadySubstitutionLaw};
ghost use Rattle.inplace_laws.specs.SteadyFlags.{SteadyFlagLaw};

/// A block may run on parts of buffers instead of on buffers of its own.
pub fn runs_go_in_place()
    ensures { InPlace }
{}

/// A call is a run of its body in place, in a scope of its own.
pub fn calls_go_in_place()
    ensures { CallInPlace }
{}

/// Where a run gives something, a run with a window in the place of a name gives the same.
pub fn windows_stand_for_names()
    ensures { WindowLaw }
{}

/// A procedure with a view removed is a refinement.
pub fn inline_window_refines()
    ensures { InlineWindowRefines }
{}

/// A block on a staged buffer that is copied back does what it does on the window.
pub fn staged_blocks_do_the_same()
    ensures { StagedLaw }
{}

/// A procedure with a call inlined is a refinement.
pub fn inline_refines()
    ensures { InlineRefines }
{}

/// A procedure with a call in the place of an inlined body is a refinement.
pub fn replace_refines()
    ensures { ReplaceRefines }
{}

/// A run goes the same where more can be called.
pub fn wider_worlds_do_the_same()
    ensures { WiderLaw }
{}

/// Where the test on the windows of a call holds, none that is written meets another one.
pub fn passed_windows_are_apart()
    ensures { PassedLaw }
{}

/// A callee's body runs in the world of what stands above it.
pub fn callees_stand_above()
    ensures { AboveLaw }
{}

/// Blocks whose statements do the same wherever a run comes to them run the same.
pub fn same_along_runs_the_same()
    ensures { AlongLaw }
{}

/// A control expression without fields may stand for a variable, where the block binds no name whose
/// stride stands in it, nor such a name's buffer.
pub fn steady_expressions_stand_for_variables()
    ensures { SteadySubstitutionLaw }
{}

/// A condition without fields may stand for a flag, likewise.
pub fn steady_conditions_stand_for_flags()
    ensures { SteadyFlagLaw }
{}
