// Laws of configuration writes, each the contract of a function with nothing to do.

ghost use Rattle.config_laws.specs.Beside.{LiveBeside};
ghost use Rattle.config_laws.specs.Exits.{BlocksGoByExit};
ghost use Rattle.config_laws.specs.Exits.{HolesGoByExit};
ghost use Rattle.config_laws.specs.Exits.{UnitsGoByExit};
ghost use Rattle.config_laws.specs.AtEnd.{OthersLiveAtEnd};
ghost use Rattle.config_laws.specs.AtEnd.{ListedStayDead};
ghost use Rattle.config_laws.specs.Local.{WritesMayBePutIn};
ghost use Rattle.config_laws.specs.Local.{WritesMayBeLeftOut};
ghost use Rattle.config_laws.specs.Local.{ArgumentsMayBeBound};
ghost use Rattle.config_laws.specs.Holes.{WrittenRefines};
ghost use Rattle.config_laws.specs.Holes.{LeftOutRefines};
ghost use Rattle.config_laws.specs.Holes.{BoundRefines};
ghost use Rattle.config_laws.specs.Holes.{VersionRefines};
ghost use Rattle.config_laws.specs.Differing.{DescendantsRefine};
ghost use Rattle.config_laws.specs.Differing.{DescendantsMayBeCalled};
ghost use Rattle.config_laws.specs.Grown.{SurelyGrown};
ghost use Rattle.config_laws.specs.Grown.{SurelyBehindGrown};
ghost use Rattle.config_laws.specs.Grown.{StepFieldsGrown};
ghost use Rattle.config_laws.specs.Keeps.{WriteConfigRefines};
ghost use Rattle.config_laws.specs.Keeps.{DeleteConfigRefines};
ghost use Rattle.config_laws.specs.Keeps.{BindConfigRefines};
ghost use Rattle.config_laws.specs.Keeps.{CallEqvRefines};

/// A field that is live at the end is live before a block where it is read there before it is
/// written, or not surely written.
pub fn blocks_go_by_exit()
    ensures { BlocksGoByExit }
{}

/// So it is behind a hole.
pub fn holes_go_by_exit()
    ensures { HolesGoByExit }
{}

/// So it is before a call, in each unit.
pub fn units_go_by_exit()
    ensures { UnitsGoByExit }
{}

/// Only listed fields that are not written again may differ at the end.
pub fn others_live_at_end()
    ensures { OthersLiveAtEnd }
{}

/// A listed field that is not live behind a hole is not live there where the others are live at
/// the end.
pub fn listed_stay_dead()
    ensures { ListedStayDead }
{}

/// At each state a write of a field that is not live behind it may be put in.
pub fn writes_may_be_put_in()
    ensures { WritesMayBePutIn }
{}

/// At each state a write of a field that is not live behind it may be left out.
pub fn writes_may_be_left_out()
    ensures { WritesMayBeLeftOut }
{}

/// At each state an argument may be written into a field that is not live before the call.
pub fn arguments_may_be_bound()
    ensures { ArgumentsMayBeBound }
{}

/// A configuration write may be put in where its field is not live, but for that field.
pub fn written_refines()
    ensures { WrittenRefines }
{}

/// A configuration write may be left out where its field is not live behind it, but for that
/// field.
pub fn left_out_refines()
    ensures { LeftOutRefines }
{}

/// An argument may be written into a field that is not live before the call, but for that field.
pub fn bound_refines()
    ensures { BoundRefines }
{}

/// A version may be called in place of a procedure where no field that differs after it is live
/// behind the call.
pub fn version_refines()
    ensures { VersionRefines }
{}

/// A procedure is refined by each of its descendants but for the fields of the steps between.
pub fn descendants_refine()
    ensures { DescendantsRefine }
{}

/// So a descendant takes what the procedure takes and writes no more of it.
pub fn descendants_may_be_called()
    ensures { DescendantsMayBeCalled }
{}

/// What a block surely writes stays the same as the unit grows.
pub fn surely_grown()
    ensures { SurelyGrown }
{}

/// So does what is surely written behind a hole.
pub fn surely_behind_grown()
    ensures { SurelyBehindGrown }
{}

/// So do the fields of a step.
pub fn step_fields_grown()
    ensures { StepFieldsGrown }
{}

/// `write_config` keeps the meaning but for the field, where that is not written again.
pub fn write_config_refines()
    ensures { WriteConfigRefines }
{}

/// `delete_config` keeps the meaning but for the field, where that is not written again.
pub fn delete_config_refines()
    ensures { DeleteConfigRefines }
{}

/// `bind_config` keeps the meaning but for the field, where that is not written again.
pub fn bind_config_refines()
    ensures { BindConfigRefines }
{}

/// `call_eqv` keeps the meaning but for the fields in which the version differs from the callee,
/// those that are written again left out.
pub fn call_eqv_refines()
    ensures { CallEqvRefines }
{}

/// What is live beside statements is live in the gap there.
pub fn fields_are_live_in_gaps()
    ensures { LiveBeside }
{}
