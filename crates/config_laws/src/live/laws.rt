// Laws of fields that are not live.

ghost use Rattle.config_laws.specs.Live.LiveFits.{LiveFits};
ghost use Rattle.config_laws.specs.Live.CallFits.{CallFits};
ghost use Rattle.config_laws.specs.Live.CallVersion.{CalleesAreMade};
ghost use Rattle.config_laws.specs.Live.CallVersion.{CallVersionLaw};

/// A block may be replaced by one that leaves other numbers in fields that are not live behind
/// it, where all fields are of their kinds.
pub fn replaced_where_fields_fit()
    ensures { LiveFits }
{}

/// A procedure may be called in place of one that is refined by it but for fields that are not
/// live behind the call.
pub fn versions_may_be_called()
    ensures { CallFits }
{}

/// In a well-formed unit each callee runs in the whole unit as among the procedures above it.
pub fn callees_are_made()
    ensures { CalleesAreMade }
{}

/// A procedure is refined by one that calls a version of its callee, but for fields that are
/// not live.
pub fn calls_of_versions_refine()
    ensures { CallVersionLaw }
{}
