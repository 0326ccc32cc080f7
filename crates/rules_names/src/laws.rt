//! What breaks no rule keeps, as a tree, the rules of a well-formed unit. Each law is the contract of a function with nothing to do.
ghost use Rattle.rules_names.specs.Laws.{ControlsKeepRules, ListsKeepRules, ConditionsKeepRules};
ghost use Rattle.rules_names.specs.Laws.{DataKeepRules, WindowsKeepRules, ScopesKeepIds};

/// A control value.
pub fn controls_keep_rules()
    ensures { ControlsKeepRules }
{}

/// Indices, dimensions.
pub fn lists_keep_rules()
    ensures { ListsKeepRules }
{}

/// A condition.
pub fn conditions_keep_rules()
    ensures { ConditionsKeepRules }
{}

/// A value of cells.
pub fn data_keep_rules()
    ensures { DataKeepRules }
{}

/// A window.
pub fn windows_keep_rules()
    ensures { WindowsKeepRules }
{}

/// A scope with a new name.
pub fn scopes_keep_ids()
    ensures { ScopesKeepIds }
{}
