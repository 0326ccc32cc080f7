// That each rule on configuration writes keeps the meaning and carries statements, each law the
// contract of a function with nothing to do.

ghost use Rattle.std.specs.Prelude.{ℕ, List};
ghost use Rattle.exo_tree.specs.Tree.{Argument};
ghost use Rattle.config_laws.specs.FieldRule.{Side};
ghost use Rattle.step_rules.specs.Lawful.{IsLawful, IsCarrying};
ghost use Rattle.call_laws.specs.Fields.FieldRules.{BodyIsExact, FieldDraftsStand};
ghost use Rattle.call_laws.specs.Fields.FieldRules.{FieldRulesAreLawful};
ghost use Rattle.call_laws.specs.Fields.FieldRules.{FieldsAreThere};
ghost use Rattle.call_laws.specs.Fields.FieldRules.{write_rule, delete_rule, bind_rule};
ghost use Rattle.call_laws.specs.Fields.FieldRules.{version_rule};

// ---- any rule

/// A draft without binders stands in the body as it is.
pub fn bodies_are_exact()
    ensures { BodyIsExact }
{}

/// What a rule on configuration writes drafts may stand for the piece.
pub fn field_drafts_stand()
    ensures { FieldDraftsStand }
{}

/// So such a rule is lawful.
pub fn field_rules_are_lawful()
    ensures { FieldRulesAreLawful }
{}

/// It tells fields of the unit alone.
pub fn told_fields_are_there()
    ensures { FieldsAreThere }
{}

// ---- rules

/// A configuration write may be put into a gap.
pub fn writes_are_lawful()
    ensures { (side : Side) (f : ℕ) (e : Argument) → IsLawful (write_rule side f e) }
{}

/// There is no statement to be carried.
pub fn writes_carry()
    ensures { (side : Side) (f : ℕ) (e : Argument) → IsCarrying (write_rule side f e) }
{}

/// A configuration write may be left out.
pub fn deletions_are_lawful()
    ensures { IsLawful delete_rule }
{}

/// No statement is where it was.
pub fn deletions_carry()
    ensures { IsCarrying delete_rule }
{}

/// A control argument may be written into a field before the call.
pub fn bindings_are_lawful()
    ensures { (name : List ℕ) (f : ℕ) → IsLawful (bind_rule name f) }
{}

/// The call goes behind the write.
pub fn bindings_carry()
    ensures { (name : List ℕ) (f : ℕ) → IsCarrying (bind_rule name f) }
{}

/// A version may be called in the place of what it was made from.
pub fn versions_are_lawful()
    ensures { (j : ℕ) → IsLawful (version_rule j) }
{}

/// The call stays.
pub fn versions_carry()
    ensures { (j : ℕ) → IsCarrying (version_rule j) }
{}
