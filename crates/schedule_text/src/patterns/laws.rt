//! What is true of all texts, each law the contract of a function with nothing to do.
ghost use Rattle.schedule_text.specs.Patterns.Grammar.{statement, meant, expression, form_meant};
ghost use Rattle.schedule_text.specs.Patterns.Instance.{TextInstance};
ghost use Rattle.schedule_text.specs.Patterns.Names.{NamesAreOne};
ghost use Rattle.schedule_text.specs.Patterns.Texts.{PatternsAreOne};

/// A text is one pattern of statements with one number, or there is one error.
pub fn patterns_are_one()
    ensures { PatternsAreOne statement meant }
{}

/// A text is one pattern of expressions with one number, or there is one error.
pub fn expr_patterns_are_one()
    ensures { PatternsAreOne expression form_meant }
{}

/// A text is one name, or there is one error.
pub fn names_are_one()
    ensures { NamesAreOne }
{}

/// Texts of each kind, and some that are none.
pub fn text_instance()
    ensures { TextInstance }
{}
