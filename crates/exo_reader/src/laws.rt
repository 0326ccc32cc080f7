//! What is true of all texts, each law the contract of a function with nothing to do.
ghost use Rattle.text_expressions.specs.Expression.{control};
ghost use Rattle.exo_reader.specs.Instance.{TextInstance};
ghost use Rattle.exo_reader.specs.Items.{unit};
ghost use Rattle.exo_reader.specs.Strings.{window};
ghost use Rattle.exo_reader.specs.Texts.{TextsAreOne};

/// The tokens of a text are one unit, or are refused at one token for one cause.
pub fn texts_are_one()
    ensures { TextsAreOne unit }
{}

/// The tokens of a string are one expression, or are refused at one token for one cause.
pub fn expressions_are_one()
    ensures { TextsAreOne control }
{}

/// The tokens of a string are one window, or are refused at one token for one cause.
pub fn windows_are_one()
    ensures { TextsAreOne window }
{}

/// A text of each kind, and one that is none of it.
pub fn text_instance()
    ensures { TextInstance }
{}
