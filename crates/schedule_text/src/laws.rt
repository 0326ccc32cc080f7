//! What is true of all schedules, each law the contract of a function with nothing to do.
ghost use Rattle.exo_reader.specs.Texts.{TextsAreOne};
ghost use Rattle.schedule_text.specs.Grammar.{schedule};

/// The tokens of a text are one schedule, or are refused at one token for one cause.
pub fn schedules_are_one()
    ensures { TextsAreOne schedule }
{}
