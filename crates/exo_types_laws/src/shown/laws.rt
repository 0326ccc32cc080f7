//! What the shown text of a procedure is read as, each law the contract of a function with nothing to do.

ghost use Rattle.exo_types_laws.specs.Shown.Laws.{ControlsAreSpelled, ConditionsAreSpelled};
ghost use Rattle.exo_types_laws.specs.Shown.Laws.{DataAreSpelled, ProceduresAreSpelled};
ghost use Rattle.exo_types_laws.specs.Shown.Laws.{WrittenFits};
ghost use Rattle.exo_types_laws.specs.Shown.Laws.{ShownIsRead};
ghost use Rattle.exo_types_laws.specs.Shown.Again.{ShownIsTheSame};
ghost use Rattle.exo_types_laws.specs.Shown.Below.{ShownIsReadBelow, ShownStandsAgain};
ghost use Rattle.exo_types_laws.specs.Shown.Instance.{NamesInstance, VersionsInstance};
ghost use Rattle.exo_types_laws.specs.Shown.Naming.{ReadUnitsAreNamed, NamedUnitsAreWritable};

/// The text of an expression over control values has the tokens of its source tree.
pub fn controls_are_spelled()
    ensures { ControlsAreSpelled }
{}

/// So has the text of a condition.
pub fn conditions_are_spelled()
    ensures { ConditionsAreSpelled }
{}

/// So has the text of an expression over cells.
pub fn data_are_spelled()
    ensures { DataAreSpelled }
{}

/// So has the text of a whole procedure, to its last line.
pub fn procedures_are_spelled()
    ensures { ProceduresAreSpelled }
{}

/// The source tree of a procedure within the limits of the grammar is of the grammar.
pub fn written_fits()
    ensures { WrittenFits }
{}

/// So a procedure within the limits of the grammar is read as its source tree.
pub fn shown_is_read()
    ensures { ShownIsRead }
{}

/// And below items that hold what it names, this source tree keeps all rules and stands for the procedure itself, but for the ids of
/// its binders.
pub fn shown_is_the_same()
    ensures { ShownIsTheSame }
{}

/// Behind the text of other items, a procedure within the limits is read as its source tree.
pub fn shown_is_read_below()
    ensures { ShownIsReadBelow }
{}

/// And where these items hold what it names, the whole text keeps all rules and stands for what they stand for, and behind that for
/// the procedure itself, but for the ids of its binders.
pub fn shown_stands_again()
    ensures { ShownStandsAgain }
{}

/// What a text is read as has names of the grammar alone.
pub fn read_units_are_named()
    ensures { ReadUnitsAreNamed }
{}

/// Each procedure of a well-formed unit with such names can be written down.
pub fn named_units_are_writable()
    ensures { NamedUnitsAreWritable }
{}

/// A closed unit with such names, of which a procedure calls another.
pub fn names_instance()
    ensures { NamesInstance }
{
    named_units_are_writable();
}

/// A version that calls a version, shown below a text that has no more than its callee.
pub fn versions_instance()
    ensures { VersionsInstance }
{
    shown_is_the_same();
    named_units_are_writable();
}
