// What names of copies keep, each law the contract of a function with nothing to do.

ghost use Rattle.tree_laws.specs.Made.Laws.{NamesAlone, IdsStay, NamedCopiesRunAlike};

/// Names for copies change nothing but the names of binders.
pub fn names_of_copies_are_names_alone()
    ensures { NamesAlone }
{}

/// The ids of binders stay as they are.
pub fn names_of_copies_keep_ids()
    ensures { IdsStay }
{}

/// A run does not see names of copies.
pub fn names_of_copies_are_not_seen()
    ensures { NamedCopiesRunAlike }
{}
