// Laws of names, each the contract of a function with nothing to do.

ghost use Rattle.call_laws.specs.Calls.Names.Copies.{NoCopies, BodiesWithoutCopies};
ghost use Rattle.call_laws.specs.Calls.Names.Renamings.{InjectionsExtend, ListsExtend};
ghost use Rattle.call_laws.specs.Calls.Names.Scopes.{FormedMentions, FreeUnmentioned, ScopedThere};
ghost use Rattle.call_laws.specs.Calls.Names.Scopes.{BoundOrFree};
ghost use Rattle.call_laws.specs.Calls.Names.Scopes.{NotBoundAgain, BoundOnce};

/// Where there are no copies no name changes.
pub fn blocks_without_copies_keep_names()
    ensures { NoCopies }
{}

/// So it is where the named body keeps the rules.
pub fn bodies_without_copies_stay()
    ensures { BodiesWithoutCopies }
{}

/// A map that takes no two ids of a list to one is part of a renaming.
pub fn injections_extend()
    ensures { InjectionsExtend }
{}

/// A renaming takes a list of ids to any other of its length.
pub fn lists_of_ids_extend()
    ensures { ListsExtend }
{}

/// A formed block mentions what is in scope and what it binds, and no more.
pub fn formed_blocks_mention_names_in_scope()
    ensures { FormedMentions }
{}

/// A formed block mentions no free name but its own.
pub fn formed_blocks_mention_no_free_name()
    ensures { FreeUnmentioned }
{}

/// What stands at a place has its names in scope.
pub fn pieces_are_scoped()
    ensures { ScopedThere }
{}

/// A name is bound at a place or free there.
pub fn names_are_bound_or_free()
    ensures { BoundOrFree }
{}

/// What is in scope at a place is not bound again.
pub fn names_in_scope_are_not_bound_again()
    ensures { NotBoundAgain }
{}

/// What a piece binds is not bound behind it.
pub fn pieces_bind_once()
    ensures { BoundOnce }
{}
