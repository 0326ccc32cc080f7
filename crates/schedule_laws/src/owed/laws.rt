// Laws of what versions owe, each the contract of a function with nothing to do.
ghost use Rattle.schedule_laws.specs.Owed.Names.{OwnNamesStay};
ghost use Rattle.schedule_laws.specs.Owed.Renamed.{RenamedOwesTheSame};
ghost use Rattle.schedule_laws.specs.Owed.Stores.{ChangedStoresOweTheirOwn};

/// A procedure of a unit keeps the names of its binders where copies have the ids behind its own.
pub fn own_names_stay()
    ensures { OwnNamesStay }
{
    tree_laws::findings::laws::procedures_keep_rules();
}

/// A procedure of a unit under another name, behind the others, owes what it owes there, and is
/// refused as there.
pub fn renamed_versions_owe_the_same()
    ensures { RenamedOwesTheSame }
{
    meaning_laws::laws::opened_blocks_are_there();
    meaning_laws::laws::well_formed_calls_are_below();
    tree_laws::findings::laws::procedures_keep_rules();
}

/// A version behind the procedures of a unit that has another store at a path than one of them, and
/// perhaps another name, owes what that one owes elsewhere, and there what its own store has to
/// show.
pub fn changed_stores_owe_their_own()
    ensures { ChangedStoresOweTheirOwn }
{
    meaning_laws::laws::opened_blocks_are_there();
    meaning_laws::laws::well_formed_calls_are_below();
    tree_laws::findings::laws::procedures_keep_rules();
}
