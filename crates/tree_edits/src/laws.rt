//! A law of counts, the contract of a function that does nothing.
ghost use Rattle.tree_edits.specs.Laws.{EntriesOfAWay};

/// The blocks on the way to a statement in the second of three loops of a hundred statements have
/// 103 entries; so where two statements take its place, 104 entries are counted, of at most 105.
#[tactic(auto, using(crate::proofs::Examples::entries_of_a_way))]
pub fn entries_of_a_way()
    ensures { EntriesOfAWay }
{}
