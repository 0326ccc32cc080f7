//! A callee's body and a block, walked together in preorder.
ghost use Rattle.std.specs.Prelude.{◌≡◌, map, IfOk};
ghost use Rattle.exo_tree.specs.Tree.{block};
ghost use Rattle.exo_tree.specs.PlainProcedure.{procedure};
ghost use Rattle.inplace_laws.specs.Inline.{is_param};
ghost use Rattle.match_laws.specs.Pairs.{paired};
ghost use Rattle.block_matches.specs.Pairs.Held.{ids_in, names_in};
ghost use Rattle.block_matches.specs.Pairs.PlainPair.{plain_pair};

use crate::pairs::ids::IdSet;
use crate::pairs::names::NameTable;
use crate::pairs::pair::Pair;
use exo_tree::{Block, Branch, Path, Proc};
use std::alloc::{AllocError, Global};

/// A callee whose body is walked against a block: the names of its parameters and of its body,
/// those that the block binds, and the names of the block's procedure.
#[derive(Clone, Copy)]
pub struct PairWalk<'a> {
    pub callee: &'a Proc,
    pub bound: &'a IdSet,
    pub ours: &'a NameTable,
    pub theirs: &'a NameTable,
}

impl PairWalk<'_> {
    /// The pairs of the callee's body and a block.
    pub fn pairs<'b>(
        &self,
        alloc: Global,
        body: &'b Block,
        against: &'b Block,
    ) -> Result<Vec<Pair<'b>>, AllocError>
        ensures { IfOk result (λ v. map plain_pair v.items
            ≡ paired (is_param (procedure self.now.callee.now)) (ids_in self.now.bound.now)
            (names_in self.now.ours.now) (names_in self.now.theirs.now) (block body.now)
            (block against.now)) }
    {
        let mut out = Vec::new(alloc);
        self.push_block(alloc, &mut out, &Path::new(), Branch::Main, body, against)?;
        Ok(out)
    }
}
