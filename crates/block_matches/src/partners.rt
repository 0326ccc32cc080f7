//! Binders that correspond.
ghost use Rattle.std.specs.Prelude.{◌≡◌, None, map, option_map, IfOk, OnOk};
ghost use Rattle.match_laws.specs.Matched.{partner, partner_if};
ghost use Rattle.block_matches.specs.Pairs.PlainPair.{plain_pair};
ghost use Rattle.block_matches.specs.Held.{partners_in};
ghost use Rattle.block_matches.specs.Noted.{earlier, entry};

use crate::pairs::Pair;
use exo_tree::Id;
use indexmap::IndexMap;
use std::alloc::{AllocError, Global};

/// The block's binder that corresponds to each of the callee's.
pub(crate) struct Partners {
    pub(crate) table: IndexMap<u32, u32>,
}

impl Drop for Partners {
    fn drop(self) {
        let Self { table: _ } = self;
    }
}

impl Partners {
    /// By the first pair of binders.
    pub(crate) fn of(alloc: Global, pairs: &[Pair<'_>]) -> Result<Partners, AllocError>
        ensures { IfOk result (λ t. partners_in t ≡ partner (map plain_pair pairs.now)) }
    {
        let mut found = Partners::new(alloc);
        for pair in pairs {
            found.note(pair)?;
        }
        Ok(found)
    }

    pub(crate) fn get(&self, x: Id) -> Option<Id>
        ensures { option_map (λ (y : Id). y.0) result ≡ partners_in self.now x.0 }
    {
        match self.table.get(&x.0) {
            Some(y) => Some(Id(*y)),
            None => None,
        }
    }

    fn new(alloc: Global) -> Partners
        ensures { partners_in result ≡ (λ x. None) }
    {
        Partners {
            table: IndexMap::new(alloc),
        }
    }

    /// A partner, where the binder has none.
    #[tactic(auto, using(crate::proofs::Tables::stays, crate::proofs::Tables::is_put))]
    fn insert(&mut self, x: Id, y: Id) -> Result<(), AllocError>
        ensures { OnOk result (partners_in self.new
            ≡ earlier (partners_in self.old) (entry x.0 y.0)) }
    {
        if self.table.get(&x.0).is_none() {
            self.table.insert(x.0, y.0)?;
        }
        Ok(())
    }

    #[tactic(auto, using(crate::proofs::Tables::nothing_more))]
    fn note(&mut self, pair: &Pair<'_>) -> Result<(), AllocError>
        ensures { OnOk result (partners_in self.new
            ≡ earlier (partners_in self.old) (λ x. partner_if x (plain_pair pair.now))) }
    {
        match pair {
            Pair::Binders(x, y) => self.insert(*x, *y),
            _ => Ok(()),
        }
    }
}
