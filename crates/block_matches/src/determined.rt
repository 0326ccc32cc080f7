//! What is given for each parameter, as far as it is known.
ghost use Rattle.std.specs.Prelude.{◌≡◌, None, map, option_map, IfOk, OnOk};
ghost use Rattle.exo_tree.specs.Passed.{passed_for};
ghost use Rattle.exo_tree.specs.PlainArgument.{argument};
ghost use Rattle.exo_tree.specs.PlainParam.{parameter};
ghost use Rattle.exo_tree.specs.PlainProcedure.{procedure};
ghost use Rattle.inplace_laws.specs.Inline.{is_param};
ghost use Rattle.match_laws.specs.Matched as plain;
ghost use Rattle.match_laws.specs.Matched.{argument_if, argument_in, first_undetermined};
ghost use Rattle.block_matches.specs.Pairs.PlainPair.{plain_pair};
ghost use Rattle.block_matches.specs.Held.{determined_in};
ghost use Rattle.block_matches.specs.Noted.{earlier, entry, given_by, is_open};
ghost use Rattle.block_matches.specs.PlainGiven.{plain_given};

use crate::given::{Given, known_by};
use crate::pairs::Pair;
use crate::uses::uses_of;
use exo_tree::{Arg, Args, Id, Param, ParamKind, Proc};
use indexmap::IndexMap;
use std::alloc::{AllocError, Global};

/// What is given for each parameter that is known.
pub(crate) struct Determined<'a> {
    pub(crate) table: IndexMap<u32, Given<'a>>,
}

impl Drop for Determined<'_> {
    fn drop(self) {
        let Self { table: _ } = self;
    }
}

impl<'a> Determined<'a> {
    /// What the first place of each control parameter determines.
    pub(crate) fn of_pairs(
        alloc: Global,
        callee: &Proc,
        pairs: &[Pair<'a>],
    ) -> Result<Determined<'a>, AllocError>
        ensures { IfOk result (λ t. determined_in t
            ≡ argument_in (is_param (procedure callee.now)) (map plain_pair pairs.now)) }
    {
        let mut found = Determined::new(alloc);
        for pair in pairs {
            found.note(callee, pair)?;
        }
        Ok(found)
    }

    /// The arguments, for parameters in order.
    pub(crate) fn of_arguments(
        alloc: Global,
        callee: &Proc,
        args: &'a Args,
    ) -> Result<Determined<'a>, AllocError>
        ensures { IfOk result
            (λ t. determined_in t ≡ passed_for (procedure callee.now).params args.now) }
    {
        let mut found = Determined::new(alloc);
        found.note_arguments(callee.params.as_slice(), args.as_slice())?;
        Ok(found)
    }

    pub(crate) fn get(&self, x: Id) -> Option<Given<'a>>
        ensures { option_map plain_given result ≡ determined_in self.now x.0 }
    {
        self.table.get(&x.0).copied()
    }

    fn new(alloc: Global) -> Determined<'a>
        ensures { determined_in result ≡ (λ x. None) }
    {
        Determined {
            table: IndexMap::new(alloc),
        }
    }

    /// What is given for a parameter, where nothing is.
    #[tactic(auto, using(crate::proofs::Tables::stays, crate::proofs::Tables::is_put))]
    fn insert(&mut self, x: Id, a: Given<'a>) -> Result<(), AllocError>
        ensures { OnOk result (determined_in self.new
            ≡ earlier (determined_in self.old) (entry x.0 (plain_given a.entry))) }
    {
        if self.table.get(&x.0).is_none() {
            self.table.insert(x.0, a)?;
        }
        Ok(())
    }

    #[tactic(auto, using(crate::proofs::Tables::nothing_more))]
    fn note(&mut self, callee: &Proc, pair: &Pair<'a>) -> Result<(), AllocError>
        ensures { OnOk result (determined_in self.new ≡ earlier (determined_in self.old)
            (λ x. argument_if x
            (plain.known_by (is_param (procedure callee.now)) (plain_pair pair.now)))) }
    {
        match known_by(callee, pair) {
            None => Ok(()),
            Some(known) => self.insert(known.param, known.argument),
        }
    }

    #[tactic(auto, using(crate::proofs::Tables::nothing_more))]
    fn note_arguments(&mut self, params: &[Param], args: &'a [Arg]) -> Result<(), AllocError>
        ensures { OnOk result (determined_in self.new ≡ earlier (determined_in self.old)
            (given_by (map parameter params.now) (map argument args.now))) }
    {
        match (params.split_first(), args.split_first()) {
            (Some((p, params)), Some((a, args))) => {
                self.insert(p.binder.id, Given::of(a))?;
                self.note_arguments(params, args)
            }
            _ => Ok(()),
        }
    }
}

/// Whether nothing tells a parameter: what is given for it where it is a number or a bool, and else
/// an access.
fn is_open(
    alloc: Global,
    known: &Determined<'_>,
    own: &[Pair<'_>],
    p: &Param,
) -> Result<bool, AllocError>
    ensures { IfOk result (λ t. t
        ≡ is_open (determined_in known.now) (map plain_pair own.now) (parameter p.now)) }
{
    match p.kind {
        ParamKind::Ctrl(_) => Ok(known.get(p.binder.id).is_none()),
        ParamKind::Tensor(_, _, _) | ParamKind::Window(_, _, _) => {
            Ok(uses_of(alloc, p.binder.id, own)?.is_empty())
        }
    }
}

/// The first parameter that no place of the callee's body determines.
pub(crate) fn first_undetermined(
    alloc: Global,
    callee: &Proc,
    own: &[Pair<'_>],
) -> Result<Option<Id>, AllocError>
    ensures { IfOk result (λ o. option_map (λ (x : Id). x.0) o
        ≡ first_undetermined (is_param (procedure callee.now)) (map plain_pair own.now)
        (procedure callee.now).params) }
{
    let known = Determined::of_pairs(alloc, callee, own)?;
    for p in callee.params.as_slice() {
        if is_open(alloc, &known, own, p)? {
            return Ok(Some(p.binder.id));
        }
    }
    Ok(None)
}
