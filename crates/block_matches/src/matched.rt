//! The match of a block with a callee's body.
ghost use Rattle.std.specs.Prelude.{◌≡◌, ◌&&◌, false, map, option_map, None, Ok, IfOk};
ghost use Rattle.exo_tree.specs.Tree.{block};
ghost use Rattle.exo_tree.specs.Passed.{passed_for};
ghost use Rattle.exo_tree.specs.PlainProcedure.{procedure};
ghost use Rattle.meaning_laws.specs.Scoped.{has_binder, is_param};
ghost use Rattle.match_laws.specs.Names.{names_of};
ghost use Rattle.match_laws.specs.Pairs.{paired};
ghost use Rattle.match_laws.specs.Matched as plain;
ghost use Rattle.match_laws.specs.Widths.{arguments_are_short, match_is_short};
ghost use Rattle.match_laws.specs.Widths.{strides_are_short, walk_is_short};
ghost use Rattle.block_matches.specs.Pairs.Held.{ids_in, names_in};
ghost use Rattle.block_matches.specs.Pairs.PlainPair.{plain_pair};
ghost use Rattle.block_matches.specs.Held.{partners_in, determined_in};
ghost use Rattle.block_matches.specs.PlainMatched.{plain_matched};
ghost use Rattle.block_matches.specs.Walks.{IsWalk};
ghost use Rattle.tree_uses.specs.Outcomes.{ComesIf};

use crate::chosen::Choosing;
use crate::comparing::first_difference;
use crate::determined::{Determined, first_undetermined};
use crate::moving::Moving;
use crate::pairs::{IdSet, NameTable, Pair, PairWalk};
use crate::partners::Partners;
use crate::walked::walked;
use affine_forms::{FormError, Reader};
use exo_tree::{Args, Block, Id, Path, Proc};
use std::alloc::{AllocError, Global};

/// What a match says.
#[derive(Drop)]
pub enum Matched {
    Arguments(Args),
    /// The first statement of the callee's body that differs.
    NoMatch(Path),
    /// The first parameter that no place determines.
    Undetermined(Id),
}

/// The first parameter that no place of the callee's body determines.
fn undetermined(alloc: Global, ours: &NameTable, callee: &Proc) -> Result<Option<Id>, AllocError>
    requires { names_in ours.now ≡ names_of (procedure callee.now) }
    ensures { IfOk result (λ o. option_map (λ (x : Id). x.0) o
        ≡ plain.first_undetermined (is_param (procedure callee.now))
        (paired (is_param (procedure callee.now)) (λ x. false) (names_of (procedure callee.now))
        (names_of (procedure callee.now)) (block callee.now.body) (block callee.now.body))
        (procedure callee.now).params) }
{
    let bound = IdSet::new(alloc);
    let walk = PairWalk {
        callee,
        bound: &bound,
        ours,
        theirs: ours,
    };
    let own = walk.pairs(alloc, &callee.body, &callee.body)?;
    first_undetermined(alloc, callee, &own)
}

impl<R: Reader> Choosing<'_, R> {
    /// The first pair that differs by what is given for parameters.
    fn difference_at(
        &self,
        alloc: Global,
        given: &Determined<'_>,
    ) -> Result<Option<Path>, FormError>
        ensures value { IfOk result (λ o. o
            ≡ plain.first_difference (R.reading self.now.reader.now)
            (plain.moving (is_param (procedure self.now.by.callee.now))
            (partners_in self.now.by.to.now) (determined_in given.now))
            (map plain_pair self.now.walk.now)) }
        ensures fits { ComesIf result
            (walk_is_short (R.reading self.now.reader.now)
            (plain.moving (is_param (procedure self.now.by.callee.now))
            (partners_in self.now.by.to.now) (determined_in given.now))
            (map plain_pair self.now.walk.now)) }
    {
        let moving = Moving {
            callee: self.by.callee,
            to: self.by.to,
            given,
        };
        first_difference(alloc, self.reader, &moving, self.walk)
    }

    /// The first pair that differs by the arguments, which tell the strides of parameters.
    fn difference_by(&self, alloc: Global, args: &Args) -> Result<Option<Path>, FormError>
        requires { IsWalk (R.reading self.now.reader.now) (names_in self.now.theirs.now)
            (block self.now.against.now) (procedure self.now.by.callee.now)
            (ids_in self.now.bound.now) (partners_in self.now.by.to.now)
            (determined_in self.now.by.given.now) (map plain_pair self.now.walk.now) }
        ensures value { IfOk result (λ o. o
            ≡ plain.first_difference (R.reading self.now.reader.now)
            (plain.moving (plain.params (R.reading self.now.reader.now)
            (names_in self.now.theirs.now)
            (block self.now.against.now) (procedure self.now.by.callee.now)) (plain.to
            (R.reading self.now.reader.now) (names_in self.now.theirs.now)
            (block self.now.against.now) (procedure self.now.by.callee.now))
            (passed_for (procedure self.now.by.callee.now).params args.now))
            (plain.walk (R.reading self.now.reader.now) (names_in self.now.theirs.now)
            (block self.now.against.now) (procedure self.now.by.callee.now))) }
        ensures fits { ComesIf result
            (walk_is_short (R.reading self.now.reader.now)
            (plain.moving (plain.params (R.reading self.now.reader.now)
            (names_in self.now.theirs.now)
            (block self.now.against.now) (procedure self.now.by.callee.now)) (plain.to
            (R.reading self.now.reader.now) (names_in self.now.theirs.now)
            (block self.now.against.now) (procedure self.now.by.callee.now))
            (passed_for (procedure self.now.by.callee.now).params args.now))
            (plain.walk (R.reading self.now.reader.now) (names_in self.now.theirs.now)
            (block self.now.against.now) (procedure self.now.by.callee.now))) }
    {
        let given = Determined::of_arguments(alloc, self.by.callee, args)?;
        self.difference_at(alloc, &given)
    }

    /// The match by its arguments.
    #[tactic(auto, using(crate::proofs::MatchedBy::strides_same, crate::proofs::MatchedBy::strides_differ))]
    fn with_strides(&self, alloc: Global, args: Args) -> Result<Matched, FormError>
        requires { IsWalk (R.reading self.now.reader.now) (names_in self.now.theirs.now)
            (block self.now.against.now) (procedure self.now.by.callee.now)
            (ids_in self.now.bound.now) (partners_in self.now.by.to.now)
            (determined_in self.now.by.given.now) (map plain_pair self.now.walk.now) }
        ensures value { IfOk result (λ m. plain_matched m
            ≡ plain.with_strides (R.reading self.now.reader.now) (names_in self.now.theirs.now)
            (block self.now.against.now) (procedure self.now.by.callee.now) (Ok args)) }
        ensures fits { ComesIf result
            (strides_are_short (R.reading self.now.reader.now) (names_in self.now.theirs.now)
            (block self.now.against.now) (procedure self.now.by.callee.now) (Ok args)) }
    {
        let difference = self.difference_by(alloc, &args)?;
        match difference {
            None => Ok(Matched::Arguments(args)),
            Some(path) => Ok(Matched::NoMatch(path)),
        }
    }

    /// The match where nothing differs by what the walk determines.
    fn with_arguments(&self, alloc: Global) -> Result<Matched, FormError>
        requires { IsWalk (R.reading self.now.reader.now) (names_in self.now.theirs.now)
            (block self.now.against.now) (procedure self.now.by.callee.now)
            (ids_in self.now.bound.now) (partners_in self.now.by.to.now)
            (determined_in self.now.by.given.now) (map plain_pair self.now.walk.now) }
        ensures value { IfOk result (λ m. plain_matched m
            ≡ plain.with_strides (R.reading self.now.reader.now) (names_in self.now.theirs.now)
            (block self.now.against.now) (procedure self.now.by.callee.now)
            (plain.arguments_for (R.reading self.now.reader.now) (names_in self.now.theirs.now)
            (block self.now.against.now) (procedure self.now.by.callee.now)
            (procedure self.now.by.callee.now).params)) }
        ensures fits { ComesIf result
            (arguments_are_short (R.reading self.now.reader.now) (names_in self.now.theirs.now)
            (block self.now.against.now) (procedure self.now.by.callee.now)
            (procedure self.now.by.callee.now).params
            && strides_are_short (R.reading self.now.reader.now) (names_in self.now.theirs.now)
            (block self.now.against.now) (procedure self.now.by.callee.now)
            (plain.arguments_for (R.reading self.now.reader.now) (names_in self.now.theirs.now)
            (block self.now.against.now) (procedure self.now.by.callee.now)
            (procedure self.now.by.callee.now).params)) }
    {
        let found = self.arguments(alloc)?;
        match found {
            Ok(args) => self.with_strides(alloc, args),
            Err(path) => Ok(Matched::NoMatch(path)),
        }
    }

    /// The match where each parameter is determined.
    fn matched(&self, alloc: Global) -> Result<Matched, FormError>
        requires walk { IsWalk (R.reading self.now.reader.now) (names_in self.now.theirs.now)
            (block self.now.against.now) (procedure self.now.by.callee.now)
            (ids_in self.now.bound.now) (partners_in self.now.by.to.now)
            (determined_in self.now.by.given.now) (map plain_pair self.now.walk.now) }
        requires determined { plain.first_undetermined (is_param (procedure self.now.by.callee.now))
            (paired (is_param (procedure self.now.by.callee.now)) (λ x. false)
            (names_of (procedure self.now.by.callee.now))
            (names_of (procedure self.now.by.callee.now))
            (procedure self.now.by.callee.now).body (procedure self.now.by.callee.now).body)
            (procedure self.now.by.callee.now).params ≡ None }
        ensures value { IfOk result
            (λ m. plain_matched m
            ≡ plain.matched (R.reading self.now.reader.now) (names_in self.now.theirs.now)
            (block self.now.against.now) (procedure self.now.by.callee.now)) }
        ensures fits { ComesIf result
            (match_is_short (R.reading self.now.reader.now) (names_in self.now.theirs.now)
            (block self.now.against.now) (procedure self.now.by.callee.now)) }
    {
        let difference = first_difference(alloc, self.reader, &self.by, self.walk)?;
        match difference {
            None => self.with_arguments(alloc),
            Some(path) => Ok(Matched::NoMatch(path)),
        }
    }
}

/// A block and a callee that are matched, with what is known of their names.
#[derive(Drop)]
struct Sides<'a, R: Reader> {
    reader: &'a R,
    theirs: &'a NameTable,
    bound: &'a IdSet,
    against: &'a Block,
    callee: &'a Proc,
}

impl<R: Reader> Sides<'_, R> {
    /// The match by what the pairs up to where the walk goes determine.
    fn matched_given(
        &self,
        alloc: Global,
        to: &Partners,
        walk: &[Pair<'_>],
        given: &Determined<'_>,
    ) -> Result<Matched, FormError>
        requires bound { ids_in self.now.bound.now ≡ has_binder (block self.now.against.now) }
        requires determined { plain.first_undetermined (is_param (procedure self.now.callee.now))
            (paired (is_param (procedure self.now.callee.now)) (λ x. false)
            (names_of (procedure self.now.callee.now)) (names_of (procedure self.now.callee.now))
            (procedure self.now.callee.now).body (procedure self.now.callee.now).body)
            (procedure self.now.callee.now).params ≡ None }
        requires to { partners_in to.now
            ≡ plain.to (R.reading self.now.reader.now) (names_in self.now.theirs.now)
            (block self.now.against.now) (procedure self.now.callee.now) }
        requires walk { map plain_pair walk.now
            ≡ plain.walk (R.reading self.now.reader.now) (names_in self.now.theirs.now)
            (block self.now.against.now) (procedure self.now.callee.now) }
        requires given { determined_in given.now
            ≡ plain.argument_in (is_param (procedure self.now.callee.now))
            (map plain_pair walk.now) }
        ensures value { IfOk result
            (λ m. plain_matched m
            ≡ plain.matched (R.reading self.now.reader.now) (names_in self.now.theirs.now)
            (block self.now.against.now) (procedure self.now.callee.now)) }
        ensures fits { ComesIf result
            (match_is_short (R.reading self.now.reader.now) (names_in self.now.theirs.now)
            (block self.now.against.now) (procedure self.now.callee.now)) }
    {
        let choosing = Choosing {
            reader: self.reader,
            theirs: self.theirs,
            bound: self.bound,
            against: self.against,
            by: Moving {
                callee: self.callee,
                to,
                given,
            },
            walk,
        };
        choosing.matched(alloc)
    }

    /// The match by the pairs up to where the walk goes, and the binders that correspond.
    fn matched_on(
        &self,
        alloc: Global,
        to: &Partners,
        walk: &[Pair<'_>],
    ) -> Result<Matched, FormError>
        requires bound { ids_in self.now.bound.now ≡ has_binder (block self.now.against.now) }
        requires determined { plain.first_undetermined (is_param (procedure self.now.callee.now))
            (paired (is_param (procedure self.now.callee.now)) (λ x. false)
            (names_of (procedure self.now.callee.now)) (names_of (procedure self.now.callee.now))
            (procedure self.now.callee.now).body (procedure self.now.callee.now).body)
            (procedure self.now.callee.now).params ≡ None }
        requires to { partners_in to.now
            ≡ plain.to (R.reading self.now.reader.now) (names_in self.now.theirs.now)
            (block self.now.against.now) (procedure self.now.callee.now) }
        requires walk { map plain_pair walk.now
            ≡ plain.walk (R.reading self.now.reader.now) (names_in self.now.theirs.now)
            (block self.now.against.now) (procedure self.now.callee.now) }
        ensures value { IfOk result
            (λ m. plain_matched m
            ≡ plain.matched (R.reading self.now.reader.now) (names_in self.now.theirs.now)
            (block self.now.against.now) (procedure self.now.callee.now)) }
        ensures fits { ComesIf result
            (match_is_short (R.reading self.now.reader.now) (names_in self.now.theirs.now)
            (block self.now.against.now) (procedure self.now.callee.now)) }
    {
        let given = Determined::of_pairs(alloc, self.callee, walk)?;
        self.matched_given(alloc, to, walk, &given)
    }

    /// The match by all pairs.
    fn matched_in(&self, alloc: Global, pairs: Vec<Pair<'_>>) -> Result<Matched, FormError>
        requires bound { ids_in self.now.bound.now ≡ has_binder (block self.now.against.now) }
        requires determined { plain.first_undetermined (is_param (procedure self.now.callee.now))
            (paired (is_param (procedure self.now.callee.now)) (λ x. false)
            (names_of (procedure self.now.callee.now)) (names_of (procedure self.now.callee.now))
            (procedure self.now.callee.now).body (procedure self.now.callee.now).body)
            (procedure self.now.callee.now).params ≡ None }
        requires pairs { map plain_pair pairs.items
            ≡ plain.all_pairs (R.reading self.now.reader.now) (names_in self.now.theirs.now)
            (block self.now.against.now) (procedure self.now.callee.now) }
        ensures value { IfOk result
            (λ m. plain_matched m
            ≡ plain.matched (R.reading self.now.reader.now) (names_in self.now.theirs.now)
            (block self.now.against.now) (procedure self.now.callee.now)) }
        ensures fits { ComesIf result
            (match_is_short (R.reading self.now.reader.now) (names_in self.now.theirs.now)
            (block self.now.against.now) (procedure self.now.callee.now)) }
    {
        let to = Partners::of(alloc, &pairs)?;
        let walk = walked(alloc, self.callee, self.bound, &to, pairs)?;
        self.matched_on(alloc, &to, &walk)
    }

    /// The match where each parameter is determined.
    fn matched(&self, alloc: Global, ours: &NameTable) -> Result<Matched, FormError>
        requires bound { ids_in self.now.bound.now ≡ has_binder (block self.now.against.now) }
        requires determined { plain.first_undetermined (is_param (procedure self.now.callee.now))
            (paired (is_param (procedure self.now.callee.now)) (λ x. false)
            (names_of (procedure self.now.callee.now)) (names_of (procedure self.now.callee.now))
            (procedure self.now.callee.now).body (procedure self.now.callee.now).body)
            (procedure self.now.callee.now).params ≡ None }
        requires ours { names_in ours.now ≡ names_of (procedure self.now.callee.now) }
        ensures value { IfOk result
            (λ m. plain_matched m
            ≡ plain.matched (R.reading self.now.reader.now) (names_in self.now.theirs.now)
            (block self.now.against.now) (procedure self.now.callee.now)) }
        ensures fits { ComesIf result
            (match_is_short (R.reading self.now.reader.now) (names_in self.now.theirs.now)
            (block self.now.against.now) (procedure self.now.callee.now)) }
    {
        let walk = PairWalk {
            callee: self.callee,
            bound: self.bound,
            ours,
            theirs: self.theirs,
        };
        let pairs = walk.pairs(alloc, &self.callee.body, self.against)?;
        self.matched_in(alloc, pairs)
    }
}

/// The match where each parameter is determined.
fn matched_by<R: Reader>(
    alloc: Global,
    reader: &R,
    ours: &NameTable,
    theirs: &NameTable,
    b: &Block,
    callee: &Proc,
) -> Result<Matched, FormError>
    requires determined { plain.first_undetermined (is_param (procedure callee.now))
        (paired (is_param (procedure callee.now)) (λ x. false)
        (names_of (procedure callee.now)) (names_of (procedure callee.now))
        (procedure callee.now).body (procedure callee.now).body)
        (procedure callee.now).params ≡ None }
    requires ours { names_in ours.now ≡ names_of (procedure callee.now) }
    ensures value { IfOk result (λ m. plain_matched m
        ≡ plain.matched (R.reading reader.now) (names_in theirs.now) (block b.now)
        (procedure callee.now)) }
    ensures fits { ComesIf result (match_is_short (R.reading reader.now) (names_in theirs.now)
        (block b.now) (procedure callee.now)) }
{
    let bound = IdSet::of_binders(alloc, b)?;
    let sides = Sides {
        reader,
        theirs,
        bound: &bound,
        against: b,
        callee,
    };
    sides.matched(alloc, ours)
}

/// A block matched with a callee's body. The reader tells what the block's expressions read, and
/// the table what is known of the names of its procedure. `WideNumber` exactly where a form that
/// the match asks for has a number past 2^62 in size.
#[tactic(auto, using(crate::proofs::MatchedBy::is_undetermined, crate::proofs::MatchedBy::short_undetermined))]
pub fn match_with<R: Reader>(
    alloc: Global,
    reader: &R,
    theirs: &NameTable,
    b: &Block,
    callee: &Proc,
) -> Result<Matched, FormError>
    ensures value { IfOk result (λ m. plain_matched m
        ≡ plain.matched (R.reading reader.now) (names_in theirs.now) (block b.now)
        (procedure callee.now)) }
    ensures fits { ComesIf result (match_is_short (R.reading reader.now) (names_in theirs.now)
        (block b.now) (procedure callee.now)) }
{
    let ours = NameTable::of(alloc, callee)?;
    let missing = undetermined(alloc, &ours, callee)?;
    match missing {
        Some(x) => Ok(Matched::Undetermined(x)),
        None => matched_by(alloc, reader, &ours, theirs, b, callee),
    }
}
