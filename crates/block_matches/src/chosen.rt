//! The arguments of a callee's parameters.
ghost use Rattle.std.specs.Prelude.{◌≡◌, ◌&&◌, [], map, length, nat_lt, IfOk};
ghost use Rattle.std.specs.Result.{result_map_both};
ghost use Rattle.exo_tree.specs.PlainArgument.{argument};
ghost use Rattle.exo_tree.specs.PlainParam.{parameter};
ghost use Rattle.exo_tree.specs.PlainProcedure.{procedure};
ghost use Rattle.exo_tree.specs.Tree.{block};
ghost use Rattle.meaning_laws.specs.Scoped.{has_binder};
ghost use Rattle.match_laws.specs.Matched as plain;
ghost use Rattle.match_laws.specs.Windows as windows;
ghost use Rattle.match_laws.specs.Widths.{argument_is_short, arguments_are_short, buffer_is_short};
ghost use Rattle.block_matches.specs.Pairs.Held.{ids_in, names_in};
ghost use Rattle.block_matches.specs.Pairs.PlainPair.{plain_pair};
ghost use Rattle.block_matches.specs.Choices.{put_behind, outcome};
ghost use Rattle.block_matches.specs.Held.{partners_in, determined_in};
ghost use Rattle.block_matches.specs.PlainGiven.{plain_given};
ghost use Rattle.block_matches.specs.PlainUse.{plain_use};
ghost use Rattle.block_matches.specs.Walks.{IsWalk};
ghost use Rattle.tree_uses.specs.Outcomes.{ComesIf};

use crate::arguments::Windows;
use crate::given::Given;
use crate::moving::Moving;
use crate::pairs::{IdSet, NameTable, Pair};
use crate::uses::{Use, uses_of};
use affine_forms::{FormError, Reader};
use exo_tree::{Arg, Args, Block, Id, Indices, Param, ParamKind, Path};
use std::alloc::{AllocError, Global};

/// An argument that stands elsewhere, written out.
fn written(alloc: Global, given: Given<'_>) -> Result<Arg, AllocError>
    ensures { IfOk result (λ a. argument a ≡ plain_given given.entry) }
{
    match given {
        Given::Number(e) => Ok(Arg::Ctrl(e.duplicate(alloc)?)),
        Given::Truth(c) => Ok(Arg::Cond(c.duplicate(alloc)?)),
        Given::Whole(x) => Ok(Arg::Whole(x)),
        Given::Window(x, coords) => Ok(Arg::Window(x, coords.duplicate(alloc)?)),
    }
}

/// The path of the first use.
fn first_path(uses: &[Use<'_>]) -> Path
    ensures { result ≡ plain.first_path (map plain_use uses.now) }
{
    match uses.split_first() {
        None => Path::new(),
        Some((u, _)) => u.path.duplicate(),
    }
}

/// Whether a tensor has dimensions.
fn is_whole(tensor: bool, dims: &Indices) -> bool
    ensures { result ≡ (tensor && nat_lt 0 (length dims.now)) }
{
    tensor && dims.len() > 0
}

/// A callee's body walked with a block: what the block reads and what is known of the names of its
/// procedure, the ids that it binds, what stands for the callee's names, and the pairs up to where
/// the walk goes.
#[derive(Drop)]
pub(crate) struct Choosing<'a, R: Reader> {
    pub(crate) reader: &'a R,
    pub(crate) theirs: &'a NameTable,
    pub(crate) bound: &'a IdSet,
    pub(crate) against: &'a Block,
    pub(crate) by: Moving<'a>,
    pub(crate) walk: &'a [Pair<'a>],
}

impl<R: Reader> Choosing<'_, R> {
    /// The argument of a control parameter, or the path of the body where no place determines it.
    fn control_argument(&self, alloc: Global, x: Id) -> Result<Result<Arg, Path>, AllocError>
        requires { IsWalk (R.reading self.now.reader.now) (names_in self.now.theirs.now)
            (block self.now.against.now) (procedure self.now.by.callee.now)
            (ids_in self.now.bound.now) (partners_in self.now.by.to.now)
            (determined_in self.now.by.given.now) (map plain_pair self.now.walk.now) }
        ensures { IfOk result (λ r. result_map_both argument (λ p. p) r
            ≡ plain.or_differs [] (plain.argument_in
            (plain.params (R.reading self.now.reader.now) (names_in self.now.theirs.now)
            (block self.now.against.now) (procedure self.now.by.callee.now))
            (plain.walk (R.reading self.now.reader.now) (names_in self.now.theirs.now)
            (block self.now.against.now) (procedure self.now.by.callee.now)) x.0)) }
    {
        let known = self.by.given.get(x);
        match known {
            None => Ok(Err(Path::new())),
            Some(given) => {
                let a = written(alloc, given)?;
                Ok(Ok(a))
            }
        }
    }

    /// The argument of a buffer parameter, or the path of the first use where none fits.
    fn buffer_argument(
        &self,
        alloc: Global,
        x: Id,
        dims: &Indices,
        tensor: bool,
    ) -> Result<Result<Arg, Path>, FormError>
        requires { IsWalk (R.reading self.now.reader.now) (names_in self.now.theirs.now)
            (block self.now.against.now) (procedure self.now.by.callee.now)
            (ids_in self.now.bound.now) (partners_in self.now.by.to.now)
            (determined_in self.now.by.given.now) (map plain_pair self.now.walk.now) }
        ensures value { IfOk result (λ r. result_map_both argument (λ p. p) r
            ≡ plain.buffer_argument (R.reading self.now.reader.now) (names_in self.now.theirs.now)
            (block self.now.against.now) (procedure self.now.by.callee.now) x.0 dims.now tensor) }
        ensures fits { ComesIf result
            (buffer_is_short (R.reading self.now.reader.now)
            (plain.by_walk (R.reading self.now.reader.now) (names_in self.now.theirs.now)
            (block self.now.against.now) (procedure self.now.by.callee.now)) (has_binder
            (block self.now.against.now))
            (tensor && nat_lt 0 (length dims.now)) dims.now
            (names_in self.now.theirs.now)
            (windows.uses_of x.0
            (plain.walk (R.reading self.now.reader.now) (names_in self.now.theirs.now)
            (block self.now.against.now) (procedure self.now.by.callee.now)))) }
    {
        let uses = uses_of(alloc, x, self.walk)?;
        let whole = is_whole(tensor, dims);
        let windows = Windows {
            reader: self.reader,
            by: self.by,
            bound: self.bound,
            theirs: self.theirs,
        };
        let found = windows.argument_of(alloc, whole, dims, &uses)?;
        match found {
            None => Ok(Err(first_path(&uses))),
            Some(a) => Ok(Ok(a)),
        }
    }

    /// The argument of a parameter, or where the block differs.
    fn argument_for(&self, alloc: Global, p: &Param) -> Result<Result<Arg, Path>, FormError>
        requires { IsWalk (R.reading self.now.reader.now) (names_in self.now.theirs.now)
            (block self.now.against.now) (procedure self.now.by.callee.now)
            (ids_in self.now.bound.now) (partners_in self.now.by.to.now)
            (determined_in self.now.by.given.now) (map plain_pair self.now.walk.now) }
        ensures value { IfOk result (λ r. result_map_both argument (λ p. p) r
            ≡ plain.argument_for (R.reading self.now.reader.now) (names_in self.now.theirs.now)
            (block self.now.against.now) (procedure self.now.by.callee.now)
            (parameter p.now).binder.id
            (parameter p.now).kind) }
        ensures fits { ComesIf result
            (argument_is_short (R.reading self.now.reader.now) (names_in self.now.theirs.now)
            (block self.now.against.now) (procedure self.now.by.callee.now)
            (parameter p.now).binder.id
            (parameter p.now).kind) }
    {
        let x = p.binder.id;
        match &p.kind {
            ParamKind::Ctrl(_) => Ok(self.control_argument(alloc, x)?),
            ParamKind::Tensor(_, dims, _) => self.buffer_argument(alloc, x, dims, true),
            ParamKind::Window(_, dims, _) => self.buffer_argument(alloc, x, dims, false),
        }
    }

    /// Adds the arguments of parameters, up to the first without one: where the block differs then.
    #[tactic(auto, using(crate::proofs::Choices::none_left, crate::proofs::Choices::ends_here, crate::proofs::Choices::short_end, crate::proofs::Choices::wide_both))]
    fn push_arguments(
        &self,
        alloc: Global,
        params: &[Param],
        args: &mut Args,
    ) -> Result<Option<Path>, FormError>
        requires { IsWalk (R.reading self.now.reader.now) (names_in self.now.theirs.now)
            (block self.now.against.now) (procedure self.now.by.callee.now)
            (ids_in self.now.bound.now) (partners_in self.now.by.to.now)
            (determined_in self.now.by.given.now) (map plain_pair self.now.walk.now) }
        ensures value { IfOk result (λ o. put_behind args.old
            (plain.arguments_for (R.reading self.now.reader.now) (names_in self.now.theirs.now)
            (block self.now.against.now) (procedure self.now.by.callee.now)
            (map parameter params.now)) ≡ outcome o args.new) }
        ensures fits { ComesIf result
            (arguments_are_short (R.reading self.now.reader.now) (names_in self.now.theirs.now)
            (block self.now.against.now) (procedure self.now.by.callee.now)
            (map parameter params.now)) }
    {
        let Some((p, rest)) = params.split_first() else {
            return Ok(None);
        };
        let found = self.argument_for(alloc, p)?;
        match found {
            Err(path) => Ok(Some(path)),
            Ok(a) => {
                args.push(a)?;
                self.push_arguments(alloc, rest, args)
            }
        }
    }

    /// The arguments of all parameters, or where the block differs for the first without one.
    #[tactic(auto, using(crate::proofs::Choices::from_none))]
    pub(crate) fn arguments(&self, alloc: Global) -> Result<Result<Args, Path>, FormError>
        requires { IsWalk (R.reading self.now.reader.now) (names_in self.now.theirs.now)
            (block self.now.against.now) (procedure self.now.by.callee.now)
            (ids_in self.now.bound.now) (partners_in self.now.by.to.now)
            (determined_in self.now.by.given.now) (map plain_pair self.now.walk.now) }
        ensures value { IfOk result (λ r. r
            ≡ plain.arguments_for (R.reading self.now.reader.now) (names_in self.now.theirs.now)
            (block self.now.against.now) (procedure self.now.by.callee.now)
            (procedure self.now.by.callee.now).params) }
        ensures fits { ComesIf result
            (arguments_are_short (R.reading self.now.reader.now) (names_in self.now.theirs.now)
            (block self.now.against.now) (procedure self.now.by.callee.now)
            (procedure self.now.by.callee.now).params) }
    {
        let mut args = Args::new(alloc);
        let params = self.by.callee.params.as_slice();
        let missing = self.push_arguments(alloc, params, &mut args)?;
        match missing {
            None => Ok(Ok(args)),
            Some(path) => Ok(Err(path)),
        }
    }
}
