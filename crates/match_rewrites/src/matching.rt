//! A piece matched with the body of a procedure of the unit.
ghost use Rattle.std.specs.Prelude.{◌≡◌, map, IfOk};
ghost use Rattle.exo_tree.specs.PlainParam.{parameter};
ghost use Rattle.exo_tree.specs.PlainProcedure.{procedure};
ghost use Rattle.affine_places.specs.Seen.{roots_in};
ghost use Rattle.match_laws.specs.Names.{names_of};
ghost use Rattle.match_laws.specs.Matched as plain;
ghost use Rattle.match_laws.specs.Matched.{Arguments};
ghost use Rattle.match_laws.specs.Widths.{Said, match_is_short};
ghost use Rattle.tree_uses.specs.Outcomes.{ComesIf};
ghost use Rattle.call_laws.specs.Simplify.{reading_of, rooted};
ghost use Rattle.call_laws.specs.Replace.Rule as rule;
ghost use Rattle.step_driver.specs.Outcomes.{Tries};
ghost use Rattle.step_driver.specs.PlainTarget.{target, plain_piece};
ghost use Rattle.step_driver.specs.Spots.{spot_at};
ghost use Rattle.step_driver.specs.Tables.{HasTables};
ghost use Rattle.block_matches.specs.PlainMatched.{plain_matched};
ghost use Rattle.check_claims.specs.Arguments.{passed_for};

use crate::wholes::Handing;
use affine_forms::{FormError, Reader};
use affine_places::{AtEntry, Roots, has_extents};
use block_matches::pairs::NameTable;
use block_matches::{Matched, match_with};
use cursor_forward::StepError;
use exo_tree::{Args, Id, Name, Param, Proc, ProcId};
use piece_modes::roots_at;
use std::alloc::{AllocError, Global};
use step_driver::{Piece, Target};
use tree_findings::gives_apart;

/// The name of the parameter of that id; empty where there is none.
fn param_name(alloc: Global, params: &[Param], x: Id) -> Result<Name, AllocError>
    ensures { IfOk result (λ n. n ≡ rule.param_name (map parameter params.now) x.0) }
{
    match params.split_first() {
        None => Name::new(alloc, ""),
        Some((p, rest)) => {
            if x.0 == p.binder.id.0 {
                return p.binder.name.duplicate(alloc);
            }
            param_name(alloc, rest, x)
        }
    }
}

/// A piece of a procedure, and the procedure of a number with whose body it is matched.
#[derive(Clone, Copy)]
struct Matching<'a> {
    on: &'a Target<'a>,
    piece: &'a Piece,
    number: ProcId,
    callee: &'a Proc,
}

impl Matching<'_> {
    /// What the match says.
    fn matched<R: Reader>(&self, alloc: Global, reader: &R) -> Result<Matched, FormError>
        requires { R.reading reader.now ≡ reading_of (target self.now.on.now) }
        ensures value { IfOk result (λ m. plain_matched m
            ≡ plain.matched (reading_of (target self.now.on.now))
            (names_of (target self.now.on.now).proc)
            (spot_at (target self.now.on.now) (plain_piece self.now.piece.now)).opened.piece
            (procedure self.now.callee.now)) }
        ensures fits { ComesIf result
            (match_is_short (reading_of (target self.now.on.now))
            (names_of (target self.now.on.now).proc)
            (spot_at (target self.now.on.now) (plain_piece self.now.piece.now)).opened.piece
            (procedure self.now.callee.now)) }
    {
        let block = self.on.statements(alloc, self.piece)?;
        let theirs = NameTable::of(alloc, self.on.proc)?;
        match_with(alloc, reader, &theirs, &block, self.callee)
    }

    /// Whether the callee's body hands on a parameter whole where the piece hands on a window,
    /// while its argument is the whole of a name.
    fn hands_wholes(&self, alloc: Global, args: &Args) -> Result<bool, AllocError>
        ensures { IfOk result (λ r. r
            ≡ rule.hands_wholes (passed_for (procedure self.now.callee.now).params args.now)
            (procedure self.now.callee.now).body
            (spot_at (target self.now.on.now) (plain_piece self.now.piece.now)).opened.piece) }
    {
        let block = self.on.statements(alloc, self.piece)?;
        let handing = Handing {
            params: &self.callee.params,
            args,
        };
        Ok(handing.hands_wholes(&self.callee.body, &block))
    }

    /// Whether a call with these arguments gives the callee parts of one buffer only as the rule of
    /// calls allows.
    fn may_share(&self, alloc: Global, args: &Args) -> Result<bool, AllocError>
        requires { HasTables self.now.on.now }
        ensures { IfOk result (λ r. r
            ≡ rule.may_share (target self.now.on.now)
            (spot_at (target self.now.on.now) (plain_piece self.now.piece.now)).opened
            self.now.number.0 (procedure self.now.callee.now) args.now) }
    {
        let on = self.on;
        let aliases = roots_at(alloc, on.proc, &self.piece.path, self.piece.count)?;
        let params = &self.callee.params;
        Ok(gives_apart(on.unit, on.modes, &aliases, self.number, params, args))
    }

    /// The arguments of a match, where nothing else stands in the way.
    #[tactic(auto, using(crate::proofs::Told::hands_some, crate::proofs::Told::shares_some, crate::proofs::Told::gives_all))]
    fn passed(&self, alloc: Global, args: Args) -> Result<Args, StepError>
        requires { HasTables self.now.on.now }
        ensures { Tries (λ as'. as')
            (rule.told (target self.now.on.now)
            (spot_at (target self.now.on.now) (plain_piece self.now.piece.now)).opened
            self.now.number.0 (procedure self.now.callee.now) (Said (Arguments args)))
            result }
    {
        if self.hands_wholes(alloc, &args)? {
            return Err(StepError::WrongShape);
        }
        if !self.may_share(alloc, &args)? {
            return Err(StepError::SharedArgument);
        }
        Ok(args)
    }

    /// The arguments of the call, by a reader of what the procedure reads where it begins.
    #[tactic(auto, using(crate::proofs::Told::too_wide, crate::proofs::Told::arguments_there, crate::proofs::Told::differs_there, crate::proofs::Told::undetermined_there))]
    fn told_by<R: Reader>(&self, alloc: Global, reader: &R) -> Result<Args, StepError>
        requires tables { HasTables self.now.on.now }
        requires reading { R.reading reader.now ≡ reading_of (target self.now.on.now) }
        ensures { Tries (λ as'. as')
            (rule.told_there (target self.now.on.now)
            (spot_at (target self.now.on.now) (plain_piece self.now.piece.now)).opened
            self.now.number.0 (procedure self.now.callee.now))
            result }
    {
        match self.matched(alloc, reader)? {
            Matched::Arguments(args) => self.passed(alloc, args),
            Matched::NoMatch(path) => Err(StepError::NoMatch(path)),
            Matched::Undetermined(x) => {
                let name = param_name(alloc, self.callee.params.as_slice(), x)?;
                Err(StepError::Undetermined(name))
            }
        }
    }

    /// The same by the roots of the procedure.
    fn told_at(&self, alloc: Global, roots: &Roots<'_>) -> Result<Args, StepError>
        requires tables { HasTables self.now.on.now }
        requires roots { roots_in roots.now ≡ rooted (target self.now.on.now).proc }
        ensures { Tries (λ as'. as')
            (rule.told_there (target self.now.on.now)
            (spot_at (target self.now.on.now) (plain_piece self.now.piece.now)).opened
            self.now.number.0 (procedure self.now.callee.now))
            result }
    {
        let fields = &self.on.unit.fields;
        self.told_by(alloc, &AtEntry { fields, roots })
    }

    /// The arguments of the call.
    #[tactic(auto, using(crate::proofs::Told::without_extents, call_laws::proofs::Simplify::rooted_is))]
    fn told(&self, alloc: Global) -> Result<Args, StepError>
        requires { HasTables self.now.on.now }
        ensures { Tries (λ as'. as')
            (rule.told_there (target self.now.on.now)
            (spot_at (target self.now.on.now) (plain_piece self.now.piece.now)).opened
            self.now.number.0 (procedure self.now.callee.now))
            result }
    {
        if !has_extents(self.on.proc) {
            return self.told_at(alloc, &Roots::new(alloc));
        }
        let roots = Roots::of(alloc, self.on.proc)?;
        self.told_at(alloc, &roots)
    }
}

/// The arguments of a call of a procedure of the unit in the place of a piece. `WrongShape` where
/// the unit has no such procedure, or its body hands on a parameter whole where the piece hands on
/// a window, while its argument is the whole of a name; `NoMatch` and `Undetermined` as the match
/// says; `SharedArgument` where the rule of calls refuses the arguments; `Form(WideNumber)` where a
/// number of a form passes 2^62 in size. The tables are those of the unit.
#[tactic(auto, using(crate::proofs::Told::no_callee, crate::proofs::Told::callee_there))]
pub(crate) fn said(
    alloc: Global,
    on: &Target<'_>,
    piece: &Piece,
    number: ProcId,
) -> Result<Args, StepError>
    requires { HasTables on.now }
    ensures { Tries (λ as'. as')
        (rule.said number.0 (target on.now)
        (spot_at (target on.now) (plain_piece piece.now)).opened)
        result }
{
    let Some(callee) = on.unit.procs.get(number.0 as usize) else {
        return Err(StepError::WrongShape);
    };
    let matching = Matching {
        on,
        piece,
        number,
        callee,
    };
    matching.told(alloc)
}
