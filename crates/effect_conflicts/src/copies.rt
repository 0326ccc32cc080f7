//! Expressions of one of two copies of a piece, over variables of its own.
ghost use Rattle.std.specs.Prelude.{◌≡◌, ◌≤◌, ◌<◌, ◌^◌, ◌++◌, ◌∷◌, [], IsTrue, OnOk, true, length, map};
ghost use Rattle.std.specs.List.{list_all};
ghost use Rattle.exo_tree.specs.PlainControl.{control, condition, coordinate};
ghost use Rattle.affine_forms.specs.Forms.{is_affine};
ghost use Rattle.affine_forms.specs.Formulas.{is_affine_condition};
ghost use Rattle.affine_forms.specs.Outcomes.{Formed};
ghost use Rattle.affine_forms.specs.PlainFormulas.{FormulaMade};
ghost use Rattle.exo_effects.specs.Accesses.{plain_form, plain_fits, plain_formula, plain_formula_fits, coord_form, coord_fits};
ghost use Rattle.exo_effects.specs.Conflicts.{place_in, span_number, variables_of, re_turn, re_coord, copied_turns};
ghost use Rattle.exo_effects.specs.Low.{coord_is_low};
ghost use Rattle.exo_effects.specs.PlainAccess.{plain_coord, CoordMade};
ghost use Rattle.exo_effects.specs.PlainUses.{all_variables};
ghost use Rattle.exo_effects.specs.Renamed.{re_linear, re_formula};
ghost use Rattle.effect_conflicts.specs.Copies.{reading_by, flags_by, numbers_below, names_below};
ghost use Rattle.effect_conflicts.specs.PlainCopies.{plain_turn, plain_copied, turn_fits};
ghost use Rattle.effect_conflicts.specs.PlainCopies.{turn_is_low};
ghost use Rattle.effect_conflicts.specs.PlainCopies.{renamed, TurnMade, TurnsMade, CoordsMade};

use crate::twin::{Turn, Twin};
use affine_forms::{
    Atom, Draft, FlagReader, FormError, Formula, Linear, Reader, formula_of, normal_form,
};
use exo_effects::{AccessCoord, Guard};
use exo_tree::{Cond, Coord, Ctrl, FieldId, Id};
use std::alloc::{AllocError, Global};

/// The number from which copies have variables of their own: those of procedures are below it.
const BASE: u32 = 1 << 31;

/// Which of the loops has that variable, counted from 0.
fn turn_place(turns: &[Turn<'_>], x: Id) -> Option<usize>
    ensures { result ≡ place_in (variables_of (map plain_turn turns.now)) x.0 }
{
    for (k, t) in turns.iter().enumerate() {
        if t.variable.0 == x.0 {
            return Some(k);
        }
    }
    None
}

/// Which of the loops among these has that variable, counted from 0.
fn own_place(guards: &[Guard<'_>], x: Id) -> Option<usize>
    ensures { result ≡ place_in (all_variables guards.now) x.0 }
{
    let mut k = 0;
    for g in guards {
        if let Guard::Loop(i, _, _) = g {
            if i.0 == x.0 {
                return Some(k);
            }
            k += 1;
        }
    }
    None
}

impl Twin<'_> {
    /// The variable that stands for this one in the copy.
    pub(crate) fn renamed(&self, x: Id) -> Id
        ensures { result.0 ≡ renamed self.now x.0 }
    {
        if let Some(k) = own_place(self.guards, x) {
            return Id(BASE + (6 * k as u32 + (2 + self.side)));
        }
        match turn_place(self.turns, x) {
            Some(k) => Id(BASE + (6 * k as u32 + self.side)),
            None => x,
        }
    }
}

/// The variable of the copy's span of that dimension.
pub(crate) fn span_variable(side: u32, d: usize) -> Id
    requires side { side ≤ 1 }
    requires few { d < 2 ^ 20 }
    ensures { result.0 ≡ span_number (2 ^ 31) side d }
{
    Id(BASE + (6 * d as u32 + (4 + side)))
}

impl Reader for Twin<'_> {
    ghost reading = { λ r. reading_by (renamed r) };

    fn variable(&self, alloc: Global, x: Id) -> Result<Draft, FormError> {
        let l = Draft::only(alloc, Atom::Variable(self.renamed(x)))?;
        Ok(l)
    }

    fn field(&self, alloc: Global, _f: FieldId) -> Result<Draft, FormError> {
        Draft::constantly(alloc, 0)
    }

    fn stride(&self, alloc: Global, _x: Id, _k: u32) -> Result<Draft, FormError> {
        Draft::constantly(alloc, 0)
    }
}

impl FlagReader for Twin<'_> {
    ghost flags = { λ r. flags_by (renamed r) };

    ghost flag_fits = { λ r f. true };

    fn flag(&self, alloc: Global, x: Id) -> Result<Formula, FormError> {
        let f = Formula::is_set(alloc, Atom::Variable(self.renamed(x)))?;
        Ok(f)
    }

    fn field_flag(&self, alloc: Global, _f: FieldId) -> Result<Formula, FormError> {
        Ok(Formula::always(alloc))
    }
}

/// The normal form of an expression in a copy.
/// `WideNumber` where a number of it, or of the form of a part, passes 2^62.
pub(crate) fn copied_form(alloc: Global, twin: &Twin<'_>, e: &Ctrl) -> Result<Linear, FormError>
    requires { IsTrue (is_affine (numbers_below (2 ^ 31)) (control e.now)) }
    ensures { Formed result (plain_fits (control e.now)) (re_linear (renamed twin.now) (plain_form (control e.now))) }
{
    normal_form(alloc, twin, e)
}

/// What a condition says in a copy. `WideNumber` where a number of a form passes 2^62.
pub(crate) fn copied_formula(alloc: Global, twin: &Twin<'_>, c: &Cond) -> Result<Formula, FormError>
    requires { IsTrue (is_affine_condition (names_below (2 ^ 31)) (condition c.now)) }
    ensures { FormulaMade result (plain_formula_fits (condition c.now)) (re_formula (renamed twin.now) (plain_formula (condition c.now))) }
{
    formula_of(alloc, twin, c)
}

/// A loop in a copy, with the normal forms of its bounds.
pub(crate) struct CopiedTurn {
    pub(crate) variable: Id,
    pub(crate) lower: Linear,
    pub(crate) upper: Linear,
}

impl Drop for CopiedTurn {
    fn drop(self) {
        let Self {
            variable: _,
            lower: _,
            upper: _,
        } = self;
    }
}

/// A loop round the piece in the copy.
pub(crate) fn copied_turn(
    alloc: Global,
    twin: &Twin<'_>,
    t: &Turn<'_>,
) -> Result<CopiedTurn, FormError>
    requires { IsTrue (turn_is_low t.now) }
    ensures { TurnMade result (turn_fits t.now) (re_turn (renamed twin.now) (plain_turn t.now)) }
{
    let lower = copied_form(alloc, twin, t.lower)?;
    let upper = copied_form(alloc, twin, t.upper)?;
    Ok(CopiedTurn {
        variable: twin.renamed(t.variable),
        lower,
        upper,
    })
}

/// Puts a loop last.
fn push_turn(made: &mut Vec<CopiedTurn>, t: CopiedTurn) -> Result<(), AllocError>
    ensures { OnOk result (map plain_copied made.new.items ≡ map plain_copied made.old.items ++ plain_copied t ∷ []) }
{
    made.push(t)?;
    Ok(())
}

/// The loops round the piece in the copy of that side.
/// `WideNumber` where a number of a normal form passes 2^62.
pub(crate) fn copied_turns(
    alloc: Global,
    side: u32,
    turns: &[Turn<'_>],
) -> Result<Vec<CopiedTurn>, FormError>
    requires side { side ≤ 1 }
    requires few { length turns.now ≤ 2 ^ 20 }
    requires low { IsTrue (list_all turn_is_low turns.now) }
    ensures { TurnsMade result (list_all turn_fits turns.now) (copied_turns (2 ^ 31) side (map plain_turn turns.now)) }
{
    let twin = Twin {
        side,
        turns,
        guards: &[],
    };
    let mut made = Vec::new(alloc);
    for t in turns {
        let copied = copied_turn(alloc, &twin, t)?;
        push_turn(&mut made, copied)?;
    }
    Ok(made)
}

/// A coordinate in a copy.
fn copied_coord(alloc: Global, twin: &Twin<'_>, c: &Coord) -> Result<AccessCoord, FormError>
    requires { IsTrue (coord_is_low (coordinate c.now)) }
    ensures { CoordMade result (coord_fits (coordinate c.now)) (re_coord (renamed twin.now) (coord_form (coordinate c.now))) }
{
    match c {
        Coord::At(e) => {
            let index = copied_form(alloc, twin, e)?;
            Ok(AccessCoord::At(index))
        }
        Coord::Span(a, b) => {
            let lower = copied_form(alloc, twin, a)?;
            let upper = copied_form(alloc, twin, b)?;
            Ok(AccessCoord::Range(lower, upper))
        }
    }
}

/// Puts a coordinate last.
fn push_coord(made: &mut Vec<AccessCoord>, c: AccessCoord) -> Result<(), AllocError>
    ensures { OnOk result (map plain_coord made.new.items ≡ map plain_coord made.old.items ++ plain_coord c ∷ []) }
{
    made.push(c)?;
    Ok(())
}

/// Coordinates in a copy. `WideNumber` where a number of a normal form passes 2^62.
pub(crate) fn copied_coords(
    alloc: Global,
    twin: &Twin<'_>,
    coords: &[Coord],
) -> Result<Vec<AccessCoord>, FormError>
    requires { IsTrue (list_all coord_is_low (map coordinate coords.now)) }
    ensures { CoordsMade result (list_all coord_fits (map coordinate coords.now))
        (map (re_coord (renamed twin.now)) (map coord_form (map coordinate coords.now))) }
{
    let mut made = Vec::new(alloc);
    for c in coords {
        let copied = copied_coord(alloc, twin, c)?;
        push_coord(&mut made, copied)?;
    }
    Ok(made)
}
