//! What stands for variables, fields and strides at a place of a procedure.
ghost use Rattle.std.specs.Prelude.{◌≡◌, ◌&&◌, IfOk, IsTrue, Some};
ghost use Rattle.exo_tree.specs.PlainArgument.{argument};
ghost use Rattle.affine_forms.specs.Atoms.{UnknownField};
ghost use Rattle.affine_forms.specs.PlainAtoms.{plain_atom};
ghost use Rattle.affine_forms.specs.PlainFormulas.{FormulaMade};
ghost use Rattle.affine_forms.specs.Forms.{is_short_form};
ghost use Rattle.affine_forms.specs.Outcomes.{Formed};
ghost use Rattle.affine_places.specs.Facts as plain;
ghost use Rattle.affine_places.specs.Facts.{fact_keeps_rules, fact_of, kind_of};
ghost use Rattle.affine_places.specs.Readings.{place_reading, place_flags, field_form, field_fits, field_formula, field_formula_fits};
ghost use Rattle.affine_places.specs.Seen.{roots_in};

use crate::entry::{AtEntry, kind_of};
use crate::extents::stride_of;
use crate::facts::{Fact, Facts};
use crate::roots::Roots;
use affine_forms::{Atom, Draft, FlagReader, FormError, Formula, Reader, form, formula_of};
use exo_tree::{Arg, FieldId, Fields, Id, Path};
use std::alloc::{AllocError, Global};
use std::sync::Arc;

/// A place of a procedure, with the roots of its names, at which these facts of fields are known.
#[derive(Drop)]
pub struct AtPlace<'a, 'r> {
    pub fields: &'a Fields,
    pub roots: &'a Roots<'r>,
    pub facts: &'a Facts,
}

/// A field that the statement at a path made unknown.
fn unknown_field(
    alloc: Global,
    fields: &Fields,
    f: FieldId,
    path: &Path,
) -> Result<Atom, AllocError>
    ensures { IfOk result
        (λ a. plain_atom a ≡ UnknownField f.0 (kind_of fields.now f.0) path.now) }
{
    let shared = Arc::new(alloc, path.duplicate())?;
    Ok(Atom::UnknownField(f, kind_of(fields, f), shared))
}

/// The form of a known value.
fn known(
    alloc: Global,
    fields: &Fields,
    roots: &Roots<'_>,
    f: FieldId,
    value: &Arg,
) -> Result<Draft, FormError>
    requires { IsTrue (fact_keeps_rules (plain.Known (argument value.now))) }
    ensures { Formed result
        (field_fits fields.now (roots_in roots.now) (Some (plain.Known (argument value.now)))
        && is_short_form (field_form fields.now (roots_in roots.now) f.0
        (Some (plain.Known (argument value.now)))))
        (field_form fields.now (roots_in roots.now) f.0 (Some (plain.Known (argument value.now)))) }
{
    match value {
        Arg::Ctrl(e) => form(alloc, &AtEntry { fields, roots }, e),
        Arg::Cond(_) => Draft::constantly(alloc, 0),
        Arg::Whole(_) => Draft::constantly(alloc, 0),
        Arg::Window(_, _) => Draft::constantly(alloc, 0),
    }
}

impl Reader for AtPlace<'_, '_> {
    ghost reading = { λ r. place_reading r.fields.now (roots_in r.roots.now) r.facts.now };

    fn variable(&self, alloc: Global, x: Id) -> Result<Draft, FormError> {
        let l = Draft::only(alloc, Atom::Variable(x))?;
        Ok(l)
    }

    fn field(&self, alloc: Global, f: FieldId) -> Result<Draft, FormError> {
        match self.facts.get(f) {
            None => {
                let l = Draft::only(alloc, Atom::EntryField(f, kind_of(self.fields, f)))?;
                Ok(l)
            }
            Some(Fact::Unknown(path)) => {
                let unknown = unknown_field(alloc, self.fields, f, path)?;
                let l = Draft::only(alloc, unknown)?;
                Ok(l)
            }
            Some(Fact::Known(value)) => known(alloc, self.fields, self.roots, f, value),
        }
    }

    fn stride(&self, alloc: Global, x: Id, k: u32) -> Result<Draft, FormError> {
        stride_of(alloc, self.roots, x, k)
    }
}

/// The formula of a known value.
fn known_flag(
    alloc: Global,
    fields: &Fields,
    roots: &Roots<'_>,
    f: FieldId,
    value: &Arg,
) -> Result<Formula, FormError>
    requires { IsTrue (fact_keeps_rules (plain.Known (argument value.now))) }
    ensures { FormulaMade result
        (field_formula_fits fields.now (roots_in roots.now)
        (Some (plain.Known (argument value.now))))
        (field_formula fields.now (roots_in roots.now) f.0
        (Some (plain.Known (argument value.now)))) }
{
    match value {
        Arg::Cond(c) => formula_of(alloc, &AtEntry { fields, roots }, c),
        Arg::Ctrl(_) => Ok(Formula::always(alloc)),
        Arg::Whole(_) => Ok(Formula::always(alloc)),
        Arg::Window(_, _) => Ok(Formula::always(alloc)),
    }
}

impl FlagReader for AtPlace<'_, '_> {
    ghost flags = { λ r. place_flags r.fields.now (roots_in r.roots.now) r.facts.now };

    ghost flag_fits = { λ r f. field_formula_fits r.fields.now (roots_in r.roots.now) (fact_of r.facts.now f) };

    fn flag(&self, alloc: Global, x: Id) -> Result<Formula, FormError> {
        let f = Formula::is_set(alloc, Atom::Variable(x))?;
        Ok(f)
    }

    fn field_flag(&self, alloc: Global, f: FieldId) -> Result<Formula, FormError> {
        match self.facts.get(f) {
            None => {
                let set = Formula::is_set(alloc, Atom::EntryField(f, kind_of(self.fields, f)))?;
                Ok(set)
            }
            Some(Fact::Unknown(path)) => {
                let unknown = unknown_field(alloc, self.fields, f, path)?;
                let set = Formula::is_set(alloc, unknown)?;
                Ok(set)
            }
            Some(Fact::Known(value)) => known_flag(alloc, self.fields, self.roots, f, value),
        }
    }
}
