//! The constraints of a case and the atoms of its variables.
ghost use Rattle.std.specs.Prelude.{◌≡◌, ◌^◌, map, IfOk, OnOk, IsTrue};
ghost use Rattle.exo_tree.specs.PlainBinder.{control_kind};
ghost use Rattle.affine_forms.specs.Atoms.{only};
ghost use Rattle.affine_forms.specs.Bounds.{is_narrow};
ghost use Rattle.affine_forms.specs.Forms.{are_within};
ghost use Rattle.affine_forms.specs.TermBounds.{is_kept_atom, are_distinct};
ghost use Rattle.affine_forms.specs.PlainAtoms.{plain_atom};
ghost use Rattle.affine_systems.specs.Systems.{stands_in, with_atom, with_atoms, with_constraint};
ghost use Rattle.affine_systems.specs.Systems.{with_constraints, sum_of, is_equation, explained};
ghost use Rattle.affine_systems.specs.Systems.{all_explained, made_of, nothing, own_rows};
ghost use Rattle.affine_systems.specs.Systems.{kind_rows};
ghost use Rattle.affine_systems.specs.PlainCases.{plain_constraint};
ghost use Rattle.affine_systems.specs.PlainMade.{plain_stated, plain_made};

use crate::case::Constraint;
use crate::own::OwnRow;
use affine_forms::{Atom, Terms};
use exo_tree::Kind;
use std::alloc::{AllocError, Global};

/// A constraint of a system: one of its case, or one that says what an atom is.
pub enum Stated<'a> {
    Given(Constraint<'a>),
    Own(OwnRow),
}

impl Drop for Stated<'_> {
    fn drop(self) {
        match self {
            Self::Given(_) | Self::Own(_) => {}
        }
    }
}

impl Stated<'_> {
    /// Whether its sum is 0, and not at least 0.
    pub fn is_equation(&self) -> bool
        ensures { result ≡ is_equation (plain_stated self.now) }
    {
        match self {
            Stated::Given(Constraint::AtLeastZero(_)) => false,
            Stated::Given(Constraint::IsZero(_)) => true,
            Stated::Own(_) => false,
        }
    }

    /// The constant of its sum.
    pub fn constant(&self) -> i128
        ensures value { result ≡ (sum_of (plain_stated self.now)).constant }
        ensures narrow { IsTrue (is_narrow result) }
    {
        match self {
            Stated::Given(Constraint::AtLeastZero(sum)) => sum.constant(),
            Stated::Given(Constraint::IsZero(sum)) => sum.constant(),
            Stated::Own(row) => row.constant(),
        }
    }

    /// The weighed sum.
    pub fn terms(&self) -> &Terms
        ensures value { result.now ≡ (sum_of (plain_stated self.now)).terms }
        ensures narrow { IsTrue (are_within (2 ^ 64) result.now) }
        ensures distinct { IsTrue (are_distinct result.now) }
    {
        match self {
            Stated::Given(Constraint::AtLeastZero(sum)) => sum.terms(),
            Stated::Given(Constraint::IsZero(sum)) => sum.terms(),
            Stated::Own(row) => row.terms(),
        }
    }
}

/// Constraints in their order, and the atoms that stand in them by first appearance.
pub struct Gathering<'a> {
    pub atoms: Vec<Atom>,
    pub constraints: Vec<Stated<'a>>,
}

impl Drop for Gathering<'_> {
    fn drop(self) {
        let Self {
            atoms: _,
            constraints: _,
        } = self;
    }
}

impl<'a> Gathering<'a> {
    /// Nothing is stated.
    pub fn new(alloc: Global) -> Gathering<'a>
        ensures { plain_made result ≡ nothing }
    {
        Gathering {
            atoms: Vec::new(alloc),
            constraints: Vec::new(alloc),
        }
    }

    /// Whether an atom stands in the constraints.
    fn has(&self, alloc: Global, atom: &Atom) -> Result<bool, AllocError>
        ensures { IfOk result (λ b. b ≡ stands_in (plain_made self.now).atoms (plain_atom atom.now)) }
    {
        for other in &self.atoms {
            if atom.same(alloc, other)? {
                return Ok(true);
            }
        }
        Ok(false)
    }

    /// Adds an atom, if it is new.
    fn add_atom(&mut self, alloc: Global, atom: &Atom) -> Result<(), AllocError>
        ensures { OnOk result
            (plain_made self.new
            ≡ record (plain_made self.old) {
              atoms = with_atom (plain_made self.old).atoms (plain_atom atom.now);
            }) }
    {
        if !self.has(alloc, atom)? {
            self.atoms.push(atom.duplicate(alloc)?)?;
        }
        Ok(())
    }

    /// Adds the atoms of a sum that are new.
    fn add_atoms(&mut self, alloc: Global, terms: &Terms) -> Result<(), AllocError>
        ensures { OnOk result
            (plain_made self.new
            ≡ record (plain_made self.old) {
              atoms = with_atoms (plain_made self.old).atoms terms.now;
            }) }
    {
        for w in terms.as_slice() {
            self.add_atom(alloc, &w.atom)?;
        }
        Ok(())
    }

    /// Puts a constraint last, with the atoms that it names first.
    fn state(&mut self, alloc: Global, c: Stated<'a>) -> Result<(), AllocError>
        ensures { OnOk result (plain_made self.new ≡ with_constraint (plain_made self.old) (plain_stated c.entry)) }
    {
        self.add_atoms(alloc, c.terms())?;
        self.constraints.push(c)?;
        Ok(())
    }

    /// Puts the rows last that say what a field of that kind is: a size is at least 1, and a bool is 0 or 1.
    fn state_kind(&mut self, alloc: Global, kind: Kind, field: &Atom) -> Result<(), AllocError>
        requires { IsTrue (is_kept_atom (plain_atom field.now)) }
        ensures { OnOk result
            (plain_made self.new
            ≡ with_constraints (plain_made self.old)
            (kind_rows (control_kind kind) (only (plain_atom field.now)))) }
    {
        match kind {
            Kind::Size => {
                let row = OwnRow::at_least_one(alloc, field)?;
                self.state(alloc, Stated::Own(row))
            }
            Kind::Index => Ok(()),
            Kind::Bool => {
                let low = OwnRow::at_least_zero(alloc, field)?;
                self.state(alloc, Stated::Own(low))?;
                let high = OwnRow::at_most_one(alloc, field)?;
                self.state(alloc, Stated::Own(high))
            }
            Kind::Stride => Ok(()),
        }
    }

    /// Puts the rows last that say what an atom is.
    fn state_own(&mut self, alloc: Global, atom: &Atom) -> Result<(), AllocError>
        requires { IsTrue (is_kept_atom (plain_atom atom.now)) }
        ensures { OnOk result (plain_made self.new ≡ with_constraints (plain_made self.old) (own_rows (plain_atom atom.now))) }
    {
        match atom {
            Atom::Variable(_) => Ok(()),
            Atom::EntryField(_, kind) => self.state_kind(alloc, *kind, atom),
            Atom::UnknownField(_, kind, _) => self.state_kind(alloc, *kind, atom),
            Atom::OpaqueStride(_, _) => Ok(()),
            Atom::Quotient(q) => {
                let terms = q.terms(alloc)?;
                let low = OwnRow::not_above(alloc, q.constant(), &terms, q.by(), atom)?;
                self.state(alloc, Stated::Own(low))?;
                let high = OwnRow::not_below(alloc, q.constant(), &terms, q.by(), atom)?;
                self.state(alloc, Stated::Own(high))
            }
        }
    }

    /// Says what an atom is, at its first appearance: the atoms inside it come first.
    #[cycle(explain)]
    fn explain(&mut self, alloc: Global, atom: &Atom) -> Result<(), AllocError>
        requires { IsTrue (is_kept_atom (plain_atom atom.now)) }
        ensures { OnOk result (plain_made self.new ≡ explained (plain_atom atom.now) (plain_made self.old)) }
    {
        if self.has(alloc, atom)? {
            return Ok(());
        }
        if let Atom::Quotient(q) = atom {
            let terms = q.terms(alloc)?;
            self.explain_all(alloc, &terms)?;
        }
        self.state_own(alloc, atom)
    }

    /// Says what the atoms of a sum are.
    #[cycle(explain)]
    fn explain_all(&mut self, alloc: Global, terms: &Terms) -> Result<(), AllocError>
        ensures { OnOk result (plain_made self.new ≡ all_explained terms.now (plain_made self.old)) }
    {
        for w in terms.as_slice() {
            self.explain(alloc, &w.atom)?;
        }
        Ok(())
    }
}

/// The constraints of a case, each after the rows of the atoms that appear in it first.
pub fn gathered<'a>(alloc: Global, case: &[Constraint<'a>]) -> Result<Gathering<'a>, AllocError>
    ensures { IfOk result (λ g. plain_made g ≡ made_of nothing (map plain_constraint case.now)) }
{
    let mut made = Gathering::new(alloc);
    for c in case {
        let stated = Stated::Given(*c);
        made.explain_all(alloc, stated.terms())?;
        made.state(alloc, stated)?;
    }
    Ok(made)
}
