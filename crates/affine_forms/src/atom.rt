//! Atoms, and weighed sums of them.
ghost use Rattle.std.specs.Prelude.{◌≡◌, ◌∷◌, ◌++◌, ◌^◌, ◌-◌, ◌<◌, length, map, IfOk, OnOk, IsTrue, Some, None, if◌then◌else◌, pos};
ghost use Rattle.std.specs.Int.{is_positive};
ghost use Rattle.std.specs.Ordering.{int_eq};
ghost use Rattle.affine_forms.specs.Atoms as plain;
ghost use Rattle.exo_tree.specs.Tree as tree;
ghost use Rattle.exo_tree.specs.PlainBinder.{control_kind};
ghost use Rattle.exo_tree.specs.PlainPlace.{step_taken};
ghost use Rattle.exo_tree.specs.Places.{same_step, same_path};
ghost use Rattle.affine_forms.specs.Atoms.{same_kind, same_atom, same_terms, taken, with_term};
ghost use Rattle.affine_forms.specs.Atoms.{terms_added, terms_scaled, present, divides, divided};
ghost use Rattle.affine_forms.specs.Atoms.{undivided};
ghost use Rattle.affine_forms.specs.TermBounds.{is_kept_atom, are_kept, joined_terms, term_if};
ghost use Rattle.affine_forms.specs.TermBounds.{raised, first_that, is_sought, is_wanted, count};
ghost use Rattle.affine_forms.specs.TermBounds.{is_none, without_term};
ghost use Rattle.affine_forms.specs.Forms.{is_within, are_within, is_short, are_short};
ghost use Rattle.affine_forms.specs.PlainAtoms.{plain_atom, plain_terms};

use crate::quotient::Quotient;
use exo_tree::{Branch, FieldId, Id, Kind, Path, Step};
use std::alloc::{AllocError, Global};
use std::marker::Model;
use std::sync::Arc;

/// What a control value is built of: a part of an expression that is kept as it is.
pub enum Atom {
    /// A control variable.
    Variable(Id),
    /// The value that a configuration field of that kind has where the procedure begins.
    EntryField(FieldId, Kind),
    /// The value of a field of that kind after the statement at that path, which made it unknown.
    UnknownField(FieldId, Kind, Arc<Path>),
    /// The stride of a dimension of a buffer, where it is no affine form.
    OpaqueStride(Id, u32),
    /// The quotient of a constant and a sum by a literal of at least 1, rounded down.
    Quotient(Quotient),
}

impl Drop for Atom {
    fn drop(self) {
        match self {
            Self::Variable(_)
            | Self::EntryField(_, _)
            | Self::UnknownField(_, _, _)
            | Self::OpaqueStride(_, _)
            | Self::Quotient(_) => {}
        }
    }
}

/// An atom with its coefficient.
pub struct Weighed {
    pub coefficient: i128,
    pub atom: Atom,
}

impl Drop for Weighed {
    fn drop(self) {
        let Self {
            coefficient: _,
            atom: _,
        } = self;
    }
}

/// A weighed sum of atoms, in order of first appearance. Its coefficients are at most 2^126 in size.
#[derive(Drop)]
pub struct Terms {
    items: Vec<Weighed>,
}

impl Model for Terms {
    ghost use Rattle.std.specs.Prelude.{IsTrue};
    ghost use Rattle.affine_forms.specs.Atoms as plain;
    ghost use Rattle.affine_forms.specs.AtomCodes.{terms_code};
    ghost use Rattle.affine_forms.specs.TermBounds.{are_kept};

    ghost Value = { plain.Terms };

    ghost coded = { terms_code };

    ghost use Rattle.affine_forms.specs.PlainAtoms.{plain_terms};

    ghost view = { λ t. plain_terms t.items.items };

    ghost invariant = { λ t. IsTrue (are_kept (plain_terms t.items.items)) };
}

impl Terms {
    /// The sum of nothing.
    pub fn new(alloc: Global) -> Terms
        ensures { result ≡ plain.none }
    {
        Terms {
            items: Vec::new(alloc),
        }
    }

    /// One atom.
    pub fn single(alloc: Global, atom: Atom) -> Result<Terms, AllocError>
        requires { IsTrue (is_kept_atom (plain_atom atom)) }
        ensures { IfOk result (λ t. t ≡ plain.term (pos 1) (plain_atom atom) plain.none) }
    {
        let mut made = Terms::new(alloc);
        made.push(1, atom)?;
        Ok(made)
    }

    /// An atom with that coefficient.
    pub fn weighed(alloc: Global, coefficient: i128, atom: Atom) -> Result<Terms, AllocError>
        requires narrow { IsTrue (is_within (2 ^ 126) coefficient) }
        requires kept { IsTrue (is_kept_atom (plain_atom atom)) }
        ensures { IfOk result (λ t. t ≡ plain.term coefficient (plain_atom atom) plain.none) }
    {
        let mut made = Terms::new(alloc);
        made.push(coefficient, atom)?;
        Ok(made)
    }

    /// The terms, in their order.
    pub fn as_slice(&self) -> &[Weighed]
        ensures terms { plain_terms result.now ≡ self.now }
        ensures kept { IsTrue (are_kept (plain_terms result.now)) }
    {
        &self.items
    }

    pub fn duplicate(&self, alloc: Global) -> Result<Terms, AllocError>
        ensures { IfOk result (λ t. t ≡ self.now) }
    {
        let mut items = Vec::new(alloc);
        for w in &self.items {
            items.push(Weighed {
                coefficient: w.coefficient,
                atom: w.atom.duplicate(alloc)?,
            })?;
        }
        Ok(Terms { items })
    }

    /// Whether the two sums are equal in some order.
    pub fn same(&self, alloc: Global, other: &Terms) -> Result<bool, AllocError>
        ensures { IfOk result (λ b. b ≡ same_terms self.now other.now) }
    {
        let mut left = other.duplicate(alloc)?;
        for w in &self.items {
            if !left.take_out(alloc, w.coefficient, &w.atom)? {
                return Ok(false);
            }
        }
        Ok(left.items.is_empty())
    }

    /// Takes the first term of that atom and coefficient out, and says whether there was one.
    fn take_out(
        &mut self,
        alloc: Global,
        coefficient: i128,
        atom: &Atom,
    ) -> Result<bool, AllocError>
        ensures { IfOk result
            (λ found. taken (same_atom (plain_atom atom.now)) coefficient self.old
            ≡ (if found then Some self.new else None)) }
    {
        match self.place_of(alloc, atom, Some(coefficient))? {
            Some(k) => {
                let _taken = self.remove(k);
                Ok(true)
            }
            None => Ok(false),
        }
    }

    /// Takes the term of that index out.
    fn remove(&mut self, k: usize) -> Weighed
        requires { k < count self.old }
        ensures { self.new ≡ without_term k self.old }
    {
        self.items.remove(k)
    }

    /// Puts a term last.
    pub(crate) fn push(&mut self, coefficient: i128, atom: Atom) -> Result<(), AllocError>
        requires narrow { IsTrue (is_within (2 ^ 126) coefficient) }
        requires kept { IsTrue (is_kept_atom (plain_atom atom)) }
        ensures { OnOk result (self.new ≡ joined_terms self.old (plain.term coefficient (plain_atom atom) plain.none)) }
    {
        self.items.push(Weighed { coefficient, atom })?;
        Ok(())
    }

    /// Puts a term last, if it is wanted.
    fn push_if(
        &mut self,
        alloc: Global,
        wanted: bool,
        coefficient: i128,
        atom: &Atom,
    ) -> Result<(), AllocError>
        requires narrow { IsTrue (is_within (2 ^ 126) coefficient) }
        requires kept { IsTrue (is_kept_atom (plain_atom atom.now)) }
        ensures { OnOk result (self.new ≡ joined_terms self.old (term_if wanted coefficient (plain_atom atom.now) plain.none)) }
    {
        if wanted {
            let copied = atom.duplicate(alloc)?;
            self.push(coefficient, copied)?;
        }
        Ok(())
    }

    /// Adds to the coefficient of that index.
    fn raise(&mut self, k: usize, by: i128)
        requires inside { k < count self.old }
        requires room { IsTrue (are_within (2 ^ 126 - 2 ^ 64) self.old) }
        requires narrow { IsTrue (is_within (2 ^ 64) by) }
        ensures { self.new ≡ raised k by self.old }
    {
        self.items[k].coefficient += by;
    }

    /// Adds a term: it joins the term of the same atom, or stands at the end.
    pub fn join(&mut self, alloc: Global, coefficient: i128, atom: &Atom) -> Result<(), AllocError>
        requires room { IsTrue (are_within (2 ^ 126 - 2 ^ 64) self.old) }
        requires narrow { IsTrue (is_within (2 ^ 64) coefficient) }
        requires kept { IsTrue (is_kept_atom (plain_atom atom.now)) }
        ensures { OnOk result (self.new ≡ with_term coefficient (plain_atom atom.now) self.old) }
    {
        match self.place_of(alloc, atom, None)? {
            Some(k) => {
                self.raise(k, coefficient);
                Ok(())
            }
            None => {
                let added = atom.duplicate(alloc)?;
                self.push(coefficient, added)?;
                Ok(())
            }
        }
    }

    /// Adds the terms of another sum, in their order.
    pub fn add(&mut self, alloc: Global, other: &Terms) -> Result<(), AllocError>
        requires narrow { IsTrue (are_within (2 ^ 64) self.old) }
        requires other_narrow { IsTrue (are_within (2 ^ 64) other.now) }
        ensures { OnOk result (self.new ≡ terms_added self.old other.now) }
    {
        for w in &other.items {
            self.join(alloc, w.coefficient, &w.atom)?;
        }
        Ok(())
    }

    /// The sum with each coefficient multiplied.
    pub fn scaled(&self, alloc: Global, by: i128) -> Result<Terms, AllocError>
        requires { IsTrue (are_within (2 ^ 126) (terms_scaled by self.now)) }
        ensures { IfOk result (λ t. t ≡ terms_scaled by self.now) }
    {
        let mut made = Terms::new(alloc);
        for w in &self.items {
            made.push_if(alloc, true, by * w.coefficient, &w.atom)?;
        }
        Ok(made)
    }

    /// The terms whose coefficient is not 0.
    pub fn present(&self, alloc: Global) -> Result<Terms, AllocError>
        ensures { IfOk result (λ t. t ≡ present self.now) }
    {
        let mut made = Terms::new(alloc);
        for w in &self.items {
            made.push_if(alloc, !is_zero(w.coefficient), w.coefficient, &w.atom)?;
        }
        Ok(made)
    }

    /// The terms whose coefficient a literal divides, divided by it.
    pub fn divided(&self, alloc: Global, by: i128) -> Result<Terms, AllocError>
        requires { IsTrue (is_positive by) }
        ensures { IfOk result (λ t. t ≡ divided by self.now) }
    {
        let mut made = Terms::new(alloc);
        for w in &self.items {
            made.push_if(
                alloc,
                divides(by, w.coefficient),
                w.coefficient.div_euclid(by),
                &w.atom,
            )?;
        }
        Ok(made)
    }

    /// The terms whose coefficient a literal does not divide.
    pub fn undivided(&self, alloc: Global, by: i128) -> Result<Terms, AllocError>
        requires { IsTrue (is_positive by) }
        ensures { IfOk result (λ t. t ≡ undivided by self.now) }
    {
        let mut made = Terms::new(alloc);
        for w in &self.items {
            made.push_if(alloc, !divides(by, w.coefficient), w.coefficient, &w.atom)?;
        }
        Ok(made)
    }

    /// Whether each coefficient is at most 2^62 in size.
    pub fn are_short(&self) -> bool
        ensures { result ≡ are_short self.now }
    {
        for w in &self.items {
            if !is_short(w.coefficient) {
                return false;
            }
        }
        true
    }

    /// Whether there is no term.
    pub fn is_empty(&self) -> bool
        ensures { result ≡ is_none self.now }
    {
        self.items.is_empty()
    }

    /// The index of the first term of that atom, and of that coefficient if one is given.
    fn place_of(
        &self,
        alloc: Global,
        atom: &Atom,
        coefficient: Option<i128>,
    ) -> Result<Option<usize>, AllocError>
        ensures { IfOk result (λ k. k ≡ first_that (is_sought (plain_atom atom.now) coefficient) self.now) }
    {
        for (k, w) in self.items.iter().enumerate() {
            if atom.same(alloc, &w.atom)? {
                if is_wanted(coefficient, w.coefficient) {
                    return Ok(Some(k));
                }
            }
        }
        Ok(None)
    }
}

fn is_zero(z: i128) -> bool
    ensures { result ≡ int_eq z (pos 0) }
{
    z == 0
}

/// Whether a literal divides a number.
fn divides(by: i128, z: i128) -> bool
    requires { IsTrue (is_positive by) }
    ensures { result ≡ divides by z }
{
    is_zero(z.rem_euclid(by))
}

/// The greatest size of a number of a normal form.
const SHORT: u128 = 1 << 62;

/// Whether a number is at most 2^62 in size.
pub fn is_short(z: i128) -> bool
    ensures { result ≡ is_short z }
{
    z.unsigned_abs() <= SHORT
}

/// Whether a coefficient is the one that is sought; None seeks any.
fn is_wanted(wanted: Option<i128>, coefficient: i128) -> bool
    ensures { result ≡ is_wanted wanted coefficient }
{
    match wanted {
        None => true,
        Some(c) => c == coefficient,
    }
}

impl Atom {
    pub fn duplicate(&self, _alloc: Global) -> Result<Atom, AllocError>
        ensures { IfOk result (λ a. plain_atom a ≡ plain_atom self.now) }
    {
        match self {
            Atom::Variable(x) => Ok(Atom::Variable(*x)),
            Atom::EntryField(f, kind) => Ok(Atom::EntryField(*f, *kind)),
            Atom::UnknownField(f, kind, path) => {
                let shared = path.clone()?;
                Ok(Atom::UnknownField(*f, *kind, shared))
            }
            Atom::OpaqueStride(x, k) => Ok(Atom::OpaqueStride(*x, *k)),
            Atom::Quotient(q) => Ok(Atom::Quotient(q.duplicate()?)),
        }
    }

    /// Whether two atoms are equal, quotients by their sums in any order.
    pub fn same(&self, alloc: Global, other: &Atom) -> Result<bool, AllocError>
        ensures { IfOk result (λ b. b ≡ same_atom (plain_atom self.now) (plain_atom other.now)) }
    {
        match self {
            Atom::Variable(x) => Ok(is_variable(other, *x)),
            Atom::EntryField(f, kind) => Ok(is_entry(other, *f, *kind)),
            Atom::UnknownField(f, kind, path) => Ok(is_unknown(other, *f, *kind, path.as_ref())),
            Atom::OpaqueStride(x, k) => Ok(is_stride(other, *x, *k)),
            Atom::Quotient(q) => match other {
                Atom::Quotient(p) => q.same(alloc, p),
                Atom::Variable(_) => Ok(false),
                Atom::EntryField(_, _) => Ok(false),
                Atom::UnknownField(_, _, _) => Ok(false),
                Atom::OpaqueStride(_, _) => Ok(false),
            },
        }
    }
}

/// Whether an atom is that variable.
fn is_variable(a: &Atom, x: Id) -> bool
    ensures { result ≡ same_atom (plain.Variable x.0) (plain_atom a.now) }
{
    match a {
        Atom::Variable(y) => x.0 == y.0,
        Atom::EntryField(_, _) => false,
        Atom::UnknownField(_, _, _) => false,
        Atom::OpaqueStride(_, _) => false,
        Atom::Quotient(_) => false,
    }
}

/// Whether an atom is that field at entry.
fn is_entry(a: &Atom, f: FieldId, kind: Kind) -> bool
    ensures { result ≡ same_atom (plain.EntryField f.0 (control_kind kind)) (plain_atom a.now) }
{
    match a {
        Atom::Variable(_) => false,
        Atom::EntryField(g, other) => f.0 == g.0 && is_same_kind(kind, *other),
        Atom::UnknownField(_, _, _) => false,
        Atom::OpaqueStride(_, _) => false,
        Atom::Quotient(_) => false,
    }
}

/// Whether an atom is that unknown field.
fn is_unknown(a: &Atom, f: FieldId, kind: Kind, path: &Path) -> bool
    ensures { result ≡ same_atom (plain.UnknownField f.0 (control_kind kind) path.now) (plain_atom a.now) }
{
    match a {
        Atom::Variable(_) => false,
        Atom::EntryField(_, _) => false,
        Atom::UnknownField(g, other, at) => (f.0 == g.0 && is_same_kind(kind, *other))
            && is_same_path(path.as_slice(), at.as_ref().as_slice()),
        Atom::OpaqueStride(_, _) => false,
        Atom::Quotient(_) => false,
    }
}

/// Whether an atom is that stride.
fn is_stride(a: &Atom, x: Id, k: u32) -> bool
    ensures { result ≡ same_atom (plain.OpaqueStride x.0 k) (plain_atom a.now) }
{
    match a {
        Atom::Variable(_) => false,
        Atom::EntryField(_, _) => false,
        Atom::UnknownField(_, _, _) => false,
        Atom::OpaqueStride(y, j) => x.0 == y.0 && k == *j,
        Atom::Quotient(_) => false,
    }
}

pub(crate) fn is_same_kind(a: Kind, b: Kind) -> bool
    ensures { result ≡ same_kind (control_kind a) (control_kind b) }
{
    match a {
        Kind::Size => is_size(b),
        Kind::Index => is_index(b),
        Kind::Bool => is_bool(b),
        Kind::Stride => is_stride_kind(b),
    }
}

fn is_size(b: Kind) -> bool
    ensures { result ≡ same_kind tree.Size (control_kind b) }
{
    match b {
        Kind::Size => true,
        Kind::Index => false,
        Kind::Bool => false,
        Kind::Stride => false,
    }
}

fn is_index(b: Kind) -> bool
    ensures { result ≡ same_kind tree.Index (control_kind b) }
{
    match b {
        Kind::Size => false,
        Kind::Index => true,
        Kind::Bool => false,
        Kind::Stride => false,
    }
}

fn is_bool(b: Kind) -> bool
    ensures { result ≡ same_kind tree.Truth (control_kind b) }
{
    match b {
        Kind::Size => false,
        Kind::Index => false,
        Kind::Bool => true,
        Kind::Stride => false,
    }
}

fn is_stride_kind(b: Kind) -> bool
    ensures { result ≡ same_kind tree.Stride (control_kind b) }
{
    match b {
        Kind::Size => false,
        Kind::Index => false,
        Kind::Bool => false,
        Kind::Stride => true,
    }
}

fn is_same_step(s: Step, t: Step) -> bool
    ensures { result ≡ same_step (step_taken s) (step_taken t) }
{
    let same_branch = match s.branch {
        Branch::Main => match t.branch {
            Branch::Main => true,
            Branch::Else => false,
        },
        Branch::Else => match t.branch {
            Branch::Main => false,
            Branch::Else => true,
        },
    };
    same_branch && s.index == t.index
}

/// Whether two paths have the same steps.
pub fn is_same_path(p: &[Step], q: &[Step]) -> bool
    ensures { result ≡ same_path (map step_taken p.now) (map step_taken q.now) }
{
    match p.split_first() {
        None => q.is_empty(),
        Some((s, rest)) => match q.split_first() {
            None => false,
            Some((t, others)) => is_same_step(*s, *t) && is_same_path(rest, others),
        },
    }
}
