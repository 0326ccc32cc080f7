//! Arguments in the place of names.
ghost use Rattle.std.specs.Prelude.{◌≡◌, ◌++◌, suc, map, IfOk, OnOk};
ghost use Rattle.exo_tree.specs.Tree as tree;
ghost use Rattle.exo_tree.specs.PlainArgument.{argument};
ghost use Rattle.exo_tree.specs.PlainControl.{control, condition, coordinate};
ghost use Rattle.inplace_laws.specs.Windows as windows;
ghost use Rattle.match_laws.specs.Inline.AtOnce as plain;
ghost use Rattle.tree_uses.specs.Given.{given_argument};
ghost use Rattle.tree_uses.specs.Moved.{put_coord, moved_by};

use crate::boxes::in_box;
use exo_tree::{Arg, Cond, Coord, Coords, Ctrl, Id, Indices};
use std::alloc::{AllocError, Global};

/// What stands for a name: a name, a window of one, or an argument.
#[derive(Clone, Copy)]
pub enum Given<'a> {
    Name(Id),
    Window(Id, &'a Coords),
    Argument(&'a Arg),
}

/// What is put in the place of names: an expression for a variable, a condition for a bool, an
/// argument for a buffer or view, and an id for what a block binds.
pub trait Puts {
    ghost use Rattle.std.specs.Prelude.{ℕ};
    ghost use Rattle.match_laws.specs.Inline.AtOnce as plain;

    ghost put: { Self → plain.Put };

    ghost to: { Self → ℕ → ℕ };

    /// The expression that stands for a control variable.
    fn variable(&self, alloc: Global, x: Id) -> Result<Ctrl, AllocError>
        ensures { IfOk result (λ e. control e ≡ (put self.now).variable x.0) };

    /// The condition that stands for a bool.
    fn flag(&self, alloc: Global, x: Id) -> Result<Cond, AllocError>
        ensures { IfOk result (λ c. condition c ≡ (put self.now).flag x.0) };

    /// What stands for a buffer or view.
    fn name(&self, x: Id) -> Given<'_>
        ensures { given_argument result ≡ (put self.now).name x.0 };

    /// The id that a binder gets.
    fn bound(&self, x: Id) -> Id
        ensures { result.0 ≡ to self.now x.0 };
}

/// The name of which an argument is a part; `x` where it is no buffer.
fn root_of(a: &Arg, x: Id) -> Id
    ensures { result.0 ≡ windows.root_in (argument a.now) x.0 }
{
    match a {
        Arg::Ctrl(_) => x,
        Arg::Cond(_) => x,
        Arg::Whole(y) => *y,
        Arg::Window(y, _) => *y,
    }
}

/// The coordinates of an argument; none where it is no window.
fn coords_of(a: &Arg) -> &[Coord]
    ensures { map coordinate result.now ≡ windows.coords_of (argument a.now) }
{
    match a {
        Arg::Window(_, coords) => coords.as_slice(),
        _ => &[],
    }
}

/// The name that stands for one, alone or with coordinates.
pub(crate) fn root_for<P: Puts>(puts: &P, x: Id) -> Id
    ensures { result.0 ≡ plain.root_for (P.put puts.now) x.0 }
{
    match puts.name(x) {
        Given::Name(y) => y,
        Given::Window(y, _) => y,
        Given::Argument(a) => root_of(a, x),
    }
}

/// The coordinates that stand with it.
pub(crate) fn coords_for<P: Puts>(puts: &P, x: Id) -> &[Coord]
    ensures { map coordinate result.now ≡ plain.coords_for (P.put puts.now) x.0 }
{
    match puts.name(x) {
        Given::Name(_) => &[],
        Given::Window(_, coords) => coords.as_slice(),
        Given::Argument(a) => coords_of(a),
    }
}

/// One more; what the program cannot hold is answered as want of memory.
pub fn one_more(k: u32) -> Result<u32, AllocError>
    ensures { IfOk result (λ n. n ≡ suc k) }
{
    match k.checked_add(1) {
        Some(n) => Ok(n),
        None => Err(AllocError),
    }
}

/// The coordinate over which coordinate `k` of a window runs: of its buffer.
pub fn nth_span(coords: &[Coord], k: u32) -> Result<u32, AllocError>
    ensures { IfOk result (λ n. n ≡ windows.nth_span (map coordinate coords.now) k) }
{
    match coords.split_first() {
        None => Ok(k),
        Some((Coord::At(_), rest)) => one_more(nth_span(rest, k)?),
        Some((Coord::Span(_, _), rest)) => {
            if k == 0 {
                return Ok(0);
            }
            one_more(nth_span(rest, k - 1)?)
        }
    }
}

/// An expression with what is put for its names.
#[cycle(put)]
pub fn put_control<P: Puts>(alloc: Global, puts: &P, e: &Ctrl) -> Result<Ctrl, AllocError>
    ensures { IfOk result (λ g. control g
        ≡ plain.put_control (P.put puts.now) (control e.now)) }
{
    match e {
        Ctrl::Lit(n) => Ok(Ctrl::Lit(*n)),
        Ctrl::Var(x) => puts.variable(alloc, *x),
        Ctrl::Field(f) => Ok(Ctrl::Field(*f)),
        Ctrl::Stride(x, k) => {
            let over = nth_span(coords_for(puts, *x), *k)?;
            Ok(Ctrl::Stride(root_for(puts, *x), over))
        }
        Ctrl::Neg(a) => Ok(Ctrl::Neg(boxed(alloc, puts, a)?)),
        Ctrl::Add(a, b) => {
            let (left, right) = boxed_with(alloc, puts, a, b)?;
            Ok(Ctrl::Add(left, right))
        }
        Ctrl::Sub(a, b) => {
            let (left, right) = boxed_with(alloc, puts, a, b)?;
            Ok(Ctrl::Sub(left, right))
        }
        Ctrl::Mul(a, b) => {
            let (left, right) = boxed_with(alloc, puts, a, b)?;
            Ok(Ctrl::Mul(left, right))
        }
        Ctrl::Div(a, n) => Ok(Ctrl::Div(boxed(alloc, puts, a)?, *n)),
        Ctrl::Mod(a, n) => Ok(Ctrl::Mod(boxed(alloc, puts, a)?, *n)),
    }
}

/// The same in a box.
#[cycle(put)]
fn boxed<P: Puts>(alloc: Global, puts: &P, e: &Ctrl) -> Result<Box<Ctrl>, AllocError>
    ensures { IfOk result (λ g. control g.value
        ≡ plain.put_control (P.put puts.now) (control e.now)) }
{
    in_box(alloc, put_control(alloc, puts, e)?)
}

/// The same of two expressions.
#[cycle(put)]
fn boxed_with<P: Puts>(
    alloc: Global,
    puts: &P,
    a: &Ctrl,
    b: &Ctrl,
) -> Result<(Box<Ctrl>, Box<Ctrl>), AllocError>
    ensures first { IfOk result (λ p. control p.0.value
        ≡ plain.put_control (P.put puts.now) (control a.now)) }
    ensures second { IfOk result (λ p. control p.1.value
        ≡ plain.put_control (P.put puts.now) (control b.now)) }
{
    let first = boxed(alloc, puts, a)?;
    Ok((first, boxed(alloc, puts, b)?))
}

/// The sum of an expression as it is and one with what is put for its names.
fn sum<P: Puts>(alloc: Global, puts: &P, a: &Ctrl, i: &Ctrl) -> Result<Ctrl, AllocError>
    ensures { IfOk result (λ g. control g
        ≡ tree.Add (control a.now) (plain.put_control (P.put puts.now) (control i.now))) }
{
    let left = in_box(alloc, a.duplicate(alloc)?)?;
    Ok(Ctrl::Add(left, boxed(alloc, puts, i)?))
}

/// A span that is moved by an expression.
fn moved_span<P: Puts>(
    alloc: Global,
    puts: &P,
    a: &Ctrl,
    low: &Ctrl,
    high: &Ctrl,
) -> Result<Coord, AllocError>
    ensures { IfOk result (λ c. coordinate c
        ≡ tree.Span
        (tree.Add (control a.now) (plain.put_control (P.put puts.now) (control low.now)))
        (tree.Add (control a.now) (plain.put_control (P.put puts.now) (control high.now)))) }
{
    let first = sum(alloc, puts, a, low)?;
    Ok(Coord::Span(first, sum(alloc, puts, a, high)?))
}

/// Puts the indices of a list last.
fn put_controls<P: Puts>(
    alloc: Global,
    puts: &P,
    at: &[Ctrl],
    made: &mut Indices,
) -> Result<(), AllocError>
    ensures { OnOk result (made.new
        ≡ made.old ++ plain.put_controls (P.put puts.now) (map control at.now)) }
{
    match at.split_first() {
        None => Ok(()),
        Some((e, rest)) => {
            made.push(put_control(alloc, puts, e)?)?;
            put_controls(alloc, puts, rest, made)
        }
    }
}

/// Puts the indices of a window last, as those of its root.
pub(crate) fn put_shifted<P: Puts>(
    alloc: Global,
    puts: &P,
    coords: &[Coord],
    at: &[Ctrl],
    made: &mut Indices,
) -> Result<(), AllocError>
    ensures { OnOk result (made.new ≡ made.old ++ windows.shifted (map coordinate coords.now)
        (plain.put_controls (P.put puts.now) (map control at.now))) }
{
    match coords.split_first() {
        None => put_controls(alloc, puts, at, made),
        Some((Coord::At(a), rest)) => {
            made.push(a.duplicate(alloc)?)?;
            put_shifted(alloc, puts, rest, at, made)
        }
        Some((Coord::Span(a, _), rest)) => match at.split_first() {
            None => Ok(()),
            Some((i, more)) => {
                made.push(sum(alloc, puts, a, i)?)?;
                put_shifted(alloc, puts, rest, more, made)
            }
        },
    }
}

/// Puts the coordinates of a list last.
fn put_coords<P: Puts>(
    alloc: Global,
    puts: &P,
    at: &[Coord],
    made: &mut Coords,
) -> Result<(), AllocError>
    ensures { OnOk result (made.new
        ≡ made.old ++ plain.put_coords (P.put puts.now) (map coordinate at.now)) }
{
    match at.split_first() {
        None => Ok(()),
        Some((Coord::At(a), rest)) => {
            made.push(Coord::At(put_control(alloc, puts, a)?))?;
            put_coords(alloc, puts, rest, made)
        }
        Some((Coord::Span(a, b), rest)) => {
            let low = put_control(alloc, puts, a)?;
            made.push(Coord::Span(low, put_control(alloc, puts, b)?))?;
            put_coords(alloc, puts, rest, made)
        }
    }
}

/// Puts the coordinates of a window last, as those of its root.
pub(crate) fn put_joined<P: Puts>(
    alloc: Global,
    puts: &P,
    coords: &[Coord],
    at: &[Coord],
    made: &mut Coords,
) -> Result<(), AllocError>
    ensures { OnOk result (made.new ≡ made.old ++ windows.joined_coords (map coordinate coords.now)
        (plain.put_coords (P.put puts.now) (map coordinate at.now))) }
{
    match coords.split_first() {
        None => put_coords(alloc, puts, at, made),
        Some((Coord::At(a), rest)) => {
            made.push(Coord::At(a.duplicate(alloc)?))?;
            put_joined(alloc, puts, rest, at, made)
        }
        Some((Coord::Span(a, _), rest)) => match at.split_first() {
            None => Ok(()),
            Some((c, more)) => {
                made.push(moved(alloc, puts, a, c)?)?;
                put_joined(alloc, puts, rest, more, made)
            }
        },
    }
}

/// A coordinate that is moved by an expression.
fn moved<P: Puts>(alloc: Global, puts: &P, a: &Ctrl, c: &Coord) -> Result<Coord, AllocError>
    ensures { IfOk result (λ d. coordinate d
        ≡ moved_by (control a.now) (put_coord (P.put puts.now) (coordinate c.now))) }
{
    match c {
        Coord::At(i) => Ok(Coord::At(sum(alloc, puts, a, i)?)),
        Coord::Span(low, high) => moved_span(alloc, puts, a, low, high),
    }
}
