//! Rows of a table of quotients.
ghost use Rattle.std.specs.Prelude.{◌≡◌, ◌<◌, ◌+◌, List, [], length, map, get_or, take, remove};
ghost use Rattle.std.specs.Prelude.{option_map, IfOk, IfSome, IsTrue, Some, None, false};
ghost use Rattle.std.specs.Prelude.{if◌then◌else◌};
ghost use Rattle.affine_forms.specs.Tables as plain;
ghost use Rattle.affine_forms.specs.Tables.{is_earlier, are_earlier, is_part, are_shares, is_row};
ghost use Rattle.affine_forms.specs.Tables.{is_row_at, moved_part, moved_share, known_part};
ghost use Rattle.affine_forms.specs.Tables.{known_share, share_taken, known_sum, are_alike};
ghost use Rattle.affine_forms.specs.Tables.{known_row, with_lines, is_known};
ghost use Rattle.affine_forms.specs.PlainTables.{plain_part, plain_share, plain_shares};
ghost use Rattle.affine_forms.specs.PlainTables.{plain_row, plain_rows};

use crate::leaf::Leaf;
use std::alloc::{AllocError, Global};
use std::marker::Model;

/// An atom of a row: one that is no quotient, or the quotient of an earlier row.
pub(crate) enum Part {
    Whole(Leaf),
    Earlier(usize),
}

impl Drop for Part {
    fn drop(self) {
        match self {
            Self::Whole(_) | Self::Earlier(_) => {}
        }
    }
}

impl Part {
    fn duplicate(&self) -> Result<Part, AllocError>
        ensures { IfOk result (λ p. plain_part p ≡ plain_part self.now) }
    {
        match self {
            Part::Whole(leaf) => Ok(Part::Whole(leaf.duplicate()?)),
            Part::Earlier(j) => Ok(Part::Earlier(*j)),
        }
    }

    /// Whether two parts are equal to the letter.
    fn is(&self, other: &Part) -> bool
        ensures { result ≡ is_part (plain_part self.now) (plain_part other.now) }
    {
        match self {
            Part::Whole(a) => match other {
                Part::Whole(b) => a.same(b),
                Part::Earlier(_) => false,
            },
            Part::Earlier(i) => match other {
                Part::Whole(_) => false,
                Part::Earlier(j) => *i == *j,
            },
        }
    }

    /// The part with the new number of the row that it names.
    fn moved(&self, numbers: &[usize]) -> Result<Part, AllocError>
        requires { IsTrue (is_earlier (length numbers.now) (plain_part self.now)) }
        ensures { IfOk result (λ p. plain_part p ≡ moved_part numbers.now (plain_part self.now)) }
    {
        match self {
            Part::Whole(leaf) => Ok(Part::Whole(leaf.duplicate()?)),
            Part::Earlier(j) => Ok(Part::Earlier(numbers[*j])),
        }
    }

    /// Whether two parts of different tables are equal.
    fn same(&self, other: &Part, lines: &[Line]) -> bool
        ensures { result ≡ known_part lines.now (plain_part self.now) (plain_part other.now) }
    {
        match self {
            Part::Whole(a) => match other {
                Part::Whole(b) => a.same(b),
                Part::Earlier(_) => false,
            },
            Part::Earlier(i) => match other {
                Part::Whole(_) => false,
                Part::Earlier(j) => is_known(lines, *i, *j),
            },
        }
    }
}

/// A part with its coefficient.
pub(crate) struct Share {
    pub(crate) coefficient: i128,
    pub(crate) part: Part,
}

impl Drop for Share {
    fn drop(self) {
        let Self {
            coefficient: _,
            part: _,
        } = self;
    }
}

impl Share {
    fn duplicate(&self) -> Result<Share, AllocError>
        ensures { IfOk result (λ s. plain_share s ≡ plain_share self.now) }
    {
        Ok(Share {
            coefficient: self.coefficient,
            part: self.part.duplicate()?,
        })
    }

    /// The share with the new number of the row that it names.
    fn moved(&self, numbers: &[usize]) -> Result<Share, AllocError>
        requires { IsTrue (is_earlier (length numbers.now) (plain_part self.now.part)) }
        ensures { IfOk result (λ s. plain_share s
            ≡ moved_share numbers.now (plain_share self.now)) }
    {
        Ok(Share {
            coefficient: self.coefficient,
            part: self.part.moved(numbers)?,
        })
    }

    /// Whether two shares of different tables are equal.
    fn same(&self, other: &Share, lines: &[Line]) -> bool
        ensures { result ≡ known_share lines.now (plain_share self.now) (plain_share other.now) }
    {
        self.part.same(&other.part, lines) && self.coefficient == other.coefficient
    }
}

/// Whether two sums are equal to the letter.
fn are_shares(shares: &[Share], others: &[Share]) -> bool
    ensures { result ≡ are_shares (plain_shares shares.now) (plain_shares others.now) }
{
    match shares.split_first() {
        None => others.is_empty(),
        Some((s, rest)) => match others.split_first() {
            None => false,
            Some((t, more)) => {
                (s.coefficient == t.coefficient && s.part.is(&t.part)) && are_shares(rest, more)
            }
        },
    }
}

/// Copies of shares.
fn duplicates(alloc: Global, shares: &[Share]) -> Result<Vec<Share>, AllocError>
    ensures { IfOk result (λ v. plain_shares v.items ≡ plain_shares shares.now) }
{
    let mut made = Vec::new(alloc);
    for s in shares {
        made.push(s.duplicate()?)?;
    }
    Ok(made)
}

/// The place of the first share that is equal.
fn place_in(shares: &[Share], s: &Share, lines: &[Line]) -> Option<usize>
    ensures taken { share_taken lines.now (plain_share s.now) (plain_shares shares.now)
        ≡ option_map (remove (plain_shares shares.now)) result }
    ensures inside { IfSome result (λ k. k < length shares.now) }
{
    for (k, other) in shares.iter().enumerate() {
        if s.same(other, lines) {
            return Some(k);
        }
    }
    None
}

/// Takes the first share that is equal out, and says whether there was one.
fn take_out(shares: &mut Vec<Share>, s: &Share, lines: &[Line]) -> bool
    ensures { share_taken lines.now (plain_share s.now) (plain_shares shares.old.items)
        ≡ (if result then Some (plain_shares shares.new.items) else None) }
{
    match place_in(shares.as_slice(), s, lines) {
        Some(k) => {
            let _taken = shares.remove(k);
            true
        }
        None => false,
    }
}

/// Whether each share of the first can be taken out of the second, and nothing is left.
fn is_same_sum(
    alloc: Global,
    shares: &[Share],
    others: &[Share],
    lines: &[Line],
) -> Result<bool, AllocError>
    ensures { IfOk result (λ b. b
        ≡ known_sum lines.now (plain_shares shares.now) (plain_shares others.now)) }
{
    let mut left = duplicates(alloc, others)?;
    for s in shares {
        if !take_out(&mut left, s, lines) {
            return Ok(false);
        }
    }
    Ok(left.is_empty())
}

/// The quotient of a constant and a sum by a literal.
pub(crate) struct QuotientRow {
    pub(crate) constant: i128,
    pub(crate) terms: Vec<Share>,
    pub(crate) by: i64,
}

impl Drop for QuotientRow {
    fn drop(self) {
        let Self {
            constant: _,
            terms: _,
            by: _,
        } = self;
    }
}

impl QuotientRow {
    /// Whether two rows are equal to the letter.
    fn is(&self, other: &QuotientRow) -> bool
        ensures { result ≡ is_row (plain_row self.now) (plain_row other.now) }
    {
        (self.constant == other.constant && self.by == other.by)
            && are_shares(&self.terms, &other.terms)
    }

    /// The row with the new numbers of the rows that it names.
    pub(crate) fn moved(&self, alloc: Global, numbers: &[usize]) -> Result<QuotientRow, AllocError>
        requires { IsTrue (are_earlier (length numbers.now) (plain_shares self.now.terms.items)) }
        ensures { IfOk result (λ r. plain_row r ≡ record (plain_row self.now) {
          terms = map (moved_share numbers.now) (plain_shares self.now.terms.items);
        }) }
    {
        let mut terms = Vec::new(alloc);
        for s in &self.terms {
            terms.push(s.moved(numbers)?)?;
        }
        Ok(QuotientRow {
            constant: self.constant,
            terms,
            by: self.by,
        })
    }

    /// Whether the constants, the literals and the numbers of terms are equal.
    pub(crate) fn is_alike(&self, other: &QuotientRow) -> bool
        ensures { result ≡ are_alike (plain_row self.now) (plain_row other.now) }
    {
        (self.constant == other.constant && self.by == other.by)
            && self.terms.len() == other.terms.len()
    }

    /// Whether two rows of different tables are equal.
    fn same(&self, alloc: Global, other: &QuotientRow, lines: &[Line]) -> Result<bool, AllocError>
        ensures { IfOk result (λ b. b
            ≡ known_row lines.now (plain_row self.now) (plain_row other.now)) }
    {
        if !self.is_alike(other) {
            return Ok(false);
        }
        is_same_sum(alloc, &self.terms, &other.terms, lines)
    }
}

/// The number of a row that is equal to the letter.
pub(crate) fn place_of(rows: &[QuotientRow], row: &QuotientRow) -> Option<usize>
    ensures { IfSome result (λ k. IsTrue (is_row_at (plain_row row.now) (plain_rows rows.now) k)) }
{
    for (k, other) in rows.iter().enumerate() {
        if row.is(other) {
            return Some(k);
        }
    }
    None
}

/// To which rows of another table a row is equal.
#[derive(Drop)]
pub(crate) struct Line {
    cells: Vec<bool>,
}

impl Model for Line {
    ghost use Rattle.std.specs.Prelude.{List, Bool};

    ghost Value = { List Bool };

    ghost view = { λ l. l.cells.items };
}

impl Line {
    fn has(&self, j: usize) -> bool
        ensures { result ≡ get_or self.now j false }
    {
        match self.cells.get(j) {
            Some(cell) => *cell,
            None => false,
        }
    }
}

/// Whether two rows are known to be equal.
fn is_known(lines: &[Line], i: usize, j: usize) -> bool
    ensures { result ≡ is_known lines.now i j }
{
    match lines.get(i) {
        Some(line) => line.has(j),
        None => false,
    }
}

/// The line of a row, by those of the rows before it.
fn line_of(
    alloc: Global,
    row: &QuotientRow,
    others: &[QuotientRow],
    lines: &[Line],
) -> Result<Line, AllocError>
    ensures { IfOk result (λ l. l
        ≡ map (known_row lines.now (plain_row row.now)) (plain_rows others.now)) }
{
    let mut cells = Vec::new(alloc);
    for other in others {
        cells.push(row.same(alloc, other, lines)?)?;
    }
    Ok(Line { cells })
}

/// The lines of rows, each over the earlier ones.
fn lines(
    alloc: Global,
    rows: &[QuotientRow],
    others: &[QuotientRow],
) -> Result<Vec<Line>, AllocError>
    ensures { IfOk result (λ v. v.items
        ≡ with_lines [] (plain_rows rows.now) (plain_rows others.now)) }
{
    let mut lines = Vec::new(alloc);
    for row in rows {
        let next = line_of(alloc, row, others, &lines)?;
        lines.push(next)?;
    }
    Ok(lines)
}

/// The rows up to one of them, and that one.
fn rows_to(rows: &[QuotientRow], last: usize) -> &[QuotientRow]
    requires { last < length rows.now }
    ensures { result.now ≡ take (last + 1) rows.now }
{
    &rows[..last + 1]
}

/// Whether two rows of different tables are equal. The rows after them are not looked at.
pub(crate) fn are_same(
    alloc: Global,
    rows: &[QuotientRow],
    i: usize,
    others: &[QuotientRow],
    j: usize,
) -> Result<bool, AllocError>
    requires inside { i < length rows.now }
    requires other_inside { j < length others.now }
    ensures { IfOk result (λ b. b
        ≡ is_known (with_lines [] (plain_rows (take (i + 1) rows.now))
        (plain_rows (take (j + 1) others.now))) i j) }
{
    let first = rows_to(rows, i);
    let second = rows_to(others, j);
    let made = lines(alloc, first, second)?;
    Ok(is_known(&made, i, j))
}
