//! Systems of linear equations and inequalities over numbered integer variables.
//!
//! A row stands for the inequality "its sum is at least 0", an equation for "its sum is 0".
//! The types keep their bounds, so that code which takes a system needs no test of its own;
//! two systems are compared and hashed by their numbers, so a system can be the key of a cache.
ghost use Rattle.std.specs.Prelude.{IsTrue, not, pos, map, length, is_some, nat_le, nat_lt, IfSome, ◌≡◌, ◌+◌, ◌≤◌, ◌&&◌};
ghost use Rattle.std.specs.List.{list_all};
ghost use Rattle.std.specs.Ordering.{int_eq};
ghost use Rattle.affine_forms.specs.Bounds.{is_narrow, is_increasing, are_below};
ghost use Rattle.affine_forms.specs.Hashed.{hashed_term};

use std::hash::{Hash, Hasher};

/// The greatest size of a number in a system.
const WIDEST: u128 = 1 << 100;

/// The most variables of a system.
const MOST_VARIABLES: u32 = 64;

/// The most equations and rows of a system together.
const MOST_ROWS: usize = 512;

/// Whether a number is at most 2^100 in size, as each number of a system is.
pub fn is_narrow(z: i128) -> bool
    ensures { result ≡ is_narrow z }
{
    z.unsigned_abs() <= WIDEST
}

/// A variable with its coefficient, which is not 0 and at most 2^100 in size.
#[derive(Clone, Copy, PartialEq, Eq, Drop)]
pub struct Term {
    pub variable: u32,
    pub coefficient: i128,
    pub ghost present: { IsTrue (not (int_eq coefficient (pos 0))) },
    pub ghost narrow: { IsTrue (is_narrow coefficient) },
}

impl Term {
    /// The term of a variable and its coefficient.
    pub fn new(variable: u32, coefficient: i128) -> Term
        requires present { IsTrue (not (int_eq coefficient (pos 0))) }
        requires narrow { IsTrue (is_narrow coefficient) }
        ensures variable { result.variable ≡ variable }
        ensures coefficient { result.coefficient ≡ coefficient }
    {
        Term {
            variable,
            coefficient,
        }
    }

    /// The term of a variable and its coefficient, or `None` where the coefficient is 0 or passes 2^100 in size.
    pub fn try_new(variable: u32, coefficient: i128) -> Option<Term>
        ensures fits { is_some result ≡ (not (int_eq coefficient (pos 0)) && is_narrow coefficient) }
        ensures term { IfSome result (λ t. (t.variable ≡ variable) × (t.coefficient ≡ coefficient)) }
    {
        if coefficient != 0 && is_narrow(coefficient) {
            Some(Term::new(variable, coefficient))
        } else {
            None
        }
    }
}

/// Of a term one number is hashed, which takes less time than its parts.
impl Hash for Term {
    ghost use Rattle.std.proofs.Common.{rules};
    ghost use Rattle.std.specs.Hash as fed;
    ghost use Rattle.std.specs.Cmp.Rules.{hashing};
    ghost use Rattle.affine_forms.specs.Hashed.{hashed_term};

    ghost hash_input = { λ t. fed.u64 (hashed_term t.variable t.coefficient) };

    ghost respects_eq = { Prim.search (hashing, rules) };

    fn hash<H: Hasher>(&self, state: &mut H) {
        state.write_u64(hashed_term(self.variable, self.coefficient));
    }
}

/// The low bits of a coefficient's size, its sign, and the low bits of its variable.
fn hashed_term(variable: u32, coefficient: i128) -> u64
    ensures { result ≡ hashed_term variable coefficient }
{
    let size = (coefficient.unsigned_abs() % 0x1_0000_0000_0000) as u64;
    let sign = if coefficient < 0 { 64 } else { 0 };
    size * 128 + sign + variable as u64 % 64
}

/// Whether the variables of the terms increase.
fn is_increasing(terms: &[Term]) -> bool
    ensures { result ≡ is_increasing (map (λ t. t.variable) terms.now) }
{
    let mut low = 0;
    for term in terms {
        let variable = term.variable as u64;
        if variable < low {
            return false;
        }
        low = variable + 1;
    }
    true
}

/// A sum of terms and a constant. The variables of the terms increase, so that each stands once; the constant is at most 2^100 in size.
#[derive(PartialEq, Eq, Hash)]
pub struct Row {
    pub terms: Vec<Term>,
    pub constant: i128,
    pub ghost increasing: { IsTrue (is_increasing (map (λ t. t.variable) terms.items)) },
    pub ghost narrow: { IsTrue (is_narrow constant) },
}

impl Drop for Row {
    fn drop(self) {
        let Self {
            terms: _,
            constant: _,
        } = self;
    }
}

impl Row {
    ghost use Rattle.std.specs.Prelude.{IsTrue, map, is_some, nat_lt, IfSome, ◌≡◌, ◌&&◌};
    ghost use Rattle.std.specs.List.{list_all};
    ghost use Rattle.affine_forms.specs.Bounds.{is_narrow, is_increasing};
    ghost use Rattle.affine_forms.specs.System.{coefficient_of};

    /// The row of terms, in the order of their variables, and a constant.
    pub fn new(terms: Vec<Term>, constant: i128) -> Row
        requires increasing { IsTrue (is_increasing (map (λ t. t.variable) terms.items)) }
        requires narrow { IsTrue (is_narrow constant) }
        ensures terms { result.terms ≡ terms }
        ensures constant { result.constant ≡ constant }
    {
        Row { terms, constant }
    }

    /// The row of terms and a constant, or `None` where the variables of the terms do not increase or the constant passes 2^100 in size.
    pub fn try_new(terms: Vec<Term>, constant: i128) -> Option<Row>
        ensures fits { is_some result ≡ (is_increasing (map (λ t. t.variable) terms.items) && is_narrow constant) }
        ensures row { IfSome result (λ r. (r.terms ≡ terms) × (r.constant ≡ constant)) }
    {
        if is_increasing(&terms) && is_narrow(constant) {
            Some(Row::new(terms, constant))
        } else {
            None
        }
    }

    /// Whether each variable of the row is below `n`.
    fn is_below(&self, n: u32) -> bool
        ensures { result ≡ list_all (λ x. nat_lt x n) (map (λ t. t.variable) self.now.terms.items) }
    {
        for term in &self.terms {
            if term.variable >= n {
                return false;
            }
        }
        true
    }

    /// The coefficient of a variable: 0 where no term names it.
    pub fn coefficient(&self, variable: u32) -> i128
        ensures { result ≡ coefficient_of self.now.terms.items variable }
    {
        for term in &self.terms {
            if term.variable == variable {
                return term.coefficient;
            }
        }
        0
    }
}

/// Whether each variable of the rows is below `n`.
fn are_below(n: u32, rows: &[Row]) -> bool
    ensures { result ≡ are_below n (map (λ r. map (λ t. t.variable) r.terms.items) rows.now) }
{
    for row in rows {
        if !row.is_below(n) {
            return false;
        }
    }
    true
}

/// Equations and rows over the variables `0 .. vars`: at most 64 variables, and at most 512 equations and rows together.
#[derive(PartialEq, Eq, Hash)]
pub struct System {
    pub vars: u32,
    pub equations: Vec<Row>,
    pub rows: Vec<Row>,
    pub ghost few_variables: { vars ≤ 64 },
    pub ghost few_rows: { length equations.items + length rows.items ≤ 512 },
    pub ghost equations_within: { IsTrue (are_below vars (map (λ r. map (λ t. t.variable) r.terms.items) equations.items)) },
    pub ghost rows_within: { IsTrue (are_below vars (map (λ r. map (λ t. t.variable) r.terms.items) rows.items)) },
}

impl Drop for System {
    fn drop(self) {
        let Self {
            vars: _,
            equations: _,
            rows: _,
        } = self;
    }
}

impl System {
    /// The system of equations and rows over `vars` variables.
    pub fn new(vars: u32, equations: Vec<Row>, rows: Vec<Row>) -> System
        requires few_variables { vars ≤ 64 }
        requires few_rows { length equations.items + length rows.items ≤ 512 }
        requires equations_within { IsTrue (are_below vars (map (λ r. map (λ t. t.variable) r.terms.items) equations.items)) }
        requires rows_within { IsTrue (are_below vars (map (λ r. map (λ t. t.variable) r.terms.items) rows.items)) }
        ensures vars { result.vars ≡ vars }
        ensures equations { result.equations ≡ equations }
        ensures rows { result.rows ≡ rows }
    {
        System {
            vars,
            equations,
            rows,
        }
    }

    /// The system of equations and rows over `vars` variables, or `None` where it would have more than 64 variables,
    /// more than 512 equations and rows together, or a variable that is not below `vars`.
    pub fn try_new(vars: u32, equations: Vec<Row>, rows: Vec<Row>) -> Option<System>
        ensures fits { is_some result
            ≡ (nat_le vars 64
            && (nat_le (length equations.items + length rows.items) 512
            && (are_below vars (map (λ r. map (λ t. t.variable) r.terms.items) equations.items)
            && are_below vars (map (λ r. map (λ t. t.variable) r.terms.items) rows.items)))) }
        ensures system { IfSome result (λ s. (s.vars ≡ vars) × (s.equations ≡ equations) × (s.rows ≡ rows)) }
    {
        let few = vars <= MOST_VARIABLES
            && equations.len() <= MOST_ROWS
            && rows.len() <= MOST_ROWS - equations.len();
        if few && are_below(vars, &equations) && are_below(vars, &rows) {
            Some(System::new(vars, equations, rows))
        } else {
            None
        }
    }
}
