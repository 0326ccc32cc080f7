//! The callee's expressions in the block's names.
ghost use Rattle.std.specs.Prelude.{◌≡◌, is_some, option_map, IfOk};
ghost use Rattle.exo_tree.specs.PlainControl.{control, condition};
ghost use Rattle.match_laws.specs.Moved as plain;
ghost use Rattle.block_matches.specs.Known.{knows, knows_condition};
ghost use Rattle.block_matches.specs.PlainMoving.{plain_moving};

use crate::determined::Determined;
use crate::given::Given;
use crate::pairs::is_param;
use crate::partners::Partners;
use exo_tree::{Cond, Ctrl, Id, Proc};
use std::alloc::{AllocError, Global};
use tree_uses::{Given as Stands, Puts, Putting, put_control, used_condition};

/// What stands for the names of a callee: partners for what its body binds, and what is given for
/// its parameters.
#[derive(Clone, Copy)]
pub(crate) struct Moving<'a> {
    pub(crate) callee: &'a Proc,
    pub(crate) to: &'a Partners,
    pub(crate) given: &'a Determined<'a>,
}

impl Puts for Moving<'_> {
    ghost use Rattle.block_matches.specs.PlainMoving.{puts_in};

    ghost put = { puts_in };

    ghost to = { λ m x. x };

    fn variable(&self, alloc: Global, x: Id) -> Result<Ctrl, AllocError> {
        if !is_param(self.callee.params.as_slice(), x) {
            return match self.to.get(x) {
                Some(y) => Ok(Ctrl::Var(y)),
                None => Ok(Ctrl::Var(x)),
            };
        }
        match self.given.get(x) {
            Some(Given::Number(e)) => e.duplicate(alloc),
            _ => Ok(Ctrl::Var(x)),
        }
    }

    fn flag(&self, alloc: Global, x: Id) -> Result<Cond, AllocError> {
        match self.given.get(x) {
            Some(Given::Truth(c)) => c.duplicate(alloc),
            _ => Ok(Cond::Var(x)),
        }
    }

    fn name(&self, x: Id) -> Stands<'_> {
        if !is_param(self.callee.params.as_slice(), x) {
            return match self.to.get(x) {
                Some(y) => Stands::Name(y),
                None => Stands::Name(x),
            };
        }
        match self.given.get(x) {
            Some(Given::Whole(y)) => Stands::Name(y),
            Some(Given::Window(y, coords)) => Stands::Window(y, coords),
            _ => Stands::Name(x),
        }
    }

    fn bound(&self, x: Id) -> Id {
        x
    }
}

impl Moving<'_> {
    /// Whether an expression stands for a variable.
    fn knows_variable(&self, x: Id) -> bool
        ensures { result ≡ is_some ((plain_moving self.now).variable x.0) }
    {
        if !is_param(self.callee.params.as_slice(), x) {
            return self.to.get(x).is_some();
        }
        matches!(self.given.get(x), Some(Given::Number(_)))
    }

    /// Whether a condition stands for a bool.
    fn knows_flag(&self, x: Id) -> bool
        ensures { result ≡ is_some ((plain_moving self.now).flag x.0) }
    {
        matches!(self.given.get(x), Some(Given::Truth(_)))
    }

    /// Whether a buffer stands for a name.
    fn knows_buffer(&self, x: Id) -> bool
        ensures { result ≡ is_some ((plain_moving self.now).stride x.0 0) }
    {
        if !is_param(self.callee.params.as_slice(), x) {
            return self.to.get(x).is_some();
        }
        matches!(
            self.given.get(x),
            Some(Given::Whole(_) | Given::Window(_, _))
        )
    }

    /// Whether all names of an expression are known.
    fn knows(&self, e: &Ctrl) -> bool
        ensures { result ≡ knows (plain_moving self.now) (control e.now) }
    {
        match e {
            Ctrl::Lit(_) => true,
            Ctrl::Var(x) => self.knows_variable(*x),
            Ctrl::Field(_) => true,
            Ctrl::Stride(x, _) => self.knows_buffer(*x),
            Ctrl::Neg(a) => self.knows(a),
            Ctrl::Add(a, b) => self.knows(a) && self.knows(b),
            Ctrl::Sub(a, b) => self.knows(a) && self.knows(b),
            Ctrl::Mul(a, b) => self.knows(a) && self.knows(b),
            Ctrl::Div(a, _) => self.knows(a),
            Ctrl::Mod(a, _) => self.knows(a),
        }
    }

    /// Whether all names of a condition are known.
    fn knows_condition(&self, c: &Cond) -> bool
        ensures { result ≡ knows_condition (plain_moving self.now) (condition c.now) }
    {
        match c {
            Cond::True => true,
            Cond::False => true,
            Cond::Var(x) => self.knows_flag(*x),
            Cond::Field(_) => true,
            Cond::Lt(a, b) => self.knows(a) && self.knows(b),
            Cond::Le(a, b) => self.knows(a) && self.knows(b),
            Cond::Gt(a, b) => self.knows(a) && self.knows(b),
            Cond::Ge(a, b) => self.knows(a) && self.knows(b),
            Cond::Eq(a, b) => self.knows(a) && self.knows(b),
            Cond::And(a, b) => self.knows_condition(a) && self.knows_condition(b),
            Cond::Or(a, b) => self.knows_condition(a) && self.knows_condition(b),
        }
    }

    /// An expression in the block's names; None where something in it is not known.
    #[tactic(auto, using(crate::proofs::AllKnown::is_moved, crate::proofs::AllKnown::is_unknown))]
    pub(crate) fn moved(&self, alloc: Global, e: &Ctrl) -> Result<Option<Ctrl>, AllocError>
        ensures { IfOk result (λ o. option_map control o
            ≡ plain.moved (plain_moving self.now) (control e.now)) }
    {
        if !self.knows(e) {
            return Ok(None);
        }
        Ok(Some(put_control(alloc, self, e)?))
    }

    /// A condition in the block's names.
    #[tactic(auto, using(crate::proofs::AllKnown::condition_moved, crate::proofs::AllKnown::condition_unknown))]
    pub(crate) fn moved_condition(
        &self,
        alloc: Global,
        c: &Cond,
    ) -> Result<Option<Box<Cond>>, AllocError>
        ensures { IfOk result (λ o. option_map (λ b. condition b.value) o
            ≡ plain.moved_condition (plain_moving self.now) (condition c.now)) }
    {
        if !self.knows_condition(c) {
            return Ok(None);
        }
        // nothing of what is put is too wide
        match used_condition(alloc, &Putting { puts: self }, c) {
            Ok(made) => Ok(Some(Box::new(alloc, made)?)),
            Err(_) => Err(AllocError),
        }
    }
}
