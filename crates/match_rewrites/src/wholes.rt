//! Parameters that a callee's body hands on whole where the block hands on a window, while their
//! argument is the whole of a name.
ghost use Rattle.std.specs.Prelude.{◌≡◌, map, option_map};
ghost use Rattle.std.specs.Option.{option_copied};
ghost use Rattle.exo_tree.specs.Tree.{block};
ghost use Rattle.exo_tree.specs.PlainArgument.{argument};
ghost use Rattle.exo_tree.specs.PlainParam.{parameter};
ghost use Rattle.exo_tree.specs.PlainStatement.{statement};
ghost use Rattle.call_laws.specs.Replace.Rule as plain;
ghost use Rattle.check_claims.specs.Arguments.{passed_for};

use exo_tree::{Arg, Args, Block, Id, Param, Params, Stmt};

/// The argument of a parameter.
fn given_in<'a>(params: &[Param], args: &'a [Arg], x: Id) -> Option<&'a Arg>
    ensures { option_map argument (option_copied result)
        ≡ passed_for (map parameter params.now) (map argument args.now) x.0 }
{
    let (p, more) = params.split_first()?;
    let (a, rest) = args.split_first()?;
    if p.binder.id.0 == x.0 {
        return Some(a);
    }
    given_in(more, rest, x)
}

/// The parameters of a callee with the arguments that a match gives for them.
#[derive(Clone, Copy)]
pub(crate) struct Handing<'a> {
    pub(crate) params: &'a Params,
    pub(crate) args: &'a Args,
}

impl Handing<'_> {
    /// Whether the argument of a parameter is a window.
    fn takes_window(&self, x: Id) -> bool
        ensures { result ≡ plain.takes_window
            (passed_for self.now.params.now self.now.args.now)
            (passed_for self.now.params.now self.now.args.now x.0) }
    {
        matches!(
            given_in(self.params.as_slice(), self.args.as_slice(), x),
            Some(Arg::Window(_, _))
        )
    }

    /// Whether an argument of a call hands on a name whole whose argument is no window, and a
    /// window stands against it.
    fn hands_on(&self, a: &Arg, b: &Arg) -> bool
        ensures { result ≡ plain.hands_on (passed_for self.now.params.now self.now.args.now)
            (argument a.now) (argument b.now) }
    {
        match (a, b) {
            (Arg::Whole(x), Arg::Window(_, _)) => !self.takes_window(*x),
            _ => false,
        }
    }

    /// The same of one of two lists of arguments.
    fn hand_on(&self, ours: &[Arg], theirs: &[Arg]) -> bool
        ensures { result ≡ plain.hand_on (passed_for self.now.params.now self.now.args.now)
            (map argument ours.now) (map argument theirs.now) }
    {
        match (ours.split_first(), theirs.split_first()) {
            (Some((a, more)), Some((b, rest))) => self.hands_on(a, b) || self.hand_on(more, rest),
            _ => false,
        }
    }

    /// The same of a call in a statement.
    #[cycle(walk)]
    fn hands_on_in(&self, s: &Stmt, t: &Stmt) -> bool
        ensures { result ≡ plain.hands_on_in (passed_for self.now.params.now self.now.args.now)
            (statement s.now) (statement t.now) }
    {
        match (s, t) {
            (Stmt::If(_, a, b), Stmt::If(_, c, d)) => {
                self.hands_wholes(a, c) || self.hands_wholes(b, d)
            }
            (Stmt::For(_, _, _, b), Stmt::For(_, _, _, d)) => self.hands_wholes(b, d),
            (Stmt::Call(_, ours), Stmt::Call(_, theirs)) => {
                self.hand_on(ours.as_slice(), theirs.as_slice())
            }
            _ => false,
        }
    }

    /// The same of a block against another one.
    #[cycle(walk)]
    #[tactic(auto, using(crate::proofs::Together::one_hands, crate::proofs::Together::one_more, crate::proofs::Together::none_hands))]
    pub(crate) fn hands_wholes(&self, b: &Block, d: &Block) -> bool
        ensures { result ≡ plain.hands_wholes (passed_for self.now.params.now self.now.args.now)
            (block b.now) (block d.now) }
    {
        for k in 0..b.len().min(d.len()) {
            if self.hands_on_in(b.statement(k), d.statement(k)) {
                return true;
            }
        }
        false
    }
}
