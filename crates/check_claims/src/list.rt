//! Lists of claims.
ghost use Rattle.std.specs.Prelude.{◌≡◌, [], ◌∷◌, ◌++◌, map, OnOk};
ghost use Rattle.exo_tree.specs.Tree as tree;
ghost use Rattle.exo_tree.specs.PlainControl.{control, condition};
ghost use Rattle.text_show.specs.ControlText.{condition_text};
ghost use Rattle.text_show.specs.Seen.{words_in};
ghost use Rattle.check_claims.specs.Claim as plain;
ghost use Rattle.check_claims.specs.PlainClaim.{claim, placed};
ghost use Rattle.check_claims.specs.Claims.{as_shown, placed_at};
ghost use Rattle.check_claims.specs.Orders.{compared};

use crate::claim::{Claim, Placed};
use exo_tree::{Cond, Ctrl, Path};
use std::alloc::{AllocError, Global};
use std::marker::Model;
use text_show::{Words, put_condition};

/// How two sides compare.
#[derive(Clone, Copy)]
pub(crate) enum Order {
    /// `a < b`
    Below,
    /// `a <= b`
    AtMost,
}

impl Order {
    ghost use Rattle.std.specs.Prelude.{◌≡◌};
    ghost use Rattle.exo_tree.specs.PlainControl.{control, condition};
    ghost use Rattle.check_claims.specs.Orders.{compared};

    /// The condition that the sides compare so.
    fn of(self, left: Ctrl, right: Ctrl) -> Cond
        ensures { condition result ≡ compared self (control left) (control right) }
    {
        match self {
            Order::Below => Cond::Lt(left, right),
            Order::AtMost => Cond::Le(left, right),
        }
    }
}

/// Claims in their order.
#[derive(Drop)]
pub(crate) struct Claims {
    items: Vec<Claim>,
}

impl Model for Claims {
    ghost use Rattle.std.specs.Prelude.{List, map};
    ghost use Rattle.std.specs.Coded.{coded_list};
    ghost use Rattle.check_claims.specs.Claim.{Claim};
    ghost use Rattle.check_claims.specs.ClaimCodes.{claim_code};
    ghost use Rattle.check_claims.specs.PlainClaim.{claim};

    ghost Value = { List Claim };

    ghost coded = { coded_list claim_code };

    ghost view = { λ l. map claim l.items.items };
}

impl Claims {
    pub(crate) fn new(alloc: Global) -> Claims
        ensures { result ≡ [] }
    {
        Claims {
            items: Vec::new(alloc),
        }
    }

    /// Puts a claim last.
    fn push(&mut self, item: Claim) -> Result<(), AllocError>
        ensures { OnOk result (self.new ≡ self.old ++ claim item ∷ []) }
    {
        self.items.push(item)?;
        Ok(())
    }

    /// Puts last that the arguments of those numbers have no cell in common.
    pub(crate) fn push_apart(&mut self, j: u32, k: u32) -> Result<(), AllocError>
        ensures { OnOk result (self.new ≡ self.old ++ plain.Apart j k ∷ []) }
    {
        self.push(Claim::Apart(j, k))
    }

    /// Puts last that a condition holds, with the text of another condition in its words.
    pub(crate) fn push_quoted(
        &mut self,
        alloc: Global,
        says: Cond,
        words: &Words,
        quoted: &Cond,
    ) -> Result<(), AllocError>
        ensures { OnOk result
            (self.new
            ≡ self.old
            ++ plain.Is (condition says)
            (condition_text (words_in words.now) (condition quoted.now)) ∷ []) }
    {
        let says = Box::new(alloc, says)?;
        let mut text = String::new(alloc);
        put_condition(&mut text, words, quoted)?;
        self.push(Claim::Is(says, text))
    }

    /// Puts last that a condition holds.
    pub(crate) fn push_shown(
        &mut self,
        alloc: Global,
        words: &Words,
        says: Cond,
    ) -> Result<(), AllocError>
        ensures { OnOk result (self.new ≡ self.old ++ as_shown (words_in words.now) (condition says) ∷ []) }
    {
        let says = Box::new(alloc, says)?;
        let mut text = String::new(alloc);
        put_condition(&mut text, words, &says)?;
        self.push(Claim::Is(says, text))
    }

    /// `n <= e`
    pub(crate) fn push_at_least(
        &mut self,
        alloc: Global,
        words: &Words,
        n: i64,
        e: &Ctrl,
    ) -> Result<(), AllocError>
        ensures { OnOk result (self.new ≡ self.old ++ as_shown (words_in words.now) (tree.Le (tree.Lit n) (control e.now)) ∷ []) }
    {
        let value = e.duplicate(alloc)?;
        self.push_shown(alloc, words, Cond::Le(Ctrl::Lit(n), value))
    }

    /// That two sides compare.
    pub(crate) fn push_compared(
        &mut self,
        alloc: Global,
        words: &Words,
        order: Order,
        a: &Ctrl,
        b: &Ctrl,
    ) -> Result<(), AllocError>
        ensures { OnOk result (self.new ≡ self.old ++ as_shown (words_in words.now) (compared order (control a.now) (control b.now)) ∷ []) }
    {
        let left = a.duplicate(alloc)?;
        let right = b.duplicate(alloc)?;
        self.push_shown(alloc, words, order.of(left, right))
    }

    /// Moves the claims to the end of `out`, each with that place.
    pub(crate) fn place(self, out: &mut Vec<Placed>, path: &Path) -> Result<(), AllocError>
        ensures { OnOk result (map placed out.new.items ≡ map placed out.old.items ++ placed_at path.now self) }
    {
        let Claims { items } = self;
        place_each(out, path, items)
    }
}

/// Moves claims to the end of `out`, each with that place.
fn place_each(out: &mut Vec<Placed>, path: &Path, claims: Vec<Claim>) -> Result<(), AllocError>
    ensures { OnOk result (map placed out.new.items ≡ map placed out.old.items ++ placed_at path.now (map claim claims.items)) }
{
    for claim in claims {
        let place = path.duplicate();
        out.push(Placed { place, claim })?;
    }
    Ok(())
}
