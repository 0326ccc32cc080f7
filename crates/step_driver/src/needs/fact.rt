//! Conditions that hold, or that fail.
ghost use Rattle.std.specs.Prelude.{◌≡◌, ◌++◌, IfOk, OnOk, string_bytes};
ghost use Rattle.exo_tree.specs.PlainControl.{condition};
ghost use Rattle.text_show.specs.Seen.{words_in};
ghost use Rattle.affine_forms.specs.PlainFormulas.{plain_formula};
ghost use Rattle.step_rules.specs.Owing.{condition_of};
ghost use Rattle.step_driver.specs.Needs.PlainNeed.{plain_fact};
ghost use Rattle.step_driver.specs.Needs.Owing.{text_by, said};

use affine_forms::Formula;
use exo_tree::{Cond, Text};
use std::alloc::{AllocError, Global};
use text_show::{Words, put_condition};

/// A condition that holds, or that fails.
pub enum Fact {
    Holds(Cond),
    Fails(Cond),
}

impl Drop for Fact {
    fn drop(self) {
        match self {
            Self::Holds(_) | Self::Fails(_) => {}
        }
    }
}

impl Fact {
    /// The condition alone.
    pub(crate) fn condition(&self) -> &Cond
        ensures { condition result.now ≡ condition_of (plain_fact self.now) }
    {
        match self {
            Fact::Holds(c) => c,
            Fact::Fails(c) => c,
        }
    }

    /// What it says, by the formula of its condition.
    pub(crate) fn said(&self, alloc: Global, formula: Formula) -> Result<Formula, AllocError>
        ensures { IfOk result (λ f. plain_formula f ≡ said (plain_fact self.now) (plain_formula formula)) }
    {
        match self {
            Fact::Holds(_) => Ok(formula),
            Fact::Fails(_) => formula.negated(alloc),
        }
    }

    /// What it says, in the words of a procedure.
    pub(crate) fn text(&self, alloc: Global, words: &Words<'_>) -> Result<Text, AllocError>
        ensures { IfOk result (λ x. x ≡ text_by (words_in words.now) (plain_fact self.now)) }
    {
        let mut out = String::new(alloc);
        self.put_text(&mut out, words)?;
        Text::new(alloc, out.as_str())
    }

    /// Appends what it says.
    fn put_text(&self, out: &mut String, words: &Words<'_>) -> Result<(), AllocError>
        ensures { OnOk result (string_bytes out.new ≡ string_bytes out.old ++ text_by (words_in words.now) (plain_fact self.now)) }
    {
        match self {
            Fact::Holds(c) => put_condition(out, words, c),
            Fact::Fails(c) => {
                out.push_str("not (")?;
                put_condition(out, words, c)?;
                out.push_str(")")
            }
        }
    }
}
