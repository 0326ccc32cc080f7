//! What is true of all lines, each law the contract of a function with nothing to do.
ghost use Rattle.schedule_calls.specs.Answers.{LinesAskOnce};
ghost use Rattle.schedule_calls.specs.Instance.{LinesInstance, FormsInstance};

use exo_reader::laws as texts;
use exo_reader::laws::{expressions_are_one, windows_are_one};
use schedule_text::patterns::laws::{expr_patterns_are_one, patterns_are_one, text_instance};

/// A line asks for one thing, and one whose operator is unknown for none.
pub fn lines_ask_once()
    ensures { LinesAskOnce }
{
    patterns_are_one();
    expr_patterns_are_one();
    expressions_are_one();
    windows_are_one();
}

/// Lines of each form, and some that ask for nothing.
pub fn line_instance()
    ensures { LinesInstance }
{
    text_instance();
    texts::text_instance();
    expressions_are_one();
}

/// Arguments of each form, and some that ask for nothing.
pub fn form_instance()
    ensures { FormsInstance }
{
    text_instance();
    texts::text_instance();
    windows_are_one();
}
