//! What the program keeps, each law the contract of a function with nothing to do.

ghost use Rattle.exo_cli.specs.Work.{AnswersAreUnique, EndsAreComplete};

use compile_stages::laws::ends_are_one;

/// The words and the files have one answer.
pub fn answers_are_unique()
    ensures { AnswersAreUnique }
{
    ends_are_one();
}

/// Where the files are told and nothing failed, the program ends with the answer, or for want of memory.
pub fn ends_are_complete()
    ensures { EndsAreComplete }
{
    ends_are_one();
}
