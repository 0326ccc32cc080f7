// Why a line of a schedule is refused, in the words of messages.
ghost use Rattle.std.specs.Prelude.{◌≡◌, ◌++◌, ◌∷◌, Some, option_map, IfOk, OnOk, string_bytes};
ghost use Rattle.std.specs.Prelude.{codes, flat_map, map};
ghost use Rattle.exo_tree.specs.PlainPlace.{step_taken};
ghost use Rattle.cursor_forward.specs.PlainProposal.{cause_of};
ghost use Rattle.schedule_run.specs.PlainWhy.{plain_missing};
ghost use Rattle.schedule_run.specs.PlainWhy as run;
ghost use Rattle.cursor_forward.specs.PlainProposal.{fault_of};
ghost use Rattle.compile_stages.specs.Stopping.{plain_why};
ghost use Rattle.compile_stages.specs.Kinds.{cause_text, fault_text, list_text, missing_text};
ghost use Rattle.compile_stages.specs.Kinds.{open_text, path_text, step_text, why_text};

use crate::kinds::verdict_text;
use affine_forms::FormError;
use affine_prover::Verdict;
use bounds_check::CheckError;
use cursor_forward::StepError;
use exo_tree::{Branch, Path, Step, Text};
use schedule_run::{Missing, Why};
use std::alloc::{AllocError, Global};

/// A claim that is not shown, and the word of the verdict on it.
fn not_shown(alloc: Global, what: &str, word: &str) -> Result<String, AllocError>
    ensures { IfOk result
        (λ text. string_bytes text ≡ codes "NotShown " ++ what.now ++ codes " " ++ word.now) }
{
    let mut out = String::from_str(alloc, "NotShown ")?;
    out.push_str(what)?;
    out.push_str(" ")?;
    out.push_str(word)?;
    Ok(out)
}

/// A claim that is not shown, and the verdict on it.
pub(crate) fn open_text(alloc: Global, what: &Text, verdict: Verdict) -> Result<String, AllocError>
    ensures { IfOk result (λ text. string_bytes text ≡ open_text what.now verdict) }
{
    not_shown(alloc, what.as_str(), verdict_text(verdict))
}

/// A step of a path.
fn put_step(alloc: Global, out: &mut String, step: &Step) -> Result<(), AllocError>
    ensures { OnOk result
        (string_bytes out.new ≡ string_bytes out.old ++ step_text (step_taken step.now)) }
{
    let index = step.index;
    let text = match step.branch {
        Branch::Main => format!(in alloc; "{index}")?,
        Branch::Else => format!(in alloc; "e{index}")?,
    };
    out.push_str(&text)
}

/// The steps of a path behind its first.
fn put_more(alloc: Global, out: &mut String, steps: &[Step]) -> Result<(), AllocError>
    ensures { OnOk result (string_bytes out.new
        ≡ string_bytes out.old
        ++ flat_map (λ s. codes "." ++ step_text s) (map step_taken steps.now)) }
{
    for step in steps {
        out.push_str(".")?;
        put_step(alloc, out, step)?;
    }
    Ok(())
}

/// A path of no step or more.
fn put_path(alloc: Global, out: &mut String, path: &Path) -> Result<(), AllocError>
    ensures { OnOk result (string_bytes out.new ≡ string_bytes out.old ++ path_text path.now) }
{
    let Some((first, more)) = path.as_slice().split_first() else {
        return Ok(());
    };
    put_step(alloc, out, first)?;
    put_more(alloc, out, more)
}

/// The first place that does not match.
fn no_match(alloc: Global, path: &Path) -> Result<String, AllocError>
    ensures { IfOk result (λ text. string_bytes text ≡ codes "NoMatch " ++ path_text path.now) }
{
    let mut out = String::from_str(alloc, "NoMatch ")?;
    put_path(alloc, &mut out, path)?;
    Ok(out)
}

/// A parameter that nothing determines.
fn undetermined(alloc: Global, name: &str) -> Result<String, AllocError>
    ensures { IfOk result (λ text. string_bytes text ≡ codes "Undetermined " ++ name.now) }
{
    format!(in alloc; "Undetermined {name}")
}

/// Why a normal form or a list of systems is refused; none for want of memory.
fn fault_text(alloc: Global, error: FormError) -> Result<String, AllocError>
    ensures { IfOk result
        (λ text. option_map fault_text (fault_of error) ≡ Some (string_bytes text)) }
{
    match error {
        FormError::WideNumber => String::from_str(alloc, "WideNumber"),
        FormError::TooManyCases => String::from_str(alloc, "TooManyCases"),
        FormError::SystemTooLarge => String::from_str(alloc, "SystemTooLarge"),
        FormError::TooManySystems => String::from_str(alloc, "TooManySystems"),
        FormError::Memory => Err(AllocError),
    }
}

/// Why obligations can't be listed; none for want of memory and for what no list is refused for.
fn list_text(alloc: Global, error: CheckError) -> Result<String, AllocError>
    ensures { IfOk result
        (λ text. option_map list_text (run.fault_of error) ≡ Some (string_bytes text)) }
{
    match error {
        CheckError::TooManyObligations => String::from_str(alloc, "TooManyObligations"),
        CheckError::Form(FormError::TooManyCases) => String::from_str(alloc, "TooManyCases"),
        CheckError::Form(FormError::SystemTooLarge) => String::from_str(alloc, "SystemTooLarge"),
        CheckError::Form(FormError::WideNumber) => String::from_str(alloc, "WideNumber"),
        CheckError::Form(FormError::TooManySystems | FormError::Memory) | CheckError::Memory => {
            Err(AllocError)
        }
    }
}

/// Why a step is refused; none for want of memory.
fn cause_text(alloc: Global, cause: &StepError) -> Result<String, AllocError>
    ensures { IfOk result
        (λ text. option_map cause_text (cause_of cause.now) ≡ Some (string_bytes text)) }
{
    match cause {
        StepError::WrongShape => String::from_str(alloc, "WrongShape"),
        StepError::OutOfScope => String::from_str(alloc, "OutOfScope"),
        StepError::NameTaken => String::from_str(alloc, "NameTaken"),
        StepError::LimitPassed => String::from_str(alloc, "LimitPassed"),
        StepError::ConfigWrite => String::from_str(alloc, "ConfigWrite"),
        StepError::ConfigLive => String::from_str(alloc, "ConfigLive"),
        StepError::NotIdempotent => String::from_str(alloc, "NotIdempotent"),
        StepError::Aliased => String::from_str(alloc, "Aliased"),
        StepError::StrideUsed => String::from_str(alloc, "StrideUsed"),
        StepError::NotOnlyReduced => String::from_str(alloc, "NotOnlyReduced"),
        StepError::StillUsed => String::from_str(alloc, "StillUsed"),
        StepError::NotDescendant => String::from_str(alloc, "NotDescendant"),
        StepError::SharedArgument => String::from_str(alloc, "SharedArgument"),
        StepError::NoMatch(path) => no_match(alloc, path),
        StepError::Undetermined(name) => undetermined(alloc, name.as_str()),
        StepError::Form(e) => fault_text(alloc, *e),
        StepError::Memory => Err(AllocError),
    }
}

/// What is missing where a cursor is asked.
fn missing_text(missing: Missing) -> &'static str
    ensures { result.now ≡ missing_text (plain_missing missing) }
{
    match missing {
        Missing::UnknownCursor => "UnknownCursor",
        Missing::NoSuchPattern => "NoSuchPattern",
        Missing::NoNeighbour => "NoNeighbour",
        Missing::CursorGone => "CursorGone",
    }
}

/// Why a line is refused; none for want of memory.
pub(crate) fn why_text(alloc: Global, why: &Why) -> Result<String, AllocError>
    ensures { IfOk result
        (λ text. option_map why_text (plain_why why.now) ≡ Some (string_bytes text)) }
{
    match why {
        Why::UnknownOperator => String::from_str(alloc, "UnknownOperator"),
        Why::BadArguments => String::from_str(alloc, "BadArguments"),
        Why::UnknownProc => String::from_str(alloc, "UnknownProc"),
        Why::UnknownName => String::from_str(alloc, "UnknownName"),
        Why::NoPlace(missing) => String::from_str(alloc, missing_text(*missing)),
        Why::Step(cause) => cause_text(alloc, cause),
        Why::Check(e) => list_text(alloc, *e),
        Why::NotShown { what, verdict, .. } => open_text(alloc, what, *verdict),
        Why::Memory => Err(AllocError),
    }
}
