//! Refusals by what is found in a result.
ghost use Rattle.step_rules.specs.Answer.{broken};
ghost use Rattle.step_rules.specs.Owing.{shape_alone};
ghost use Rattle.step_driver.specs.Needs.Outcomes.{Refuses};

use cursor_forward::StepError;
use tree_findings::Findings;

/// The first class that is broken, in the order of refusals.
pub(crate) fn refused(found: Findings) -> Result<(), StepError>
    ensures { Refuses (broken found) result }
{
    if !found.rules {
        return Err(StepError::WrongShape);
    }
    if !found.scope {
        return Err(StepError::OutOfScope);
    }
    if !found.names {
        return Err(StepError::NameTaken);
    }
    if !found.limits {
        return Err(StepError::LimitPassed);
    }
    Ok(())
}

/// The same of rules and scope alone.
pub(crate) fn refused_by_shape(found: Findings) -> Result<(), StepError>
    ensures { Refuses (broken (shape_alone found)) result }
{
    if !found.rules {
        return Err(StepError::WrongShape);
    }
    if !found.scope {
        return Err(StepError::OutOfScope);
    }
    Ok(())
}
