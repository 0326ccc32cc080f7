//! What a step proposes, or why it is refused.
use crate::cursor::Side;
use crate::edits::Edits;
use affine_forms::FormError;
use affine_systems::Obligation;
use exo_tree::{FieldId, Name, Path, Proc};
use std::alloc::AllocError;

/// What a step makes of a procedure.
#[derive(Drop)]
pub struct Proposal {
    /// The new version.
    pub proc: Proc,
    /// What has to be shown before the version stands for the procedure: each has no integer point.
    pub must: Vec<Obligation>,
    /// Where the statements go.
    pub edits: Edits,
    /// The configuration fields that may differ from the point of the version on that `place` and `side` name: before or
    /// after that statement. With no such field the path is empty.
    pub fields: Vec<FieldId>,
    pub place: Path,
    pub side: Side,
}

/// Why a step is refused.
#[derive(Drop)]
pub enum StepError {
    /// The place, or what the step would make of it, has not the shape that the step asks.
    WrongShape,
    /// A name in an argument is not in scope at the place.
    OutOfScope,
    /// A name would be bound that is in scope there.
    NameTaken,
    /// A limit on sizes is passed.
    LimitPassed,
    /// A write of a configuration field stands in the way.
    ConfigWrite,
    /// A configuration field may be read before it is written.
    ConfigLive,
    /// To run the statements once is not the same as to run them several times.
    NotIdempotent,
    /// A buffer is reached by two names.
    Aliased,
    /// The strides of a buffer are used.
    StrideUsed,
    /// A buffer is not only reduced into.
    NotOnlyReduced,
    /// A name is still used.
    StillUsed,
    /// The procedure is no version of the one that is called.
    NotDescendant,
    /// A buffer is passed several times to a procedure that writes it.
    SharedArgument,
    /// The statements do not match; the path leads to the first that differs.
    NoMatch(Path),
    /// Nothing determines the parameter of that name.
    Undetermined(Name),
    /// A normal form or a list of systems is refused.
    Form(FormError),
    /// There was no memory.
    Memory,
}

impl From<AllocError> for StepError {
    ghost use Rattle.std.specs.Prelude.{◌≡◌};
    ghost use Rattle.cursor_forward.specs.declared.proposal.StepError.TheVariants.{Memory};

    ghost from_gives = { λ _ e. e ≡ Memory };

    fn from(_error: AllocError) -> StepError {
        StepError::Memory
    }
}

impl From<FormError> for StepError {
    ghost use Rattle.std.specs.Prelude.{◌≡◌, option_map};
    ghost use Rattle.cursor_forward.specs.Causes as plain;
    ghost use Rattle.cursor_forward.specs.PlainProposal.{cause_of, fault_of};

    ghost from_gives = { λ e refused. cause_of refused ≡ option_map plain.Form (fault_of e) };

    fn from(error: FormError) -> StepError {
        match error {
            FormError::Memory => StepError::Memory,
            other => StepError::Form(other),
        }
    }
}
