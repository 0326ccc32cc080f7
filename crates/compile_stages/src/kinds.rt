// Kinds of refusals in the words of messages.
ghost use Rattle.std.specs.Prelude.{◌≡◌};
ghost use Rattle.compile_stages.specs.Kinds.{check_text, form_text, kind_text, memory_text, rule_text, verdict_text};

use affine_forms::FormError;
use affine_prover::Verdict;
use bounds_check::CheckError;
use exo_reader::unit::ReadKind;
use memory_kinds::KindError;
use rules_names::error::TypeKind;

/// What is wrong with a text, as messages have it.
pub(crate) fn kind_text(kind: ReadKind) -> &'static str
    ensures { result.now ≡ kind_text kind }
{
    match kind {
        ReadKind::Memory => "Memory",
        ReadKind::BadByte => "BadByte",
        ReadKind::BadIndent => "BadIndent",
        ReadKind::Syntax => "Syntax",
        ReadKind::TooDeep => "TooDeep",
        ReadKind::TooLong => "TooLong",
        ReadKind::LiteralTooLarge => "LiteralTooLarge",
    }
}

/// A rule as messages have it.
pub(crate) fn rule_text(rule: TypeKind) -> &'static str
    ensures { result.now ≡ rule_text rule }
{
    match rule {
        TypeKind::Memory => "Memory",
        TypeKind::UnknownName => "UnknownName",
        TypeKind::Redefined => "Redefined",
        TypeKind::KindMismatch => "KindMismatch",
        TypeKind::RankMismatch => "RankMismatch",
        TypeKind::NotAffine => "NotAffine",
        TypeKind::ConfigPlace => "ConfigPlace",
        TypeKind::StridePlace => "StridePlace",
        TypeKind::SharedArgument => "SharedArgument",
    }
}

/// Why a claim has no systems, as messages have it.
pub(crate) fn form_text(error: FormError) -> &'static str
    ensures { result.now ≡ form_text error }
{
    match error {
        FormError::TooManyCases => "TooManyCases",
        FormError::SystemTooLarge => "SystemTooLarge",
        FormError::WideNumber => "WideNumber",
        FormError::TooManySystems => "TooManySystems",
        FormError::Memory => "Memory",
    }
}

/// Why obligations can't be listed, as messages have it.
pub(crate) fn check_text(error: CheckError) -> &'static str
    ensures { result.now ≡ check_text error }
{
    match error {
        CheckError::TooManyObligations => "TooManyObligations",
        CheckError::Form(form) => form_text(form),
        CheckError::Memory => "Memory",
    }
}

/// A verdict as messages have it.
pub(crate) fn verdict_text(verdict: Verdict) -> &'static str
    ensures { result.now ≡ verdict_text verdict }
{
    match verdict {
        Verdict::Shown => "Shown",
        Verdict::Open => "Open",
        Verdict::TooMany => "TooMany",
        Verdict::TooWide => "TooWide",
    }
}

/// A rule on memories as messages have it.
pub(crate) fn memory_text(rule: KindError) -> &'static str
    ensures { result.now ≡ memory_text rule }
{
    match rule {
        KindError::NotReadable => "NotReadable",
        KindError::NotWritable => "NotWritable",
        KindError::NotReducible => "NotReducible",
        KindError::MemoryMismatch => "MemoryMismatch",
        KindError::PrecisionMismatch => "PrecisionMismatch",
        KindError::LaneMismatch => "LaneMismatch",
        KindError::NotLiteral => "NotLiteral",
    }
}
