//! The match of one number among those of a walk.
ghost use Rattle.std.specs.Prelude.{◌≡◌, ◌+◌, true, if◌then◌else◌, MatchBool};

/// Whether a match is the one that is looked for: `left` says how many are to be passed over.
pub fn is_here(is_match: bool, left: &mut u32) -> bool
    ensures { MatchBool result ((is_match ≡ true) × (left.old ≡ 0))
        (left.old ≡ (if is_match then 1 else 0) + left.new) }
{
    if !is_match {
        return false;
    }
    if *left == 0 {
        return true;
    }
    *left -= 1;
    false
}
