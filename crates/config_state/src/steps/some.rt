//! Whether sets have a field.
ghost use Rattle.std.specs.Prelude.{◌≡◌, ◌&&◌, ℕ, Bool};
ghost use Rattle.config_state.specs.Steps.Fields.{IsFieldSet, some_where};

use crate::FieldSet;

/// Whether a field is in the set.
pub fn is_some(set: &FieldSet) -> bool
    ensures { (n : ℕ) (test : ℕ → Bool) → IsFieldSet n test set.now → result ≡ some_where n test }
{
    for k in 0..set.len() {
        if set.contains(k) {
            return true;
        }
    }
    false
}

/// Whether a field is in both sets.
pub fn have_common(a: &FieldSet, b: &FieldSet) -> bool
    ensures { (n : ℕ) (p q : ℕ → Bool) → IsFieldSet n p a.now → IsFieldSet n q b.now → result ≡ some_where n (λ f. p f && q f) }
{
    for k in 0..a.len() {
        if a.contains(k) && b.contains(k) {
            return true;
        }
    }
    false
}
