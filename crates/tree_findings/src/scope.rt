//! The names in scope.
ghost use Rattle.std.specs.Prelude.{◌≡◌};
ghost use Rattle.exo_tree.specs.PlainBinder.{binding};
ghost use Rattle.exo_meaning.specs.Units as units;
ghost use Rattle.exo_modes.specs.Sorts.{sort_seen};
ghost use Rattle.tree_findings.specs.Seen.{named, scope_in, clash};

use exo_modes::Sort;
use exo_tree::{Binder, Id};

/// A name in scope.
#[derive(Clone, Copy)]
pub(crate) struct ScopeEntry<'u> {
    pub(crate) binder: &'u Binder,
    pub(crate) sort: Sort,
}

/// The sort of what a name stands for; None exactly where it is not in scope.
pub(crate) fn sort_in(entries: &[ScopeEntry], x: Id) -> Option<Sort>
    ensures { sort_seen result ≡ units.sort_in (scope_in entries.now) x.0 }
{
    let mut found = None;
    for entry in entries {
        if x.0 == entry.binder.id.0 {
            found = Some(entry.sort);
        }
    }
    found
}

/// Whether a binder has the id or the name of an entry.
fn is_clash(x: &Binder, entry: &ScopeEntry) -> bool
    ensures { result ≡ clash (binding x.now) (named entry.now) }
{
    x.id.0 == entry.binder.id.0 || x.name.as_str() == entry.binder.name.as_str()
}

/// Whether neither the id nor the name of a binder is in scope.
pub(crate) fn is_new(entries: &[ScopeEntry], x: &Binder) -> bool
    ensures { result ≡ units.is_new (scope_in entries.now) (binding x.now) }
{
    for entry in entries {
        if is_clash(x, entry) {
            return false;
        }
    }
    true
}
