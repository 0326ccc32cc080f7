//! Kept obligations with those of one place listed anew.
ghost use Rattle.std.specs.Prelude.{◌≡◌, ◌++◌, true, not, map, Some, slice_get, IfSome};
ghost use Rattle.std.specs.List.{position_or_len};
ghost use Rattle.exo_tree.specs.Tree.{Procedure};
ghost use Rattle.exo_tree.specs.PlainUnit.{program};
ghost use Rattle.affine_systems.specs.Limits.{are_within};
ghost use Rattle.affine_systems.specs.Outcomes.{plain_obligation};
ghost use Rattle.schedule_laws.specs.Owed.Stores.{StoreChanged, stands_at};
ghost use Rattle.schedule_run.specs.Follows.{Follows};
ghost use Rattle.schedule_run.specs.Running.{AreKept, IsRunning};
ghost use Rattle.schedule_run.specs.Spliced.{IsSpliced};

use crate::changed::changed_store;
use crate::running::{Latest, Running};
use affine_systems::{Obligation, OwedList};
use bounds_check::obligations_there;
use check_facts::is_same_path;
use exo_tree::{Path, ProcId};
use schedule_laws::owed::laws::changed_stores_owe_their_own;
use std::alloc::Global;

/// How many obligations come before the first that stands at the path.
fn count_before(kept: &[Obligation], path: &Path) -> usize
    ensures { result ≡ position_or_len (stands_at path.now) (map plain_obligation kept.now) }
{
    for (k, o) in kept.iter().enumerate() {
        if is_same_path(&o.place, path) {
            return k;
        }
    }
    kept.len()
}

/// How many obligations come before the first that does not stand at the path.
fn count_there(kept: &[Obligation], path: &Path) -> usize
    ensures { result
        ≡ position_or_len (λ o. not (stands_at path.now o)) (map plain_obligation kept.now) }
{
    for (k, o) in kept.iter().enumerate() {
        if !is_same_path(&o.place, path) {
            return k;
        }
    }
    kept.len()
}

/// Lists one behind the other; None where they pass the limits of lists together.
fn joined(
    alloc: Global,
    front: Vec<Obligation>,
    own: Vec<Obligation>,
    behind: Vec<Obligation>,
) -> Option<Vec<Obligation>>
    ensures within { IfSome result (λ os. are_within (map plain_obligation os.items) ≡ true) }
    ensures is { IfSome result (λ os. map plain_obligation os.items
        ≡ (map plain_obligation front.items ++ map plain_obligation own.items)
        ++ map plain_obligation behind.items) }
{
    let mut out = OwedList::new(alloc);
    let Ok(()) = out.push_all(front) else {
        return None;
    };
    let Ok(()) = out.push_all(own) else {
        return None;
    };
    let Ok(()) = out.push_all(behind) else {
        return None;
    };
    Some(out.into_items())
}

/// Obligations with others in place of those that stand at a path; they are moved. None where none
/// stands there, and where the list would pass the limits of lists.
fn spliced(
    alloc: Global,
    kept: Vec<Obligation>,
    path: &Path,
    own: Vec<Obligation>,
) -> Option<Vec<Obligation>>
    ensures { IfSome result (λ os. IsSpliced path.now (map plain_obligation own.items)
        (map plain_obligation kept.items) (map plain_obligation os.items)) }
{
    let first = count_before(&kept, path);
    if first >= kept.len() {
        return None;
    }
    let mut front = kept;
    let Ok(mut there) = front.split_off(first) else {
        return None;
    };
    let count = count_there(&there, path);
    let Ok(behind) = there.split_off(count) else {
        return None;
    };
    joined(alloc, front, own, behind)
}

/// Whether the list is that of version `k`.
fn is_of(latest: &Latest, k: ProcId) -> bool
    ensures { result ≡ true → latest.now.version.0 ≡ k.0 }
{
    latest.version.0 == k.0
}

impl Running {
    /// The path of the one store in which two versions differ.
    fn store_between(&self, k: ProcId, p: ProcId) -> Option<Path>
        ensures { (old new : Procedure)
            → slice_get (program self.now.session.unit).procedures k.0 ≡ Some old
            → slice_get (program self.now.session.unit).procedures p.0 ≡ Some new
            → IfSome result (λ path. StoreChanged path old.body new.body) }
    {
        let Some(old) = self.session.unit.procs.get(k.0 as usize) else {
            return None;
        };
        let Some(new) = self.session.unit.procs.get(p.0 as usize) else {
            return None;
        };
        changed_store(&old.body, &new.body)
    }

    /// What version `p` owes, where it was made of the latest one before it, version `k`, and
    /// differs from it in one store: what the store owes is listed, and all else is what is kept.
    /// None where the whole is to be listed.
    pub(crate) fn with_store(
        &self,
        alloc: Global,
        p: ProcId,
        k: ProcId,
        latest: Option<Latest>,
    ) -> Option<Vec<Obligation>>
        requires running { IsRunning self.now }
        requires follows { IfSome latest (λ l. l.version.0 ≡ k.0 → (q : Procedure)
            → slice_get (program self.now.session.unit).procedures p.0 ≡ Some q
            → Follows l.owed.items k.0 (program self.now.session.unit) q) }
        ensures { (q : Procedure)
            → slice_get (program self.now.session.unit).procedures p.0 ≡ Some q
            → IfSome result (λ os. AreKept os.items (program self.now.session.unit) q) }
    {
        changed_stores_owe_their_own();
        let Some(latest) = latest else {
            return None;
        };
        if !is_of(&latest, k) {
            return None;
        }
        let Some(path) = self.store_between(k, p) else {
            return None;
        };
        let Ok(own) = obligations_there(
            alloc,
            &self.session.unit,
            &self.writes,
            &self.modes,
            p,
            &path,
        ) else {
            return None;
        };
        spliced(alloc, latest.owed, &path, own)
    }
}
