//! Ids of loops' variables.
ghost use Rattle.std.specs.Prelude.{◌≡◌, ◌+◌, suc, IfOk};

use exo_tree::Id;
use std::alloc::AllocError;
use tree_uses::one_more;

/// The next id. Past the last there is none, which is answered as want of memory.
pub(crate) fn next_id(x: Id) -> Result<Id, AllocError>
    ensures { IfOk result (λ y. y.0 ≡ suc x.0) }
{
    Ok(Id(one_more(x.0)?))
}

/// The id behind so many next ones.
pub(crate) fn id_behind(x: Id, count: usize) -> Result<Id, AllocError>
    ensures { IfOk result (λ y. y.0 ≡ suc (x.0 + count)) }
{
    if count >= 4294967295 {
        return Err(AllocError);
    }
    match x.0.checked_add(count as u32) {
        Some(last) => next_id(Id(last)),
        None => Err(AllocError),
    }
}
