//! What a cache says of the system of each obligation.
ghost use Rattle.std.specs.Prelude.{◌≡◌, map, filter, fold, IfOk, OnOk};
ghost use Rattle.affine_forms.specs.System.{plain_system};
ghost use Rattle.ob_check.specs.Entries.{asked, is_missing};
ghost use Rattle.ob_check.specs.Held.{held};
ghost use Rattle.ob_check.specs.Systems.{systems_of, system_found, missing_of};

use crate::cache::Cache;
use crate::known::KnownSystem;
use affine_forms::System;
use affine_systems::Obligation;
use std::alloc::{AllocError, Global};

/// What a cache says of a system.
#[derive(Clone, Copy, Drop)]
pub(crate) enum Found<'a> {
    /// It keeps the verdict.
    Kept(KnownSystem<'a>),
    /// It does not know the system.
    Missing(&'a System),
}

/// Looks up the system of each obligation, in order.
pub(crate) fn looked_up<'a>(
    alloc: Global,
    obs: &'a [Obligation],
    cache: &mut Cache,
) -> Result<Vec<Found<'a>>, AllocError>
    ensures systems { IfOk result (λ v. map system_found v.items ≡ systems_of obs.now) }
    ensures missing { IfOk result (λ v. missing_of v.items ≡ filter (is_missing (held cache.old)) (systems_of obs.now)) }
    ensures asked { OnOk result (held cache.new ≡ fold asked (held cache.old) (systems_of obs.now)) }
{
    let mut all = Vec::new(alloc);
    for o in obs {
        let found = cache.look_up(&o.system);
        all.push(found)?;
    }
    Ok(all)
}

/// What a cache says of systems, in order; none of them comes first by that.
pub(crate) fn peeked<'a>(
    alloc: Global,
    systems: &[&'a System],
    cache: &Cache,
) -> Result<Vec<Found<'a>>, AllocError>
    ensures { IfOk result (λ v. map system_found v.items
        ≡ map (λ s. plain_system s.now) systems.now) }
{
    let mut all = Vec::new(alloc);
    for system in systems {
        let found = cache.peek(*system);
        all.push(found)?;
    }
    Ok(all)
}

/// The systems that the cache does not know, in order.
pub(crate) fn missing<'a>(alloc: Global, found: &[Found<'a>]) -> Result<Vec<&'a System>, AllocError>
    ensures { IfOk result (λ v. map (λ s. plain_system s.now) v.items ≡ missing_of found.now) }
{
    let mut all = Vec::new(alloc);
    for f in found {
        if let Found::Missing(system) = f {
            all.push(*system)?;
        }
    }
    Ok(all)
}
