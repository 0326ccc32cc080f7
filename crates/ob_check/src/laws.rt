// Laws of caches, each the contract of a function with nothing to do.
ghost use Rattle.ob_check.specs.Settled.{KnownListsSettle};

/// Where a cache knows each system of a list, it comes to rest once the list is discharged: the
/// same list changes nothing more.
pub fn known_lists_settle()
    ensures { KnownListsSettle }
{}
