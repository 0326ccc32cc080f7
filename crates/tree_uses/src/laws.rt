//! What walks over trees make of what is put in the place of names.
ghost use Rattle.tree_uses.specs.Putting.{PuttingFits, PuttingPuts, PuttingWindow};

/// Nothing of what is put is too wide.
pub fn what_is_put_fits()
    ensures { PuttingFits }
{}

/// Where binders stay, the walk puts arguments in the place of names.
pub fn walks_put_arguments()
    ensures { PuttingPuts }
{}

/// One window put in the place of a name is that window in the place of the name.
pub fn walks_put_windows()
    ensures { PuttingWindow }
{}
