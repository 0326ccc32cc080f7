//! The law of elimination, the contract of a function with nothing to do.
ghost use Rattle.affine_prover.specs.Laws.{ShownSystemsHaveNoPoint};

/// A system that elimination shows has no integer point.
pub fn shown_systems_have_no_point()
    ensures { ShownSystemsHaveNoPoint }
{}
