//! Laws of the program: each is the clause of a function that does nothing.
ghost use Rattle.liquid_program.specs.laws.Together.{GatheredAsRequested};

/// A page is gathered exactly if no request for it has trouble, and so are the globals and the partials of several pages.
pub fn gathered_as_requested()
    ensures { GatheredAsRequested }
{}
