//! Laws of the definitions.
ghost use Rattle.ba_send.specs.Closed.{ClosedIsQuery, ClosedMeansTheSame};

/// A checked query with the values of a context that fits in place of its parameters is a checked
/// query without parameters, and has the query's rows under that context.
pub fn closed_means_the_same()
    ensures query { ClosedIsQuery }
    ensures same { ClosedMeansTheSame }
{}
