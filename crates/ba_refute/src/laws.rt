//! Laws of the definitions.
ghost use Rattle.ba_refute.specs.Counterexamples.{CounterexamplesRefute};
ghost use Rattle.ba_refute.specs.Images.{ImagesAreOne};
ghost use Rattle.ba_refute.specs.OfEquations.{ImagesRefute};

/// A question with a counterexample isn't strongly compliant.
pub fn counterexamples_refute()
    ensures { CounterexamplesRefute }
{}

/// The image of a branch that isn't absurd is one: two images of it under a context are equal.
pub fn images_are_one()
    ensures { ImagesAreOne }
{}

/// Where no column may be NULL and no atom but `=` stands in the views, the rules, the recorded
/// queries and the question, the image of a leaf of the question's problem, whose steps are a due
/// list or a late one, is a counterexample, if the literals' numbers are within 64 bits and these
/// and the unknowns are few: the question isn't strongly compliant. The numbers are so where
/// [`crate::try_pair`] makes the image, which is therefore never stuck there.
pub fn images_refute()
    ensures { ImagesRefute }
{}
