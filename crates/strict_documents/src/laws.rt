//! A law of departures, the contract of a function that does nothing.

ghost use Rattle.strict_documents.specs.Letter.{NoDepartureMeansTheLetter};

/// A document of which nothing is told has no departure, and each part of each value that is given to an argument in a selection that
/// an operation reaches is to the letter of the specification: the number is finite as a `Float` (section 3.5.2), an item of a list
/// of lists is a list (3.11), and the usage of the variable is allowed (5.8.5).
pub fn no_departure_means_the_letter()
    ensures { NoDepartureMeansTheLetter }
{}
