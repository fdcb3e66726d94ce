//! Laws of what is told of schemas, each the contract of a function that does nothing.

ghost use Rattle.strict_schemas.specs.Letter.{NoDepartureMeansTheLetter};

/// If `schema_departures` and `default_faults` tell nothing of a schema, each default fits its type and repeats no key, the
/// directives of built-in scalars keep the rules on uses, and the schema departs from the specification in none of the points that
/// they judge.
pub fn no_departure_means_the_letter()
    ensures { NoDepartureMeansTheLetter }
{}
