//! Laws of the rules on uses, each the contract of a function that does nothing.

ghost use Rattle.rule_arguments.specs.Laws.{UsesToldInPlace, SchemaUsesTold};

/// The rules tell the same faults for directives at their places in a schema as for directives at their
/// addresses, each fault at the place that its address has.
pub fn uses_are_told_in_place()
    ensures one { UsesToldInPlace }
    ensures all { SchemaUsesTold }
{}
