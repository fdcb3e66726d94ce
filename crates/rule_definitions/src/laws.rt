//! Laws of the rules, each the contract of a function that does nothing.

ghost use Rattle.rule_definitions.specs.Laws.{ReadTheSame, SameBreaches, SameVerdict, AcceptsWhereRulesHold};

/// Equal schemas with the same things built in break the same rules at the same addresses, whatever the rules are: what
/// rules read of both is the same.
pub fn equal_schemas_same_breaches()
    ensures read { ReadTheSame }
    ensures breaches { SameBreaches }
    ensures verdict { SameVerdict }
{}

/// A type accepts a value exactly when no rule on values is broken by it, whatever the places of schema, type and value.
pub fn types_accept_where_rules_hold()
    ensures { AcceptsWhereRulesHold }
{}
