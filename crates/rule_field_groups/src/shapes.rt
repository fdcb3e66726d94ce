//! Shapes of types ("SameResponseShape").
ghost use Rattle.std.specs.Prelude.{◌≡◌};
ghost use Rattle.tree_literals.specs.TypeTree.{type_tree, unplaced_type};
ghost use Rattle.rule_field_sets.specs.in_schema.SchemaOf.{schema_tree};
ghost use Rattle.rule_selection_queries.specs.in_definitions.Judged.{judged};
ghost use Rattle.rule_field_groups.specs.Shapes.{same_marks, same_inner, same_type};

use crate::kinds::is_composite;
use graphql_names::Name;
use rule_field_sets::Schema;
use tree_literals::Type;

/// Whether two references to types have the same lists and marks `!` round their names.
#[tactic(auto, using(tree_literals::proofs::Trees::type_tree_rules))]
fn same_lists_and_marks(a: &Type, b: &Type) -> bool
    ensures { result ≡ same_marks (unplaced_type (type_tree a.now)) (unplaced_type (type_tree b.now)) }
{
    match a {
        Type::Named(_) => match b {
            Type::Named(_) => true,
            Type::NonNullNamed(_) | Type::List(_) | Type::NonNullList(_) => false,
        },
        Type::NonNullNamed(_) => match b {
            Type::NonNullNamed(_) => true,
            Type::Named(_) | Type::List(_) | Type::NonNullList(_) => false,
        },
        Type::List(item) => match b {
            Type::List(other) => same_lists_and_marks(item, other),
            Type::Named(_) | Type::NonNullNamed(_) | Type::NonNullList(_) => false,
        },
        Type::NonNullList(item) => match b {
            Type::NonNullList(other) => same_lists_and_marks(item, other),
            Type::Named(_) | Type::NonNullNamed(_) | Type::List(_) => false,
        },
    }
}

/// Whether values of two types have one shape: their lists and non-null marks are the same, and their names are equal, or
/// both are of objects, interfaces or unions (section 5.3.2, "SameResponseShape").
pub(crate) fn same_type(schema: &Schema, a: &Type, b: &Type) -> bool
    ensures { result ≡ same_type (judged (schema_tree schema.now)) (unplaced_type (type_tree a.now)) (unplaced_type (type_tree b.now)) }
{
    let name = a.inner_named_type();
    let other = b.inner_named_type();
    same_lists_and_marks(a, b) && same_inner(schema, name, other)
}

/// Whether two names are equal, or both are of types whose values have fields.
fn same_inner(schema: &Schema, name: &Name, other: &Name) -> bool
    ensures { result ≡ same_inner (judged (schema_tree schema.now)) name.now.text other.now.text }
{
    name.as_str() == other.as_str() || (is_composite(schema, name) && is_composite(schema, other))
}
