//! Which types a field may have where its interface's field has one (section 3.6, IsValidImplementationFieldType).
ghost use Rattle.std.specs.Prelude.{◌≡◌, ◌||◌, bytes_eq};
ghost use Rattle.graphql_names.specs.Placed.{name_tree, unplaced_text};
ghost use Rattle.tree_literals.specs.TypeTree.{NamedTree, NonNullNamedTree, type_tree, unplaced_type};
ghost use Rattle.graphql_schema.specs.SchemaOf.{schema_tree};
ghost use Rattle.fault_data.specs.in_rule_definitions.Judged.{judged};
ghost use Rattle.fault_data.specs.in_rule_definitions.Subtypes.{is_subtype, is_valid_type};
ghost use Rattle.rule_types.specs.InterfaceTrees.{serves};

use crate::find_subtype::find_subtype;
use graphql_names::Name;
use graphql_schema::Schema;
use tree_literals::Type;

/// Whether a field of type `implementing` may implement an interface's field of type `interface_type`: the same name or
/// that of a subtype, inside the same lists, and non-null wherever the interface's is.
#[tactic(auto, using(tree_literals::proofs::Trees::type_tree_rules))]
pub fn is_valid_implementation_field_type(
    schema: &Schema,
    interface_type: &Type,
    implementing: &Type,
) -> bool
    ensures { result ≡ is_valid_type (judged (schema_tree schema.now)) (unplaced_type (type_tree interface_type.now)) (unplaced_type (type_tree implementing.now)) }
{
    match interface_type {
        Type::Named(wanted) => serves_named(schema, wanted, implementing),
        Type::NonNullNamed(wanted) => serves_non_null(schema, wanted, implementing),
        Type::List(wanted) => match implementing {
            Type::List(item) | Type::NonNullList(item) => {
                is_valid_implementation_field_type(schema, wanted, item)
            }
            Type::Named(_) | Type::NonNullNamed(_) => false,
        },
        Type::NonNullList(wanted) => match implementing {
            Type::NonNullList(item) => is_valid_implementation_field_type(schema, wanted, item),
            Type::Named(_) | Type::NonNullNamed(_) | Type::List(_) => false,
        },
    }
}

/// Whether a field of type `implementing` may implement an interface's field of the type of that name.
#[tactic(auto, using(tree_literals::proofs::Trees::type_tree_rules))]
fn serves_named(schema: &Schema, wanted: &Name, implementing: &Type) -> bool
    ensures { result ≡ serves (schema_tree schema.now) (NamedTree (unplaced_text (name_tree wanted.now))) (type_tree implementing.now) }
{
    match implementing {
        Type::Named(name) | Type::NonNullNamed(name) => serves(schema, wanted, name),
        Type::List(_) | Type::NonNullList(_) => false,
    }
}

/// Whether a field of type `implementing` may implement an interface's field of the type of that name, non-null.
#[tactic(auto, using(tree_literals::proofs::Trees::type_tree_rules))]
fn serves_non_null(schema: &Schema, wanted: &Name, implementing: &Type) -> bool
    ensures { result ≡ serves (schema_tree schema.now) (NonNullNamedTree (unplaced_text (name_tree wanted.now))) (type_tree implementing.now) }
{
    match implementing {
        Type::NonNullNamed(name) => serves(schema, wanted, name),
        Type::Named(_) | Type::List(_) | Type::NonNullList(_) => false,
    }
}

/// Whether it is the type of that name, or one of its subtypes.
fn serves(schema: &Schema, wanted: &Name, name: &Name) -> bool
    ensures { result ≡ (bytes_eq wanted.now.text name.now.text || is_subtype (judged (schema_tree schema.now)) wanted.now.text name.now.text) }
{
    if wanted.as_str() == name.as_str() {
        return true;
    }
    match find_subtype(schema, wanted, name) {
        Ok(found) => found,
        // The schema's own search gives the same answer, and needs no copy of a name.
        Err(_) => schema.is_subtype(wanted, name),
    }
}
