//! What a schema says of names, or what holds for them without a schema.
ghost use Rattle.std.specs.Prelude.{◌≡◌, ℕ, Bool, IfOk, IfSome};
ghost use Rattle.std.specs.FinMap as fin;
ghost use Rattle.std.specs.Option.{option_map};
ghost use Rattle.graphql_names.specs.Node.{content};
ghost use Rattle.graphql_names.specs.Placed.{name_tree, node_tree};
ghost use Rattle.tree_type_members.specs.TypeSystemTree.{field_definition_tree, unplaced_field_definition};
ghost use Rattle.schema_types.specs.Plain.{plain, plain_type};
ghost use Rattle.schema_types.specs.Addresses.{type_at};
ghost use Rattle.schema_types.specs.TypeView.{extended_type};
ghost use Rattle.graphql_schema.specs.SchemaOf.{schema_tree};
ghost use Rattle.tree_operations.specs.OperationQueries.{default_root_name};
ghost use Rattle.document_typing.specs.Meanings.{inner_type, unknown_definition};
ghost use Rattle.document_typing.specs.KeptSelections.{is_leaf};
ghost use Rattle.document_typing.specs.DefinedField.{definition_view};
ghost use Rattle.document_typing.specs.DefinedByPlace.{unknown_field};
ghost use Rattle.document_typing.specs.MeaningView.{schema_under, meanings_under};
ghost use Rattle.document_typing.specs.Telling.{IsTypeUnder, is_leaf_type, IsDefinitionNamed};

use graphql_names::{Name, Node};
use graphql_schema::Schema;
use schema_types::ExtendedType;
use std::alloc::{AllocError, Global};
use tree_directives::DirectiveList;
use tree_literals::Type;
use tree_operations::OperationType;
use tree_type_members::FieldDefinition;

/// The type of that name, if there is one: the one that a schema without places has under the name.
// The schema's own call with another contract: typing knows a schema only by what it says without places.
fn type_named<'schema>(schema: &'schema Schema, name: &Name) -> Option<&'schema ExtendedType>
    ensures found { option_map (λ t. extended_type t.now) result ≡ type_at (schema_tree schema.now) name.now.text }
    ensures unplaced { option_map (λ t. plain_type (extended_type t.now)) result ≡ fin.get (plain (schema_tree schema.now)).types name.now.text }
{
    schema.type_named(name)
}

/// The type of that name, if there is a schema that has one. It is looked up once for each set: the name may be long.
pub(crate) fn type_under<'schema>(
    schema: Option<&'schema Schema>,
    name: &Name,
) -> Option<&'schema ExtendedType>
    ensures found { IsTypeUnder (schema_under schema.entry) name.now.text result }
    ensures leaf { is_leaf_type result ≡ is_leaf (meanings_under schema.entry) name.now.text }
{
    match schema {
        None => None,
        Some(schema) => type_named(schema, name),
    }
}

/// Whether a type of that name exists. Without a schema each does.
pub(crate) fn has_type(schema: Option<&Schema>, name: &Name) -> bool
    ensures { result ≡ (meanings_under schema.entry).has_type name.now.text }
{
    match schema {
        None => true,
        Some(schema) => type_named(schema, name).is_some(),
    }
}

/// Whether the type of that name is a scalar. Without a schema none is.
pub(crate) fn is_scalar(schema: Option<&Schema>, name: &Name) -> bool
    ensures { result ≡ (meanings_under schema.entry).is_scalar name.now.text }
{
    match schema {
        None => false,
        Some(schema) => match type_named(schema, name) {
            None => false,
            Some(ty) => ty.is_scalar(),
        },
    }
}

/// Whether values of the type have no fields: it is a scalar or an enum. Without a schema none is.
pub(crate) fn is_leaf(ty: Option<&ExtendedType>) -> bool
    ensures { result ≡ is_leaf_type ty.entry }
{
    match ty {
        None => false,
        Some(ty) => ty.is_scalar() || ty.is_enum(),
    }
}

/// The definition of a field of that name without a schema: its type is `UNKNOWN`.
fn unknown_field(alloc: Global, name: &Name) -> Result<Node<FieldDefinition>, AllocError>
    ensures view { IfOk result (λ n. definition_view n ≡ unknown_definition name.now.text) }
    ensures defined { IfOk result (λ n. node_tree field_definition_tree n ≡ unknown_field (name_tree name.now)) }
{
    let name = name.clone()?;
    let definition = FieldDefinition {
        description: None,
        name,
        arguments: Vec::new(alloc),
        ty: Type::Named(Name::new_static_unchecked("UNKNOWN")),
        directives: DirectiveList::new(alloc),
    };
    Ok(Node::new(alloc, definition)?)
}

/// The definition of the field of that name on the type of that name; `ty` is that type, if it exists. The definition is
/// shared with the schema; without a schema each field has one.
// It is not inlined, so that its locals take no stack at each level of selections.
#[inline(never)]
pub(crate) fn definition_of(
    alloc: Global,
    schema: Option<&Schema>,
    type_name: &Name,
    ty: Option<&ExtendedType>,
    field_name: &Name,
) -> Result<Option<Node<FieldDefinition>>, AllocError>
    requires { IsTypeUnder (schema_under schema) type_name.now.text ty }
    ensures view { IfOk result (λ r. option_map definition_view r ≡ (meanings_under schema.entry).field type_name.now.text field_name.now.text) }
    ensures defined { IfOk result (λ r. IfSome r (λ d. IsDefinitionNamed (schema_under schema.entry) type_name.now.text field_name.now d)) }
{
    let Some(schema) = schema else {
        return Ok(Some(unknown_field(alloc, field_name)?));
    };
    let Some(ty) = ty else {
        return Ok(None);
    };
    match schema.field_on(type_name, ty, field_name) {
        Some(field) => Ok(Some(field.node.clone()?)),
        None => Ok(None),
    }
}

/// The name inside the type of a field.
pub(crate) fn inner_name(definition: &Node<FieldDefinition>) -> &Name
    ensures { result.now.text ≡ inner_type (definition_view definition.now) }
{
    definition.content().ty.inner_named_type()
}

/// The name that the root of that operation has by default (section 3.3.1).
fn default_root(operation_type: OperationType) -> Name
    ensures { result.text ≡ default_root_name operation_type }
{
    match operation_type {
        OperationType::Query => Name::new_static_unchecked("Query"),
        OperationType::Mutation => Name::new_static_unchecked("Mutation"),
        OperationType::Subscription => Name::new_static_unchecked("Subscription"),
    }
}

/// The name of the root of that operation, if there is one. Without a schema it is the default name.
pub(crate) fn root_of(
    schema: Option<&Schema>,
    operation_type: OperationType,
) -> Result<Option<Name>, AllocError>
    ensures { IfOk result (λ r. option_map (λ n. n.text) r ≡ (meanings_under schema.entry).root operation_type) }
{
    let Some(schema) = schema else {
        return Ok(Some(default_root(operation_type)));
    };
    match schema.root_operation(operation_type) {
        None => Ok(None),
        Some(name) => Ok(Some(name.clone()?)),
    }
}
