//! Rules on one field.
ghost use Rattle.std.specs.Prelude.{◌≡◌, ◌&&◌, [], not, IfOk, IsTrue, OnOk};
ghost use Rattle.std.specs.Option.{option_map};
ghost use Rattle.graphql_names.specs.Node.{content};
ghost use Rattle.schema_types.specs.SchemaTree.{is_leaf_kind, is_output_kind};
ghost use Rattle.schema_types.specs.Addresses.{type_at};
ghost use Rattle.graphql_schema.specs.SchemaOf.{schema_tree};
ghost use Rattle.fault_data.specs.FaultView.{fault_of};
ghost use Rattle.fault_data.specs.Adds.{Adds};
ghost use Rattle.rule_definitions.specs.Judged.{judged};
ghost use Rattle.rule_arguments.specs.in_rule_values.Telling.{Tells};
ghost use Rattle.rule_arguments.specs.in_rule_values.Wanting.{variables_of};
ghost use Rattle.rule_selections.specs.SelectionFaults.{standing_field, missing_subselection, without_subselection};
ghost use Rattle.rule_selections.specs.Telling.{AddsTaken, AddsOfField};

use document_typed_selections::Field;
use graphql_names::{Name, Node};
use rule_arguments::{
    DefinedVariables, DiagnosticData, Fault, IndexedSchema, Schema, Taker, TakerName,
    TypeAttributeCoordinate, check_given, check_taken, tell,
};
use schema_types::TypeKind;
use std::alloc::AllocError;

/// The kind of the type of that name, if it is defined.
fn kind_named(schema: &Schema, name: &Name) -> Option<TypeKind>
    ensures { result ≡ option_map (λ t. t.kind) (type_at (schema_tree schema.now) name.now.text) }
{
    match schema.type_named(name) {
        None => None,
        Some(ty) => Some(ty.kind()),
    }
}

/// Whether values of types of this kind have fields: objects, interfaces and unions.
fn is_composite(kind: TypeKind) -> bool
    ensures { result ≡ (is_output_kind kind && not (is_leaf_kind kind)) }
{
    kind.is_output_type() && !kind.is_leaf()
}

/// MissingSubselection: a field whose values have fields is valid only if it selects some of them (section 5.3.3).
fn missing_subselection(
    schema: &Schema,
    parent: &Name,
    field: &Node<Field>,
    faults: &mut Vec<Fault>,
) -> Result<(), AllocError>
    ensures { OnOk result (Tells faults.old faults.new (missing_subselection (judged (schema_tree schema.now)) (standing_field parent.now field.now))) }
{
    let selected = field.content();
    if !selected.selection_set.is_empty() {
        return Ok(());
    }
    match kind_named(schema, selected.ty().inner_named_type()) {
        Some(kind) if is_composite(kind) => tell(faults, Some(told_missing(parent, field, kind)?)),
        _ => Ok(()),
    }
}

/// What is told of a field that selects nothing though its type, of this kind, has fields.
fn told_missing(parent: &Name, field: &Node<Field>, kind: TypeKind) -> Result<Fault, AllocError>
    ensures { IfOk result (λ r. fault_of r ≡ without_subselection (standing_field parent.now field.now) kind) }
{
    let selected = field.content();
    let coordinate = coordinate_of(parent, &selected.name)?;
    let data = DiagnosticData::MissingSubselection {
        coordinate,
        output_type: selected.ty().inner_named_type().clone()?,
        describe_type: kind.describe(),
    };
    let location = field.location();
    Ok(Fault { location, data })
}

/// `T.f`
fn coordinate_of(parent: &Name, field: &Name) -> Result<TypeAttributeCoordinate, AllocError>
    ensures { IfOk result (λ c. (c.ty.text ≡ parent.now.text) × (c.attribute.text ≡ field.now.text)) }
{
    let ty = parent.clone()?;
    Ok(TypeAttributeCoordinate {
        ty,
        attribute: field.clone()?,
    })
}

/// Whether the field takes no arguments and is given none: then no rule on arguments breaks.
fn is_without_arguments(field: &Field) -> bool
    ensures given { IsTrue result → field.now.arguments.items ≡ [] }
    ensures defined { IsTrue result → (content field.now.definition).arguments.items ≡ [] }
{
    field.arguments.is_empty() && field.definition.content().arguments.is_empty()
}

/// Adds the faults of the field's arguments by its definition on its parent type.
fn check_defined(
    schema: &IndexedSchema<'_>,
    parent: &Name,
    field: &Node<Field>,
    variables: &DefinedVariables<'_>,
    faults: &mut Vec<Fault>,
) -> Result<(), AllocError>
    ensures { OnOk result (AddsTaken (schema_tree schema.now) (variables_of variables.now) (standing_field parent.now field.now) faults.old faults.new) }
{
    let selected = field.content();
    if is_without_arguments(selected) {
        return Ok(());
    }
    let Ok(definition) = schema.schema().type_field(parent, &selected.name) else {
        return Ok(());
    };
    let defined = schema.arguments_of_field(parent, &selected.name, definition);
    let taker = Taker {
        location: field.location(),
        given: selected.arguments.as_slice(),
        definitions: &defined,
        definition_location: definition.node.location(),
        name: TakerName::OfField(parent, &selected.name),
    };
    check_taken(schema, &taker, variables, faults)
}

/// Adds the faults of a field: MissingSubselection, and those of its arguments, but not those of its directives.
pub(crate) fn check_field(
    schema: &IndexedSchema<'_>,
    parent: &Name,
    field: &Node<Field>,
    variables: &DefinedVariables<'_>,
    faults: &mut Vec<Fault>,
) -> Result<(), AllocError>
    ensures { OnOk result (AddsOfField (schema_tree schema.now) (variables_of variables.now) (standing_field parent.now field.now) faults.old faults.new) }
{
    missing_subselection(schema.schema(), parent, field, faults)?;
    check_given(&field.content().arguments, variables, faults)?;
    check_defined(schema, parent, field, variables, faults)
}
