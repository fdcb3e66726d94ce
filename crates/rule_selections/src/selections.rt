//! Rules on each selection that an operation reaches, under a schema.
ghost use Rattle.std.specs.Prelude.{◌≡◌, OnOk};
ghost use Rattle.graphql_names.specs.Node.{content};
ghost use Rattle.graphql_names.specs.Placed.{Place, node_tree};
ghost use Rattle.schema_types.specs.Plain.{plain};
ghost use Rattle.graphql_schema.specs.SchemaOf.{schema_tree};
ghost use Rattle.fault_data.specs.Adds.{Adds};
ghost use Rattle.rule_definitions.specs.Judged.{judged};
ghost use Rattle.rule_arguments.specs.in_rule_values.Wanting.{variables_of};
ghost use Rattle.tree_directives.specs.declared.directive_location.DirectiveLocation.TheVariants as location;
ghost use Rattle.spec_document.specs.MeantTree.{MeantDocument, meant};
ghost use Rattle.document_typed_selections.specs.TypedTree.{typed_selection_tree};
ghost use Rattle.document_typed_operations.specs.TypedDocument.{typed_operation_tree};
ghost use Rattle.rule_reach.specs.in_typed_operations.DocumentView.{meant_by_operation};
ghost use Rattle.document_typing.specs.Meanings.{meanings};
ghost use Rattle.rule_document_definitions.specs.Selected.{selection_location};
ghost use Rattle.rule_document_definitions.specs.Selections.{SelectionsBreak};
ghost use Rattle.rule_document_definitions.specs.PlacedDocumentFaults.{places_in};
ghost use Rattle.rule_reach.specs.Reach.{reached_members, reached_fragments_of, IsReachOf};
ghost use Rattle.rule_selections.specs.Typed.{ReachesTyped};
ghost use Rattle.rule_selections.specs.Telling.{member_there, AddsOfSelection, AddsOfSelections, AddsOfFragment, AddsOfFragments};

use crate::fields::check_field;
use document_typed_operations::{Fragment, Operation};
use document_typed_selections::Selection;
use graphql_names::Node;
use rule_arguments::{DefinedVariables, Fault, IndexedSchema, check_uses};
use rule_reach::Reach;
use std::alloc::AllocError;
use tree_directives::DirectiveLocation;
use tree_literals::NamedType;

/// The location of the selection's directives.
#[tactic(auto, using(crate::proofs::Members::location_rules))]
fn location_of(selection: &Selection) -> DirectiveLocation
    ensures { result ≡ selection_location (meant (typed_selection_tree selection.now)) }
{
    match selection {
        Selection::Field(_) => DirectiveLocation::Field,
        Selection::FragmentSpread(_) => DirectiveLocation::FragmentSpread,
        Selection::InlineFragment(_) => DirectiveLocation::InlineFragment,
    }
}

/// Adds the faults of a selection: of its directives, and those of a field.
pub(crate) fn check_selection(
    schema: &IndexedSchema<'_>,
    parent: &NamedType,
    selection: &Selection,
    variables: &DefinedVariables<'_>,
    faults: &mut Vec<Fault>,
) -> Result<(), AllocError>
    ensures { OnOk result (AddsOfSelection (schema_tree schema.now) (variables_of variables.now) (member_there parent.now selection.now) faults.old faults.new) }
{
    let location = location_of(selection);
    check_uses(
        schema,
        &selection.directives().0,
        location,
        variables,
        faults,
    )?;
    match selection.as_field() {
        None => Ok(()),
        Some(field) => check_field(schema, parent, field, variables, faults),
    }
}

/// Adds the faults of each selection.
fn check_each_selection(
    schema: &IndexedSchema<'_>,
    reach: &Reach<'_>,
    variables: &DefinedVariables<'_>,
    faults: &mut Vec<Fault>,
) -> Result<(), AllocError>
    ensures { OnOk result (AddsOfSelections (schema_tree schema.now) (variables_of variables.now) (reached_members reach.now) faults.old faults.new) }
{
    for (parent, selection) in &reach.selections {
        check_selection(schema, parent, selection, variables, faults)?;
    }
    Ok(())
}

/// Adds the faults of the directives of a fragment.
fn check_fragment(
    schema: &IndexedSchema<'_>,
    fragment: &Node<Fragment>,
    variables: &DefinedVariables<'_>,
    faults: &mut Vec<Fault>,
) -> Result<(), AllocError>
    ensures { OnOk result (AddsOfFragment (schema_tree schema.now) (variables_of variables.now) fragment.now faults.old faults.new) }
{
    let directives = &fragment.content().directives.0;
    check_uses(
        schema,
        directives,
        DirectiveLocation::FragmentDefinition,
        variables,
        faults,
    )
}

/// Adds the faults of the directives of each fragment.
fn check_fragments(
    schema: &IndexedSchema<'_>,
    reach: &Reach<'_>,
    variables: &DefinedVariables<'_>,
    faults: &mut Vec<Fault>,
) -> Result<(), AllocError>
    ensures { OnOk result (AddsOfFragments (schema_tree schema.now) (variables_of variables.now) (reached_fragments_of reach.now) faults.old faults.new) }
{
    for index in 0..reach.fragments.len() {
        check_fragment(schema, reach.fragments[index], variables, faults)?;
    }
    Ok(())
}

/// Adds the faults of what an operation reaches, if that is typed: MissingSubselection, the rules on arguments for those of
/// fields, and the rules on directives for those of the operation, of each selection and of each fragment.
pub fn check_selections(
    schema: &IndexedSchema<'_>,
    operation: &Node<Operation>,
    reach: &Reach<'_>,
    faults: &mut Vec<Fault>,
) -> Result<(), AllocError>
    ensures { OnOk result ((d : MeantDocument Place) → IsReachOf d (meant_by_operation (node_tree typed_operation_tree operation.now)) reach.now → ReachesTyped (meanings (plain (schema_tree schema.now))) d (meant_by_operation (node_tree typed_operation_tree operation.now)) → Adds faults.old faults.new (λ fault. SelectionsBreak (places_in (schema_tree schema.now)) (judged (schema_tree schema.now)) d (meant_by_operation (node_tree typed_operation_tree operation.now)) fault)) }
{
    let operation = operation.content();
    let alloc = *faults.allocator();
    let variables = DefinedVariables::new(alloc, operation.variables.as_slice())?;
    let location = DirectiveLocation::from(operation.operation_type);
    check_uses(
        schema,
        &operation.directives.0,
        location,
        &variables,
        faults,
    )?;
    check_each_selection(schema, reach, &variables, faults)?;
    check_fragments(schema, reach, &variables, faults)
}
