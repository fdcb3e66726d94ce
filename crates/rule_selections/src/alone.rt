//! Rules on each selection that an operation reaches, without a schema.
ghost use Rattle.std.specs.Prelude.{OnOk};
ghost use Rattle.graphql_names.specs.NameValue.{NameValue};
ghost use Rattle.graphql_names.specs.Placed.{Place, node_tree};
ghost use Rattle.fault_data.specs.Adds.{Adds};
ghost use Rattle.rule_definitions.specs.Words.{AtSomeIndex};
ghost use Rattle.rule_arguments.specs.in_rule_values.Wanting.{variables_of};
ghost use Rattle.spec_document.specs.MeantTree.{MeantDocument, meant};
ghost use Rattle.document_typed_selections.specs.TypedTree.{typed_selection_tree};
ghost use Rattle.document_typed_operations.specs.TypedDocument.{typed_operation_tree};
ghost use Rattle.rule_reach.specs.in_typed_operations.DocumentView.{meant_by_operation};
ghost use Rattle.rule_document_definitions.specs.Standalone.{GivenInBreaks};
ghost use Rattle.rule_document_definitions.specs.PlacedDocumentFaults.{places_alone};
ghost use Rattle.rule_reach.specs.Reach.{reached_members, reached_fragments_of, IsReachOf};
ghost use Rattle.rule_arguments.specs.Alone.{DirectivesAloneBreak};
ghost use Rattle.rule_selections.specs.SelectionFaults.{SelectionAloneBreaks};

use document_typed_operations::Operation;
use document_typed_selections::Selection;
use graphql_names::Node;
use rule_arguments::{Fault, check_arguments_alone, check_directives_alone};
use rule_reach::Reach;
use std::alloc::AllocError;
use tree_operations::VariableDefinition;

/// Adds the faults of the directives of each variable.
fn check_variables_alone(
    variables: &[Node<VariableDefinition>],
    faults: &mut Vec<Fault>,
) -> Result<(), AllocError>
    ensures { OnOk result (Adds faults.old faults.new (λ f. AtSomeIndex (variables_of variables.now) (λ i x. DirectivesAloneBreak x.it.directives f))) }
{
    for variable in variables {
        check_directives_alone(&variable.content().directives.0, faults)?;
    }
    Ok(())
}

/// Adds the faults of a selection: of its directives, and of the arguments of a field.
fn check_selection_alone(selection: &Selection, faults: &mut Vec<Fault>) -> Result<(), AllocError>
    ensures { OnOk result ((parent : NameValue) → Adds faults.old faults.new (SelectionAloneBreaks (parent.text, meant (typed_selection_tree selection.now)))) }
{
    check_directives_alone(&selection.directives().0, faults)?;
    match selection.as_field() {
        None => Ok(()),
        Some(field) => check_arguments_alone(&field.content().arguments, faults),
    }
}

/// Adds the faults of each selection.
fn check_each_selection_alone(reach: &Reach<'_>, faults: &mut Vec<Fault>) -> Result<(), AllocError>
    ensures { OnOk result (Adds faults.old faults.new (λ f. AtSomeIndex (reached_members reach.now) (λ i e. SelectionAloneBreaks e f))) }
{
    for (_, selection) in &reach.selections {
        check_selection_alone(selection, faults)?;
    }
    Ok(())
}

/// Adds the faults of the directives of each fragment.
fn check_fragments_alone(reach: &Reach<'_>, faults: &mut Vec<Fault>) -> Result<(), AllocError>
    ensures { OnOk result (Adds faults.old faults.new (λ f. AtSomeIndex (reached_fragments_of reach.now) (λ i x. DirectivesAloneBreak x.directives f))) }
{
    for index in 0..reach.fragments.len() {
        check_directives_alone(&reach.fragments[index].content().directives.0, faults)?;
    }
    Ok(())
}

/// Adds the faults of what an operation reaches that need no schema: UniqueArgument and UniqueInputValue for the arguments of
/// fields and directives, and UndefinedDirective for each directive, those of the variables included.
pub fn check_selections_alone(
    operation: &Node<Operation>,
    reach: &Reach<'_>,
    faults: &mut Vec<Fault>,
) -> Result<(), AllocError>
    ensures { OnOk result ((d : MeantDocument Place) → IsReachOf d (meant_by_operation (node_tree typed_operation_tree operation.now)) reach.now → Adds faults.old faults.new (λ fault. GivenInBreaks places_alone d fault (meant_by_operation (node_tree typed_operation_tree operation.now)))) }
{
    let operation = operation.content();
    check_directives_alone(&operation.directives.0, faults)?;
    check_variables_alone(&operation.variables, faults)?;
    check_each_selection_alone(reach, faults)?;
    check_fragments_alone(reach, faults)
}
