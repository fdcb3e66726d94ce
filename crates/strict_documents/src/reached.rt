//! Departures of what an operation reaches.
ghost use Rattle.std.specs.Prelude.{OnOk};
ghost use Rattle.graphql_schema.specs.SchemaOf.{schema_tree};
ghost use Rattle.document_typed_selections.specs.TypedTree.{typed_selection_tree};
ghost use Rattle.document_typed_operations.specs.DocumentView.{document_meant, operation_meant};
ghost use Rattle.spec_document.specs.MeantTree.{meant};
ghost use Rattle.rule_reach.specs.Reach.{meant_fragments, reached_fragments_of, reached_members};
ghost use Rattle.rule_values.specs.Wanting.{variables_of};
ghost use Rattle.strict_documents.specs.Given.{schema_of, variables_in};
ghost use Rattle.strict_documents.specs.DepartureViews.{Tells};
ghost use Rattle.strict_documents.specs.Telling.{AddsDepartures, DepartsInReached, applied_directives, fragments_departures, member_departures, members_departures, reached_departures};

use crate::applying::tell_spread;
use crate::arguments::{tell_directives, tell_selection};
use crate::departure::Departure;
use crate::location::Strictness;
use crate::objects::StrictSchema;
use document_typed_operations::{ExecutableDocument, FragmentMap, Operation};
use document_typed_selections::Selection;
use graphql_names::{Name, Node};
use rule_reach::{Reach, reach};
use rule_values::{DefinedVariables, IndexedSchema};
use std::alloc::AllocError;
use tree_directives::Directive;

/// Adds the departures of a selection of a set on the type of that name.
fn tell_member(
    schema: &StrictSchema<'_>,
    variables: &DefinedVariables<'_>,
    fragments: &FragmentMap,
    parent: &Name,
    selection: &Selection,
    departures: &mut Vec<Departure>,
) -> Result<(), AllocError>
    ensures { OnOk result (Tells departures.old departures.new (member_departures (schema_tree schema.now) (variables_of variables.now) (meant_fragments fragments.now) (parent.now.text, meant (typed_selection_tree selection.now)))) }
{
    let indexed = schema.indexed();
    let strictness = Strictness {
        schema: &indexed,
        variables,
    };
    tell_selection(&strictness, parent, selection, departures)?;
    tell_spread(schema, fragments, parent, selection, departures)
}

/// Adds the departures of all selections of a reach.
fn tell_members(
    schema: &StrictSchema<'_>,
    variables: &DefinedVariables<'_>,
    fragments: &FragmentMap,
    reach: &Reach<'_>,
    departures: &mut Vec<Departure>,
) -> Result<(), AllocError>
    ensures { OnOk result (Tells departures.old departures.new (members_departures (schema_tree schema.now) (variables_of variables.now) (meant_fragments fragments.now) (reached_members reach.now))) }
{
    for (parent, selection) in &reach.selections {
        tell_member(schema, variables, fragments, parent, selection, departures)?;
    }
    Ok(())
}

/// Adds the departures of the directives of all fragments of a reach.
fn tell_fragments(
    strictness: &Strictness<'_>,
    reach: &Reach<'_>,
    departures: &mut Vec<Departure>,
) -> Result<(), AllocError>
    ensures { OnOk result (Tells departures.old departures.new (fragments_departures (schema_of strictness.now) (variables_in strictness.now) (reached_fragments_of reach.now))) }
{
    for index in 0..reach.fragments.len() {
        let fragment = reach.fragments[index].content();
        tell_directives(strictness, fragment.directives.0.as_slice(), departures)?;
    }
    Ok(())
}

/// Adds the departures of these directives, and of all of a reach.
fn tell_all(
    schema: &StrictSchema<'_>,
    variables: &DefinedVariables<'_>,
    fragments: &FragmentMap,
    directives: &[Node<Directive>],
    reach: &Reach<'_>,
    departures: &mut Vec<Departure>,
) -> Result<(), AllocError>
    ensures { OnOk result (Tells departures.old departures.new (reached_departures (schema_tree schema.now) (variables_of variables.now) (meant_fragments fragments.now) (applied_directives directives.now) (reached_members reach.now) (reached_fragments_of reach.now))) }
{
    let indexed = schema.indexed();
    let strictness = Strictness {
        schema: &indexed,
        variables,
    };
    tell_directives(&strictness, directives, departures)?;
    tell_members(schema, variables, fragments, reach, departures)?;
    tell_fragments(&strictness, reach, departures)
}

/// Adds the departures of the directives of the operation, and of all that it reaches.
pub(crate) fn tell_reached(
    schema: &StrictSchema<'_>,
    document: &ExecutableDocument,
    operation: &Node<Operation>,
    departures: &mut Vec<Departure>,
) -> Result<(), AllocError>
    ensures { OnOk result (AddsDepartures departures.old departures.new (DepartsInReached (schema_tree schema.now) (document_meant document.now) (operation_meant operation.now))) }
{
    let alloc = *departures.allocator();
    let own = operation.content();
    let fragments = &document.fragments;
    let variables = DefinedVariables::new(alloc, own.variables.as_slice())?;
    let reach = reach(alloc, &own.selection_set, fragments)?;
    let directives = own.directives.0.as_slice();
    tell_all(
        schema, &variables, fragments, directives, &reach, departures,
    )
}
