//! Departures of the definitions of directives.
ghost use Rattle.std.specs.Prelude.{◌≡◌, flat_map, OnOk};
ghost use Rattle.std.specs.List.{list_any};
ghost use Rattle.std.specs.Str.{bytes_eq};
ghost use Rattle.graphql_names.specs.Placed.{node_tree};
ghost use Rattle.tree_directives.specs.DirectiveTree.{directive_definition_tree, directives_tree};
ghost use Rattle.graphql_schema.specs.SchemaOf.{schema_tree};
ghost use Rattle.strict_documents.specs.DepartureViews.{Tells};
ghost use Rattle.strict_schemas.specs.Departing.{specified_directives, is_own_built_in, own_departures, applied_departure, definition_departures};
ghost use Rattle.strict_schemas.specs.Told.{definitions_in};

use crate::inputs::tell_inputs;
use crate::telling::tell_if;
use graphql_names::{Name, Node};
use indexmap::IndexMap;
use rule_values::IndexedSchema;
use std::alloc::AllocError;
use strict_documents::{Departure, DepartureKind};
use tree_directives::{DirectiveDefinition, DirectiveList};

/// Whether the specification has a directive of that name.
fn is_specified(name: &str) -> bool
    ensures { result ≡ list_any (bytes_eq name.now) specified_directives }
{
    name == "skip" || name == "include" || name == "deprecated" || name == "specifiedBy"
}

/// Whether the schema defines a directive of the specification itself.
fn is_own_built_in(definition: &Node<DirectiveDefinition>) -> bool
    ensures { result ≡ is_own_built_in (node_tree directive_definition_tree definition.now) }
{
    is_specified(definition.content().name.as_str()) && !definition.is_built_in()
}

/// OwnBuiltInDirective: the directives of the specification are as defined there (section 3.13).
fn tell_own(
    definition: &Node<DirectiveDefinition>,
    departures: &mut Vec<Departure>,
) -> Result<(), AllocError>
    ensures { OnOk result (Tells departures.old departures.new (own_departures (node_tree directive_definition_tree definition.now))) }
{
    let is_told = is_own_built_in(definition);
    let kind = DepartureKind::OwnBuiltInDirective;
    let name = &definition.content().name;
    tell_if(is_told, definition.location(), kind, name, departures)
}

/// DirectiveOnDirective: no directive is applied to the definition of a directive (section 3.13).
fn tell_applied(
    directives: &DirectiveList,
    departures: &mut Vec<Departure>,
) -> Result<(), AllocError>
    ensures { OnOk result (Tells departures.old departures.new (flat_map applied_departure (directives_tree directives.now))) }
{
    for directive in &directives.0 {
        let kind = DepartureKind::DirectiveOnDirective;
        let name = &directive.content().name;
        tell_if(true, directive.location(), kind, name, departures)?;
    }
    Ok(())
}

/// Adds the departures of the definition of a directive.
fn tell_definition(
    schema: &IndexedSchema<'_>,
    definition: &Node<DirectiveDefinition>,
    departures: &mut Vec<Departure>,
) -> Result<(), AllocError>
    ensures { OnOk result (Tells departures.old departures.new (definition_departures (schema_tree schema.now) (node_tree directive_definition_tree definition.now))) }
{
    tell_own(definition, departures)?;
    let own = definition.content();
    tell_applied(&own.directives, departures)?;
    tell_inputs(schema, own.arguments.as_slice(), departures)
}

/// Adds the departures of the definitions of directives.
#[tactic(auto, using(crate::proofs::Steps::room_steps))]
pub(crate) fn tell_definitions(
    schema: &IndexedSchema<'_>,
    definitions: &IndexMap<Name, Node<DirectiveDefinition>>,
    departures: &mut Vec<Departure>,
) -> Result<(), AllocError>
    ensures { OnOk result (Tells departures.old departures.new (definitions_in (schema_tree schema.now) definitions.now.entries)) }
{
    for (_, definition) in definitions {
        tell_definition(schema, definition, departures)?;
    }
    Ok(())
}
