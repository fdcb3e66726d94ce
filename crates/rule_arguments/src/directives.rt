//! Directives that are used at one place.
ghost use Rattle.std.specs.Prelude.{◌≡◌, ◌⊎◌, ◌↔◌, ◌∷◌, [], IsTrue, OnOk, Some, Contains};
ghost use Rattle.std.specs.Option.{option_map};
ghost use Rattle.graphql_names.specs.Node.{content, place};
ghost use Rattle.graphql_names.specs.Placed.{node_tree};
ghost use Rattle.tree_directives.specs.DirectiveTree.{directive_tree, directive_definition_tree};
ghost use Rattle.tree_directives.specs.declared.directive_location.DirectiveLocation.{DirectiveLocation};
ghost use Rattle.rule_values.specs.in_schema.in_schema_types.Addresses.{directive_definition_at};
ghost use Rattle.rule_values.specs.in_schema.SchemaOf.{schema_tree};
ghost use Rattle.rule_values.specs.in_rule_definitions.Names.{directive_name};
ghost use Rattle.rule_values.specs.in_fault_data.Adds.{Adds};
ghost use Rattle.rule_values.specs.Firsts.{AreFirsts};
ghost use Rattle.rule_values.specs.Wanting.{variables_of};
ghost use Rattle.rule_values.specs.Telling.{Tells};
ghost use Rattle.rule_arguments.specs.AddedFaults.{AddsUsesFaults};
ghost use Rattle.rule_arguments.specs.Trees.{directives_of, tree_of};
ghost use Rattle.rule_arguments.specs.UseFaults.{undefined_directive};
ghost use Rattle.rule_arguments.specs.Alone.{DirectiveAloneBreaks, DirectivesAloneBreak};
ghost use Rattle.rule_arguments.specs.Telling.{schema_of, AddsUnsupported, directive_used_again, repeated_directives_of, BreaksItsDefinition, OneUseBreaks, SomeUseBreaks, UndefinedUseBreaks, AddsUndefinedUses};

use crate::given::{check_arguments_alone, check_given, check_variables_given};
use crate::rule_context::RuleContext;
use crate::taken::check_taken;
use crate::taker::{Taker, TakerName};
use graphql_names::{Name, Node, SourceSpan};
use indexmap::IndexMap;
use rule_values::{
    DefinedVariables, DiagnosticData, Fault, IndexedSchema, Schema, note_first, tell,
};
use std::alloc::AllocError;
use tree_directives::{Directive, DirectiveDefinition, DirectiveLocation};

/// The definition of the directive of that name, if there is one.
fn find_definition<'a>(
    schema: &'a IndexedSchema<'_>,
    name: &Name,
) -> Option<&'a Node<DirectiveDefinition>>
    ensures { option_map (λ d. node_tree directive_definition_tree d.now) result ≡ directive_definition_at (schema_tree schema.now) name.now.text }
{
    schema.schema().directive_definitions.get(name)
}

/// UndefinedDirective: a use of a directive is valid only if the directive is defined (section 5.7.1). This one is not.
fn undefined_directive(
    directive: &Node<Directive>,
    faults: &mut Vec<Fault>,
) -> Result<(), AllocError>
    ensures { OnOk result (Tells faults.old faults.new (undefined_directive (node_tree directive_tree directive.now) ∷ [])) }
{
    let name = directive.content().name.clone()?;
    let location = directive.location();
    let data = DiagnosticData::UndefinedDirective { name };
    tell(faults, Some(Fault { location, data }))
}

/// Whether the location is among these.
fn has_location(locations: &[DirectiveLocation], location: DirectiveLocation) -> bool
    ensures { IsTrue result ↔ Contains locations.now location }
{
    locations.contains(&location)
}

/// UnsupportedLocation: a use of a directive is valid only if the directive may stand at such a place (section 5.7.2).
fn unsupported_location(
    directive: &Node<Directive>,
    definition: &Node<DirectiveDefinition>,
    location: DirectiveLocation,
    faults: &mut Vec<Fault>,
) -> Result<(), AllocError>
    ensures { OnOk result (AddsUnsupported definition.now location directive.now faults.old faults.new) }
{
    let supported = &definition.content().locations;
    if has_location(supported, location) {
        return Ok(());
    }
    let valid_locations = supported.clone()?;
    let data = DiagnosticData::UnsupportedLocation {
        name: directive.content().name.clone()?,
        location,
        valid_locations,
        definition_location: definition.location(),
    };
    let place = directive.location();
    let fault = Fault {
        location: place,
        data,
    };
    tell(faults, Some(fault))
}

/// UniqueDirective: a use of a directive that is not repeatable is valid only if the directive has no other use at that
/// place (section 5.7.3). `first` is the place of the first of its name, if one is before it.
fn unique_directive(
    schema: &IndexedSchema<'_>,
    first: Option<Option<SourceSpan>>,
    later: &Node<Directive>,
    faults: &mut Vec<Fault>,
) -> Result<(), AllocError>
    ensures { OnOk result (Tells faults.old faults.new (directive_used_again schema.now first later.now)) }
{
    let name = &later.content().name;
    let Some(definition) = find_definition(schema, name) else {
        return Ok(());
    };
    if definition.content().repeatable {
        return Ok(());
    }
    let Some(original_application) = first else {
        return Ok(());
    };
    let data = DiagnosticData::UniqueDirective {
        name: name.clone()?,
        original_application,
    };
    let location = later.location();
    tell(faults, Some(Fault { location, data }))
}

/// Adds a fault for each directive that is not repeatable and is used before.
fn tell_repeated_directives(
    schema: &IndexedSchema<'_>,
    directives: &[Node<Directive>],
    faults: &mut Vec<Fault>,
) -> Result<(), AllocError>
    ensures { OnOk result (Tells faults.old faults.new (repeated_directives_of schema.now directives.now)) }
{
    if directives.len() < 2 {
        return Ok(());
    }
    let mut places = IndexMap::new(*faults.allocator());
    tell_directives_again(schema, directives, &mut places, faults)
}

/// The same. `places` gets the place of the first directive of each name; it is empty before.
fn tell_directives_again(
    schema: &IndexedSchema<'_>,
    directives: &[Node<Directive>],
    places: &mut IndexMap<Name, Option<SourceSpan>>,
    faults: &mut Vec<Fault>,
) -> Result<(), AllocError>
    requires { AreFirsts directive_name (λ i a. a.place) places.old (directives_of []) }
    ensures { OnOk result (Tells faults.old faults.new (repeated_directives_of schema.now directives.now)) }
{
    for directive in directives {
        let name = &directive.content().name;
        let first = note_first(places, name, directive.location())?;
        unique_directive(schema, first, directive, faults)?;
    }
    Ok(())
}

/// Adds the faults of the use of a directive, judged by the directive's definition.
fn check_defined_use(
    judging: &RuleContext<'_>,
    directive: &Node<Directive>,
    definition: &Node<DirectiveDefinition>,
    location: DirectiveLocation,
    faults: &mut Vec<Fault>,
) -> Result<(), AllocError>
    requires { directive_definition_at (schema_of judging.now) (content directive.now).name.text ≡ Some (node_tree directive_definition_tree definition.now) }
    ensures { OnOk result (Adds faults.old faults.new (BreaksItsDefinition judging.now location directive.now definition.now)) }
{
    unsupported_location(directive, definition, location, faults)?;
    let place = directive.location();
    let used = directive.content();
    let defined = judging
        .schema
        .arguments_of_directive(&used.name, definition);
    let taker = Taker {
        location: place,
        given: used.arguments.as_slice(),
        definitions: &defined,
        definition_location: place,
        name: TakerName::OfDirective(&used.name),
    };
    check_taken(judging.schema, &taker, judging.variables, faults)
}

/// Adds the faults of one use of a directive.
fn check_use(
    judging: &RuleContext<'_>,
    directive: &Node<Directive>,
    location: DirectiveLocation,
    faults: &mut Vec<Fault>,
) -> Result<(), AllocError>
    ensures { OnOk result (Adds faults.old faults.new (OneUseBreaks judging.now location directive.now)) }
{
    let used = directive.content();
    check_given(&used.arguments, judging.variables, faults)?;
    match find_definition(judging.schema, &used.name) {
        None => undefined_directive(directive, faults),
        Some(definition) => check_defined_use(judging, directive, definition, location, faults),
    }
}

/// Adds the faults of each use.
fn check_each_use(
    judging: &RuleContext<'_>,
    directives: &[Node<Directive>],
    location: DirectiveLocation,
    faults: &mut Vec<Fault>,
) -> Result<(), AllocError>
    ensures { OnOk result (Adds faults.old faults.new (SomeUseBreaks judging.now location directives.now)) }
{
    for directive in directives {
        check_use(judging, directive, location, faults)?;
    }
    Ok(())
}

/// Adds the faults of the directives that are used at one place of a document or a schema, with an operation's variables or
/// none: UniqueDirective, UndefinedDirective, UnsupportedLocation, and the rules on arguments.
pub fn check_uses(
    schema: &IndexedSchema<'_>,
    directives: &[Node<Directive>],
    location: DirectiveLocation,
    variables: &DefinedVariables<'_>,
    faults: &mut Vec<Fault>,
) -> Result<(), AllocError>
    ensures { OnOk result (AddsUsesFaults (schema_tree schema.now) (variables_of variables.now) location (directives_of directives.now) faults.old faults.new) }
{
    tell_repeated_directives(schema, directives, faults)?;
    let judging = RuleContext { schema, variables };
    check_each_use(&judging, directives, location, faults)
}

/// Adds the faults of the use of a directive where none is defined, without variables.
fn check_directive_alone(
    directive: &Node<Directive>,
    faults: &mut Vec<Fault>,
) -> Result<(), AllocError>
    ensures { OnOk result (Adds faults.old faults.new (DirectiveAloneBreaks (node_tree directive_tree directive.now))) }
{
    check_arguments_alone(&directive.content().arguments, faults)?;
    undefined_directive(directive, faults)
}

/// Adds the faults of the rules on the use of directives that need neither a schema nor variables: UndefinedDirective
/// of each, and of its arguments those of `check_arguments_alone`.
pub fn check_directives_alone(
    directives: &[Node<Directive>],
    faults: &mut Vec<Fault>,
) -> Result<(), AllocError>
    ensures { OnOk result (Adds faults.old faults.new (DirectivesAloneBreak (directives_of directives.now))) }
{
    for directive in directives {
        check_directive_alone(directive, faults)?;
    }
    Ok(())
}

/// Adds the faults of the use of a directive where there is no schema: none is defined.
fn check_undefined_use(
    directive: &Node<Directive>,
    variables: &DefinedVariables<'_>,
    faults: &mut Vec<Fault>,
) -> Result<(), AllocError>
    ensures { OnOk result ((location : DirectiveLocation) → Adds faults.old faults.new (UndefinedUseBreaks variables.now location directive.now)) }
{
    check_directive_alone(directive, faults)?;
    check_variables_given(&directive.content().arguments, variables, faults)
}

/// Adds the faults of each use where there is no schema.
fn check_undefined_uses(
    directives: &[Node<Directive>],
    variables: &DefinedVariables<'_>,
    faults: &mut Vec<Fault>,
) -> Result<(), AllocError>
    ensures { OnOk result (AddsUndefinedUses variables.now directives.now faults.old faults.new) }
{
    for directive in directives {
        check_undefined_use(directive, variables, faults)?;
    }
    Ok(())
}

/// The same as `check_uses`, for a schema that may be missing: then each directive that is used is undefined.
pub fn check_directives(
    schema: Option<&Schema>,
    directives: &[Node<Directive>],
    location: DirectiveLocation,
    variables: &DefinedVariables<'_>,
    faults: &mut Vec<Fault>,
) -> Result<(), AllocError>
    ensures { OnOk result (AddsUsesFaults (tree_of schema.entry) (variables_of variables.now) location (directives_of directives.now) faults.old faults.new) }
{
    match schema {
        None => check_undefined_uses(directives, variables, faults),
        Some(schema) => {
            let schema = IndexedSchema::plain(schema);
            check_uses(&schema, directives, location, variables, faults)
        }
    }
}
