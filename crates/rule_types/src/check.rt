//! Tells which rules a schema breaks on its roots, names and the types that are referred to, and which against empty types.
ghost use Rattle.std.specs.Prelude.{OnOk};
ghost use Rattle.graphql_schema.specs.SchemaOf.{schema_tree};
ghost use Rattle.fault_data.specs.Adds.{Adds};
ghost use Rattle.rule_types.specs.Adds.{AddsThese};
ghost use Rattle.schema_types.specs.Distinct.{AreAllDistinct};
ghost use Rattle.fault_data.specs.in_rule_definitions.PlacedFaults.{Told};
ghost use Rattle.rule_types.specs.TypesBreak.{TypesBreak};
ghost use Rattle.rule_types.specs.FaultLists.{parts_faults, type_faults, directive_faults, types_faults, directives_faults, faults_in};
ghost use Rattle.rule_types.specs.Trees.{schema_of, directive_tree};

use crate::arguments::check_arguments;
use crate::members::{check_fields, check_input_fields, check_members, check_values};
use crate::reserved::{Named, reserved_name};
use crate::roots::check_roots;
use crate::rule_context::RuleContext;
use fault_data::Fault;
use graphql_names::{Name, Node};
use graphql_schema::Schema;
use schema_types::ExtendedType;
use std::alloc::{AllocError, Global};
use tree_directives::DirectiveDefinition;

/// Tells each fault of the rules on roots, names and the types that are referred to, and of those against empty types,
/// as far as there is room. It fails only where memory is refused; then some may be told.
pub fn check_types(
    alloc: Global,
    schema: &Schema,
    faults: &mut Vec<Fault>,
) -> Result<(), AllocError>
    requires distinct { AreAllDistinct (schema_tree schema.now) }
    ensures { OnOk result (Adds faults.old faults.new (Told (schema_tree schema.now) TypesBreak)) }
{
    let judging = RuleContext { alloc, schema };
    check_all(&judging, faults)
}

/// Tells the faults of the roots, then those of each type, then those of each directive definition.
#[tactic(auto, using(crate::proofs::RoomSteps::room_steps))]
fn check_all(judging: &RuleContext<'_>, faults: &mut Vec<Fault>) -> Result<(), AllocError>
    ensures { OnOk result (AddsThese faults.old faults.new (faults_in judging.now.schema.now)) }
{
    check_roots(judging, faults)?;
    check_each_type(judging, faults)?;
    check_each_directive(judging, faults)
}

/// Tells the faults of each type.
#[tactic(auto, using(crate::proofs::RoomSteps::room_steps))]
fn check_each_type(judging: &RuleContext<'_>, faults: &mut Vec<Fault>) -> Result<(), AllocError>
    ensures { OnOk result (AddsThese faults.old faults.new (types_faults (schema_of judging.now) judging.now.schema.now.types.entries)) }
{
    for (name, ty) in &judging.schema.types {
        check_type(judging, name, ty, faults)?;
    }
    Ok(())
}

/// Tells the faults of a type.
#[tactic(auto, using(crate::proofs::RoomSteps::room_steps))]
fn check_type(
    judging: &RuleContext<'_>,
    name: &Name,
    ty: &ExtendedType,
    faults: &mut Vec<Fault>,
) -> Result<(), AllocError>
    ensures { OnOk result (AddsThese faults.old faults.new (type_faults (schema_of judging.now) name.now.text ty.now)) }
{
    let location = ty.name().location();
    reserved_name(ty.is_built_in(), name, location, ty.describe(), faults)?;
    check_parts(judging, name, ty, faults)
}

/// Tells the faults of the parts of a type.
fn check_parts(
    judging: &RuleContext<'_>,
    name: &Name,
    ty: &ExtendedType,
    faults: &mut Vec<Fault>,
) -> Result<(), AllocError>
    ensures { OnOk result (AddsThese faults.old faults.new (parts_faults (schema_of judging.now) name.now.text ty.now)) }
{
    match ty {
        ExtendedType::Scalar(_) => Ok(()),
        ExtendedType::Object(own) => {
            check_fields(judging, name, ty, &own.content().fields, faults)
        }
        ExtendedType::Interface(own) => {
            check_fields(judging, name, ty, &own.content().fields, faults)
        }
        ExtendedType::Union(own) => {
            check_members(judging, name, ty, &own.content().members, faults)
        }
        ExtendedType::Enum(own) => check_values(judging, name, ty, &own.content().values, faults),
        ExtendedType::InputObject(own) => {
            check_input_fields(judging, name, ty, &own.content().fields, faults)
        }
    }
}

/// Tells the faults of each directive definition.
#[tactic(auto, using(crate::proofs::RoomSteps::room_steps))]
fn check_each_directive(
    judging: &RuleContext<'_>,
    faults: &mut Vec<Fault>,
) -> Result<(), AllocError>
    ensures { OnOk result (AddsThese faults.old faults.new (directives_faults (schema_of judging.now) judging.now.schema.now.directive_definitions.entries)) }
{
    for (name, directive) in &judging.schema.directive_definitions {
        check_directive(judging, name, directive, faults)?;
    }
    Ok(())
}

/// Tells the faults of a directive definition.
#[tactic(auto, using(crate::proofs::RoomSteps::room_steps))]
fn check_directive(
    judging: &RuleContext<'_>,
    name: &Name,
    directive: &Node<DirectiveDefinition>,
    faults: &mut Vec<Fault>,
) -> Result<(), AllocError>
    ensures { OnOk result (AddsThese faults.old faults.new (directive_faults (schema_of judging.now) name.now.text (directive_tree directive.now))) }
{
    let content = directive.content();
    reserved_name(
        directive.is_built_in(),
        name,
        content.name.location(),
        Named::Directive.describe(),
        faults,
    )?;
    check_arguments(judging, &content.arguments, faults)
}
