//! Directives that are applied to built-in scalars (section 5.7).
ghost use Rattle.std.specs.Prelude.{◌≡◌, [], map, IfOk, OnOk};
ghost use Rattle.schema_components.specs.Applied.{applied_tree};
ghost use Rattle.schema_types.specs.TypeView.{extended_type};
ghost use Rattle.graphql_schema.specs.SchemaOf.{schema_tree};
ghost use Rattle.rule_definitions.specs.Judged.{is_built_in_scalar};
ghost use Rattle.fault_data.specs.Adds.{Adds};
ghost use Rattle.rule_arguments.specs.Trees.{directives_of};
ghost use Rattle.strict_schemas.specs.Faults.{ScalarBreaks, ScalarsBreak};
ghost use Rattle.strict_schemas.specs.FaultsIn.{ScalarsIn};
ghost use Rattle.strict_schemas.specs.Told.{type_entry};

use graphql_names::{Name, Node};
use indexmap::IndexMap;
use rule_arguments::check_uses;
use rule_values::{DefinedVariables, Fault, IndexedSchema};
use schema_components::DirectiveList;
use schema_types::ExtendedType;
use std::alloc::{AllocError, Global};
use tree_directives::{Directive, DirectiveLocation};

/// The nodes of applied directives, in order.
fn nodes_of(alloc: Global, list: &DirectiveList) -> Result<Vec<Node<Directive>>, AllocError>
    ensures { IfOk result (λ v. directives_of v.items ≡ map (λ g. g.it) (applied_tree list.now)) }
{
    let mut nodes = Vec::new(alloc);
    for directive in &list.0 {
        nodes.push(directive.node.clone()?)?;
    }
    Ok(nodes)
}

/// Whether a type is a scalar that is built in.
fn is_built_in_scalar(ty: &ExtendedType) -> bool
    ensures { result ≡ is_built_in_scalar (extended_type ty.now) }
{
    ty.is_scalar() && ty.is_built_in()
}

/// Adds the faults of the directives of a type, if it is a built-in scalar.
fn check_scalar(
    schema: &IndexedSchema<'_>,
    ty: &ExtendedType,
    faults: &mut Vec<Fault>,
) -> Result<(), AllocError>
    ensures { OnOk result (Adds faults.old faults.new (ScalarBreaks (schema_tree schema.now) (extended_type ty.now))) }
{
    if !is_built_in_scalar(ty) {
        return Ok(());
    }
    let nodes = nodes_of(*faults.allocator(), ty.directives())?;
    let variables = DefinedVariables::listed(&[]);
    let location = DirectiveLocation::Scalar;
    check_uses(schema, &nodes, location, &variables, faults)
}

/// Adds the faults of the directives of those of these types that are built-in scalars.
fn check_types(
    schema: &IndexedSchema<'_>,
    types: &IndexMap<Name, ExtendedType>,
    faults: &mut Vec<Fault>,
) -> Result<(), AllocError>
    ensures { OnOk result (Adds faults.old faults.new (ScalarsIn (schema_tree schema.now) (map type_entry types.now.entries))) }
{
    for (_, ty) in types {
        check_scalar(schema, ty, faults)?;
    }
    Ok(())
}

/// Adds the faults by which the directives of built-in scalars break rules on uses.
pub(crate) fn check_scalars(
    schema: &IndexedSchema<'_>,
    faults: &mut Vec<Fault>,
) -> Result<(), AllocError>
    ensures { OnOk result (Adds faults.old faults.new (ScalarsBreak (schema_tree schema.now))) }
{
    check_types(schema, &schema.schema().types, faults)
}
