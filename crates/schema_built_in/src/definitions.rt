//! The definitions that each schema has.
ghost use Rattle.std.specs.Prelude.{◌≡◌, ◌++◌, ◌∷◌, [], map, IfOk, OnOk, IsTrue};
ghost use Rattle.std.specs.List.{list_all, list_any};
ghost use Rattle.graphql_names.specs.NameSyntax.{IsName, is_name};
ghost use Rattle.graphql_names.specs.Placed.{node_tree};
ghost use Rattle.tree_directives.specs.DirectiveTree.{input_value_tree};
ghost use Rattle.schema_fold.specs.in_definitions.DefinitionTree.{definition_tree};
ghost use Rattle.schema_fold.specs.BuiltIn.{directive, scalar, object, enum};
ghost use Rattle.schema_fold.specs.BuildErrors.{is_built_in_scalar};
ghost use Rattle.schema_built_in.specs.Table.{built_in_definitions};
ghost use Rattle.schema_built_in.specs.Rows.{row_argument, row_field, row_definition, is_scalar_named, has_argument_names, has_field_names, has_names};

use crate::members::{fields_of, values_of};
use crate::parts::{arguments_of, node_here};
use crate::table::{ArgumentRow, FieldRow, ROWS, Row};
use graphql_names::{Name, Node};
use schema_fold::{Definition, ObjectTypeDefinition};
use std::alloc::{AllocError, Global};
use tree_directives::{
    DirectiveDefinition, DirectiveList, DirectiveLocation, InputValueDefinition,
};
use tree_input_types::{EnumTypeDefinition, ScalarTypeDefinition};

/// A directive with these parts.
fn directive_with(
    alloc: Global,
    name: &'static str,
    arguments: Vec<Node<InputValueDefinition>>,
    locations: Vec<DirectiveLocation>,
) -> Result<Definition, AllocError>
    requires { IsName name.now }
    ensures { IfOk result (λ d. definition_tree d ≡ directive name.now (map (node_tree input_value_tree) arguments.items) locations.items) }
{
    let definition = DirectiveDefinition {
        description: None,
        name: Name::new_static_unchecked(name),
        arguments,
        directives: DirectiveList(Vec::new(alloc)),
        repeatable: false,
        locations,
    };
    Ok(Definition::DirectiveDefinition(node_here(alloc, definition)?))
}

/// A directive with the arguments of the rows.
fn directive(
    alloc: Global,
    name: &'static str,
    rows: &[ArgumentRow],
    locations: &[DirectiveLocation],
) -> Result<Definition, AllocError>
    requires name { IsName name.now }
    requires arguments { IsTrue (list_all has_argument_names rows.now) }
    ensures { IfOk result (λ d. definition_tree d ≡ directive name.now (map row_argument rows.now) locations.now) }
{
    let arguments = arguments_of(alloc, rows)?;
    let locations = Vec::from_slice(alloc, locations)?;
    directive_with(alloc, name, arguments, locations)
}

/// A scalar.
fn scalar(alloc: Global, name: &'static str) -> Result<Definition, AllocError>
    requires { IsName name.now }
    ensures { IfOk result (λ d. definition_tree d ≡ scalar name.now) }
{
    let definition = ScalarTypeDefinition {
        description: None,
        name: Name::new_static_unchecked(name),
        directives: DirectiveList(Vec::new(alloc)),
    };
    Ok(Definition::ScalarTypeDefinition(node_here(alloc, definition)?))
}

/// An object with the fields of the rows.
fn object(alloc: Global, name: &'static str, rows: &[FieldRow]) -> Result<Definition, AllocError>
    requires name { IsName name.now }
    requires fields { IsTrue (list_all has_field_names rows.now) }
    ensures { IfOk result (λ d. definition_tree d ≡ object name.now (map row_field rows.now)) }
{
    let fields = fields_of(alloc, rows)?;
    let definition = ObjectTypeDefinition {
        description: None,
        name: Name::new_static_unchecked(name),
        implements_interfaces: Vec::new(alloc),
        directives: DirectiveList(Vec::new(alloc)),
        fields,
    };
    Ok(Definition::ObjectTypeDefinition(node_here(alloc, definition)?))
}

/// An enum with values of these names.
fn enum_type(
    alloc: Global,
    name: &'static str,
    values: &[&'static str],
) -> Result<Definition, AllocError>
    requires name { IsName name.now }
    requires values { IsTrue (list_all (λ v. is_name v.now) values.now) }
    ensures { IfOk result (λ d. definition_tree d ≡ enum name.now (map (λ v. v.now) values.now)) }
{
    let values = values_of(alloc, values)?;
    let definition = EnumTypeDefinition {
        description: None,
        name: Name::new_static_unchecked(name),
        directives: DirectiveList(Vec::new(alloc)),
        values,
    };
    Ok(Definition::EnumTypeDefinition(node_here(alloc, definition)?))
}

/// The definition of the row.
fn definition_of(alloc: Global, row: Row) -> Result<Definition, AllocError>
    requires { IsTrue (has_names row) }
    ensures { IfOk result (λ d. definition_tree d ≡ row_definition row) }
{
    match row {
        Row::Directive(name, arguments, locations) => directive(alloc, name, arguments, locations),
        Row::Scalar(name) => scalar(alloc, name),
        Row::Object(name, fields) => object(alloc, name, fields),
        Row::Enum(name, values) => enum_type(alloc, name, values),
    }
}

/// Adds the definition of the row.
fn add_definition(
    alloc: Global,
    definitions: &mut Vec<Definition>,
    row: Row,
) -> Result<(), AllocError>
    requires { IsTrue (has_names row) }
    ensures { OnOk result (map definition_tree definitions.new.items ≡ map definition_tree definitions.old.items ++ row_definition row ∷ []) }
{
    let definition = definition_of(alloc, row)?;
    definitions.push(definition)?;
    Ok(())
}

/// The definitions of the rows.
// A loop over rows of a table: a call with its `?` for each definition would cost far more to prove.
fn definitions_of(alloc: Global, rows: &[Row]) -> Result<Vec<Definition>, AllocError>
    requires { IsTrue (list_all has_names rows.now) }
    ensures { IfOk result (λ v. map definition_tree v.items ≡ map row_definition rows.now) }
{
    let mut definitions = Vec::new(alloc);
    for row in rows {
        add_definition(alloc, &mut definitions, *row)?;
    }
    Ok(definitions)
}

/// The definitions that each schema has, in the order in which it has them: the directives (section 3.13), the scalars
/// (section 3.5) and the types of introspection (section 4.2).
pub fn built_in_definitions(alloc: Global) -> Result<Vec<Definition>, AllocError>
    ensures { IfOk result (λ v. map definition_tree v.items ≡ built_in_definitions) }
{
    definitions_of(alloc, ROWS)
}

/// Whether the row is a scalar of that name.
fn is_scalar_named(row: Row, name: &str) -> bool
    ensures { result ≡ is_scalar_named name.now row }
{
    match row {
        Row::Scalar(scalar) => name == scalar,
        Row::Directive(_, _, _) | Row::Object(_, _) | Row::Enum(_, _) => false,
    }
}

/// Whether a scalar of that name is among the rows.
fn has_scalar(rows: &[Row], name: &str) -> bool
    ensures { result ≡ list_any (is_scalar_named name.now) rows.now }
{
    for row in rows {
        if is_scalar_named(*row, name) {
            return true;
        }
    }
    false
}

/// Whether a scalar of that name is built in.
pub fn is_built_in_scalar(name: &str) -> bool
    ensures { result ≡ is_built_in_scalar built_in_definitions [] name.now }
{
    has_scalar(ROWS, name)
}
