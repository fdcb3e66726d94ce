//! Fields and enum values, made from the rows of the table.
ghost use Rattle.std.specs.Prelude.{◌≡◌, ◌++◌, ◌∷◌, [], map, None, IfOk, OnOk, IsTrue};
ghost use Rattle.std.specs.List.{list_all};
ghost use Rattle.graphql_names.specs.NameSyntax.{IsName, is_name};
ghost use Rattle.graphql_names.specs.Placed.{name_tree, node_tree};
ghost use Rattle.tree_literals.specs.TypeTree.{type_tree};
ghost use Rattle.tree_directives.specs.DirectiveTree.{input_value_tree};
ghost use Rattle.tree_type_members.specs.TypeSystemTree.{field_definition_tree, enum_value_tree};
ghost use Rattle.schema_fold.specs.BuiltIn.{here, value};
ghost use Rattle.schema_built_in.specs.Rows.{row_field, has_field_names};

use crate::parts::{arguments_of, node_here, type_of};
use crate::table::FieldRow;
use graphql_names::{Name, Node};
use std::alloc::{AllocError, Global};
use tree_directives::{DirectiveList, InputValueDefinition};
use tree_literals::Type;
use tree_type_members::{EnumValueDefinition, FieldDefinition};

/// A field with these parts.
fn field_with(
    alloc: Global,
    name: Name,
    arguments: Vec<Node<InputValueDefinition>>,
    ty: Type,
) -> Result<Node<FieldDefinition>, AllocError>
    ensures { IfOk result (λ f. node_tree field_definition_tree f ≡ here (record {
      description = None;
      name = name_tree name;
      arguments = map (node_tree input_value_tree) arguments.items;
      ty = type_tree ty;
      directives = [];
    })) }
{
    let field = FieldDefinition {
        description: None,
        name,
        arguments,
        ty,
        directives: DirectiveList(Vec::new(alloc)),
    };
    Ok(node_here(alloc, field)?)
}

/// The field of the row.
pub(crate) fn field_of(alloc: Global, row: FieldRow) -> Result<Node<FieldDefinition>, AllocError>
    requires { IsTrue (has_field_names row) }
    ensures { IfOk result (λ f. node_tree field_definition_tree f ≡ row_field row) }
{
    let arguments = arguments_of(alloc, row.1)?;
    let ty = type_of(alloc, row.2)?;
    field_with(alloc, Name::new_static_unchecked(row.0), arguments, ty)
}

/// Adds the field of the row.
fn add_field(
    alloc: Global,
    fields: &mut Vec<Node<FieldDefinition>>,
    row: FieldRow,
) -> Result<(), AllocError>
    requires { IsTrue (has_field_names row) }
    ensures { OnOk result (map (node_tree field_definition_tree) fields.new.items ≡ map (node_tree field_definition_tree) fields.old.items ++ row_field row ∷ []) }
{
    let field = field_of(alloc, row)?;
    fields.push(field)?;
    Ok(())
}

/// The fields of the rows.
pub(crate) fn fields_of(
    alloc: Global,
    rows: &[FieldRow],
) -> Result<Vec<Node<FieldDefinition>>, AllocError>
    requires { IsTrue (list_all has_field_names rows.now) }
    ensures { IfOk result (λ v. map (node_tree field_definition_tree) v.items ≡ map row_field rows.now) }
{
    let mut fields = Vec::new(alloc);
    for row in rows {
        add_field(alloc, &mut fields, *row)?;
    }
    Ok(fields)
}

/// Adds the enum value of that name.
fn add_value(
    alloc: Global,
    values: &mut Vec<Node<EnumValueDefinition>>,
    name: &'static str,
) -> Result<(), AllocError>
    requires { IsName name.now }
    ensures { OnOk result (map (node_tree enum_value_tree) values.new.items ≡ map (node_tree enum_value_tree) values.old.items ++ value name.now ∷ []) }
{
    let value = EnumValueDefinition {
        description: None,
        value: Name::new_static_unchecked(name),
        directives: DirectiveList(Vec::new(alloc)),
    };
    let value = node_here(alloc, value)?;
    values.push(value)?;
    Ok(())
}

/// The enum values of these names.
pub(crate) fn values_of(
    alloc: Global,
    names: &[&'static str],
) -> Result<Vec<Node<EnumValueDefinition>>, AllocError>
    requires { IsTrue (list_all (λ n. is_name n.now) names.now) }
    ensures { IfOk result (λ v. map (node_tree enum_value_tree) v.items ≡ map value (map (λ n. n.now) names.now)) }
{
    let mut values = Vec::new(alloc);
    for name in names {
        add_value(alloc, &mut values, *name)?;
    }
    Ok(values)
}
