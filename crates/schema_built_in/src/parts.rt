//! The parts of built-in definitions, made from the rows of the table.
ghost use Rattle.std.specs.Prelude.{◌≡◌, ◌++◌, ◌∷◌, [], map, None, Some, IfOk, OnOk, IsTrue};
ghost use Rattle.std.specs.List.{list_all};
ghost use Rattle.std.specs.Option.{option_map};
ghost use Rattle.graphql_names.specs.NameSyntax.{IsName};
ghost use Rattle.graphql_names.specs.Node.{content, place};
ghost use Rattle.graphql_names.specs.Placed.{name_tree, node_tree};
ghost use Rattle.tree_literals.specs.TypeTree.{type_tree};
ghost use Rattle.tree_literals.specs.ValueTree.{value_tree};
ghost use Rattle.tree_directives.specs.DirectiveTree.{input_value_tree};
ghost use Rattle.schema_fold.specs.BuiltIn.{built_in, here, one};
ghost use Rattle.schema_built_in.specs.Rows.{row_type, row_default, row_argument, has_type_name, has_argument_names};

use crate::table::{ArgumentRow, DefaultRow, TypeRow};
use graphql_names::{FileId, Name, Node, SourceSpan};
use std::alloc::{AllocError, AllocFailed, Global};
use tree_directives::{DirectiveList, InputValueDefinition};
use tree_literals::{Type, Value};

/// The place of what is built in.
fn built_in_place() -> SourceSpan
    ensures { Some result ≡ built_in }
{
    SourceSpan {
        file_id: FileId::BUILT_IN,
        offset: 0,
        length: 0,
    }
}

/// A node at the place of what is built in.
pub(crate) fn node_here<T>(alloc: Global, value: T) -> Result<Node<T>, AllocFailed<T>>
    ensures content { IfOk result (λ n. content n ≡ value) }
    ensures place { IfOk result (λ n. place n ≡ built_in) }
{
    Node::new_parsed(alloc, value, built_in_place())
}

/// The type `N!`.
fn non_null(name: &'static str) -> Type
    requires { IsName name.now }
    ensures { type_tree result ≡ one name.now }
{
    Type::NonNullNamed(Name::new_static_unchecked(name))
}

/// The type of the row.
pub(crate) fn type_of(alloc: Global, row: TypeRow) -> Result<Type, AllocError>
    requires { IsTrue (has_type_name row) }
    ensures { IfOk result (λ t. type_tree t ≡ row_type row) }
{
    match row {
        TypeRow::Nullable(name) => Ok(Type::Named(Name::new_static_unchecked(name))),
        TypeRow::NonNull(name) => Ok(non_null(name)),
        TypeRow::ListOf(name) => non_null(name).list(alloc),
        TypeRow::NonNullListOf(name) => Ok(non_null(name).list(alloc)?.non_null()),
    }
}

/// The default value of the row.
fn default_of(alloc: Global, row: DefaultRow) -> Result<Option<Node<Value>>, AllocError>
    ensures { IfOk result (λ d. option_map (node_tree value_tree) d ≡ option_map here (row_default row)) }
{
    let value = match row {
        DefaultRow::Absent => return Ok(None),
        DefaultRow::Text(text) => Value::String(String::from_str(alloc, text)?),
        DefaultRow::False => Value::Boolean(false),
    };
    Ok(Some(node_here(alloc, value)?))
}

/// The type of the row, at the place of what is built in.
fn type_here(alloc: Global, row: TypeRow) -> Result<Node<Type>, AllocError>
    requires { IsTrue (has_type_name row) }
    ensures { IfOk result (λ n. node_tree type_tree n ≡ here (row_type row)) }
{
    let ty = type_of(alloc, row)?;
    Ok(node_here(alloc, ty)?)
}

/// An argument with these parts.
fn argument_with(
    alloc: Global,
    name: Name,
    ty: Node<Type>,
    default_value: Option<Node<Value>>,
) -> Result<Node<InputValueDefinition>, AllocError>
    ensures { IfOk result (λ a. node_tree input_value_tree a ≡ here (record {
      description = None;
      name = name_tree name;
      ty = node_tree type_tree ty;
      default_value = option_map (node_tree value_tree) default_value;
      directives = [];
    })) }
{
    let argument = InputValueDefinition {
        description: None,
        name,
        ty,
        default_value,
        directives: DirectiveList(Vec::new(alloc)),
    };
    Ok(node_here(alloc, argument)?)
}

/// The argument of the row.
fn argument_of(alloc: Global, row: ArgumentRow) -> Result<Node<InputValueDefinition>, AllocError>
    requires { IsTrue (has_argument_names row) }
    ensures { IfOk result (λ a. node_tree input_value_tree a ≡ row_argument row) }
{
    let ty = type_here(alloc, row.1)?;
    let default_value = default_of(alloc, row.2)?;
    argument_with(alloc, Name::new_static_unchecked(row.0), ty, default_value)
}

/// Adds the argument of the row.
// It makes an argument and pushes it, so that the loop of its caller has one `?`.
fn add_argument(
    alloc: Global,
    arguments: &mut Vec<Node<InputValueDefinition>>,
    row: ArgumentRow,
) -> Result<(), AllocError>
    requires { IsTrue (has_argument_names row) }
    ensures { OnOk result (map (node_tree input_value_tree) arguments.new.items ≡ map (node_tree input_value_tree) arguments.old.items ++ row_argument row ∷ []) }
{
    let argument = argument_of(alloc, row)?;
    arguments.push(argument)?;
    Ok(())
}

/// The arguments of the rows.
pub(crate) fn arguments_of(
    alloc: Global,
    rows: &[ArgumentRow],
) -> Result<Vec<Node<InputValueDefinition>>, AllocError>
    requires { IsTrue (list_all has_argument_names rows.now) }
    ensures { IfOk result (λ v. map (node_tree input_value_tree) v.items ≡ map row_argument rows.now) }
{
    let mut arguments = Vec::new(alloc);
    for row in rows {
        add_argument(alloc, &mut arguments, *row)?;
    }
    Ok(arguments)
}
