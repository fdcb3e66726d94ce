//! Laws of the trees, each on the contract of a call: assignable types are ordered, what is written through a borrow is in
//! the list, and `==` is the sameness of two trees whatever their places.
ghost use Rattle.std.specs.Prelude.{◌≡◌, ◌↔◌, IsTrue, IfOk, None, Some, if◌then◌else◌, filter, is_some, slice_get};
ghost use Rattle.tree_operations.specs.in_directives.DirectiveNodes.{node_has_name};
ghost use Rattle.tree_literals.specs.TypeTree.{type_tree, unplaced_type};
ghost use Rattle.tree_literals.specs.TypeQueries.{AreTypesCompatible};
ghost use Rattle.tree_literals.specs.ValueTree.{value_tree, unplaced_value};
ghost use Rattle.tree_operations.specs.in_directives.DirectiveTree.{argument_tree, directive_tree, directives_tree, input_value_tree, directive_definition_tree, unplaced_argument, unplaced_directive, unplaced_directives, unplaced_input_value, unplaced_directive_definition};
ghost use Rattle.tree_operations.specs.SelectionTree.{selection_tree, unplaced_selection};
ghost use Rattle.tree_operations.specs.SelectionParts.{field_tree, spread_tree, inline_tree};
ghost use Rattle.tree_operations.specs.OperationTree.{variable_definition_tree, operation_tree, fragment_tree, unplaced_variable_definition, unplaced_operation, unplaced_fragment};
ghost use Rattle.graphql_values.specs.TreeLaws.{AreCompatibleThrough, AreSameBothWays, with_nth_named};

use std::alloc::{AllocError, Global};
use tree_literals::{IntValue, Node, Type, Value};
use tree_operations::{
    Argument, Directive, DirectiveDefinition, DirectiveList, Field, FragmentDefinition,
    FragmentSpread, InlineFragment, InputValueDefinition, OperationDefinition, Selection,
    VariableDefinition, get_named_mut,
};

/// `is_assignable_to` is reflexive, transitive, and antisymmetric apart from places.
pub fn assignable_types_are_ordered(a: &Type, b: &Type, c: &Type)
    ensures reflexive { AreTypesCompatible (type_tree a.now) (type_tree a.now) }
    ensures transitive { AreCompatibleThrough (type_tree a.now) (type_tree b.now) (type_tree c.now) }
    ensures antisymmetric { AreSameBothWays (type_tree a.now) (type_tree b.now) }
{}

/// `try_to_i32` gives back what `from_i32` took.
pub fn integers_come_back(alloc: Global, number: i32) -> Result<Option<i32>, AllocError>
    ensures { IfOk result (λ back. back ≡ Some number) }
{
    Ok(IntValue::from_i32(alloc, number)?.try_to_i32())
}

/// Whether two references to types are the same apart from places: what `==` answers.
pub fn equal_types(a: &Type, b: &Type) -> bool
    ensures { IsTrue result ↔ (unplaced_type (type_tree a.now) ≡ unplaced_type (type_tree b.now)) }
{
    *a == *b
}

/// Whether two values are the same apart from places: what `==` answers.
pub fn equal_values(a: &Value, b: &Value) -> bool
    ensures { IsTrue result ↔ (unplaced_value (value_tree a.now) ≡ unplaced_value (value_tree b.now)) }
{
    *a == *b
}

/// Whether two arguments are the same apart from places: what `==` answers.
pub fn equal_arguments(a: &Argument, b: &Argument) -> bool
    ensures { IsTrue result ↔ (unplaced_argument (argument_tree a.now) ≡ unplaced_argument (argument_tree b.now)) }
{
    *a == *b
}

/// Whether two directives are the same apart from places: what `==` answers.
pub fn equal_directives(a: &Directive, b: &Directive) -> bool
    ensures { IsTrue result ↔ (unplaced_directive (directive_tree a.now) ≡ unplaced_directive (directive_tree b.now)) }
{
    *a == *b
}

/// Whether two lists of directives are the same apart from places: what `==` answers.
pub fn equal_directive_lists(a: &DirectiveList, b: &DirectiveList) -> bool
    ensures { IsTrue result ↔ (unplaced_directives (directives_tree a.now) ≡ unplaced_directives (directives_tree b.now)) }
{
    *a == *b
}

/// Whether two definitions of input values are the same apart from places: what `==` answers.
pub fn equal_input_values(a: &InputValueDefinition, b: &InputValueDefinition) -> bool
    ensures { IsTrue result ↔ (unplaced_input_value (input_value_tree a.now) ≡ unplaced_input_value (input_value_tree b.now)) }
{
    *a == *b
}

/// Whether two definitions of directives are the same apart from places: what `==` answers.
pub fn equal_directive_definitions(a: &DirectiveDefinition, b: &DirectiveDefinition) -> bool
    ensures { IsTrue result ↔ (unplaced_directive_definition (directive_definition_tree a.now) ≡ unplaced_directive_definition (directive_definition_tree b.now)) }
{
    *a == *b
}

/// Whether two definitions of variables are the same apart from places: what `==` answers.
pub fn equal_variable_definitions(a: &VariableDefinition, b: &VariableDefinition) -> bool
    ensures { IsTrue result ↔ (unplaced_variable_definition (variable_definition_tree a.now) ≡ unplaced_variable_definition (variable_definition_tree b.now)) }
{
    *a == *b
}

/// Whether two selections are the same apart from places: what `==` answers.
pub fn equal_selections(a: &Selection, b: &Selection) -> bool
    ensures { IsTrue result ↔ (unplaced_selection (selection_tree a.now) ≡ unplaced_selection (selection_tree b.now)) }
{
    *a == *b
}

/// Whether two fields are the same apart from places: what `==` answers.
pub fn equal_fields(a: &Field, b: &Field) -> bool
    ensures { IsTrue result ↔ (unplaced_selection (field_tree None a.now) ≡ unplaced_selection (field_tree None b.now)) }
{
    *a == *b
}

/// Whether two fragment spreads are the same apart from places: what `==` answers.
pub fn equal_fragment_spreads(a: &FragmentSpread, b: &FragmentSpread) -> bool
    ensures { IsTrue result ↔ (unplaced_selection (spread_tree None a.now) ≡ unplaced_selection (spread_tree None b.now)) }
{
    *a == *b
}

/// Whether two inline fragments are the same apart from places: what `==` answers.
pub fn equal_inline_fragments(a: &InlineFragment, b: &InlineFragment) -> bool
    ensures { IsTrue result ↔ (unplaced_selection (inline_tree None a.now) ≡ unplaced_selection (inline_tree None b.now)) }
{
    *a == *b
}

/// Whether two operations are the same apart from places: what `==` answers.
pub fn equal_operations(a: &OperationDefinition, b: &OperationDefinition) -> bool
    ensures { IsTrue result ↔ (unplaced_operation (operation_tree a.now) ≡ unplaced_operation (operation_tree b.now)) }
{
    *a == *b
}

/// Whether two fragments are the same apart from places: what `==` answers.
pub fn equal_fragments(a: &FragmentDefinition, b: &FragmentDefinition) -> bool
    ensures { IsTrue result ↔ (unplaced_fragment (fragment_tree a.now) ≡ unplaced_fragment (fragment_tree b.now)) }
{
    *a == *b
}

/// What is written through `get_named_mut` replaces the directive of that name and position, and nothing else changes.
/// If there is none, nothing changes. Answers whether there was one.
pub fn named_directives_are_written(
    directives: &mut DirectiveList,
    name: &str,
    position: usize,
    directive: Node<Directive>,
) -> bool
    ensures found { result ≡ is_some (slice_get (filter (node_has_name name.now) directives.old.0.items) position) }
    ensures written { directives.new.0.items ≡ (if result then with_nth_named name.now position directive directives.old.0.items else directives.old.0.items) }
{
    match get_named_mut(&mut directives.0, name, position) {
        None => false,
        Some(place) => {
            *place = directive;
            true
        }
    }
}
