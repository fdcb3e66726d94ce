//! Whether the grammar can write a selection, an operation or a fragment.
ghost use Rattle.std.specs.Prelude.{◌≡◌, ◌&&◌, Bool, true, false, not, map, None};
ghost use Rattle.std.specs.List.{list_all};
ghost use Rattle.tree_directives.specs.in_literals.in_names.Placed.{node_tree, name_tree, Place};
ghost use Rattle.tree_operations.specs.SelectionTree.{selection_tree, selection_trees};
ghost use Rattle.tree_operations.specs.SelectionParts.{field_tree, spread_tree, inline_tree};
ghost use Rattle.tree_operations.specs.OperationTree.{variable_definition_tree, operation_tree, fragment_tree};
ghost use Rattle.tree_operations.specs.OperationWritable.{can_be_fragment, has_selection, selection_writable, selections_writable, variable_writable, variables_writable, operation_writable, fragment_writable};

use crate::operation::{FragmentDefinition, OperationDefinition, VariableDefinition};
use crate::selection::{Field, FragmentSpread, InlineFragment, Selection};
use tree_directives::{
    Name, Node, arguments_are_writable, default_is_writable, directives_are_writable,
};

/// No fragment is named `on` (section 2.8).
fn can_be_fragment(name: &Name) -> bool
    ensures { result ≡ can_be_fragment name.now.text }
{
    !(name.as_str() == "on")
}

fn has_selection(selections: &[Selection]) -> bool
    ensures { result ≡ has_selection (selection_trees selection_tree selections.now) }
{
    match selections {
        [] => false,
        [_, ..] => true,
    }
}

#[cycle(writable_selections)]
fn selections_are_writable(selections: &[Selection]) -> bool
    ensures { result ≡ selections_writable (selection_trees selection_tree selections.now) }
{
    for selection in selections {
        if !selection_is_writable(selection) {
            return false;
        }
    }
    true
}

#[cycle(writable_selections)]
#[tactic(auto, using(crate::proofs::SelectionTrees::selection_tree_rules))]
fn selection_is_writable(selection: &Selection) -> bool
    ensures { result ≡ selection_writable (selection_tree selection.now) }
{
    match selection {
        Selection::Field(field) => field_is_writable(field.content()),
        Selection::FragmentSpread(spread) => spread.content().is_writable(),
        Selection::InlineFragment(inline) => inline_is_writable(inline.content()),
    }
}

#[cycle(writable_selections)]
fn field_is_writable(field: &Field) -> bool
    ensures { result ≡ selection_writable (field_tree None field.now) }
{
    arguments_are_writable(false, &field.arguments)
        && directives_are_writable(false, &field.directives)
        && selections_are_writable(&field.selection_set)
}

#[cycle(writable_selections)]
fn inline_is_writable(inline: &InlineFragment) -> bool
    ensures { result ≡ selection_writable (inline_tree None inline.now) }
{
    directives_are_writable(false, &inline.directives)
        && has_selection(&inline.selection_set)
        && selections_are_writable(&inline.selection_set)
}

impl Selection {
    /// Whether the grammar can write it.
    pub fn is_writable(&self) -> bool
        ensures { result ≡ selection_writable (selection_tree self.now) }
    {
        selection_is_writable(self)
    }
}

impl Field {
    /// Whether the grammar can write it.
    pub fn is_writable(&self) -> bool
        ensures { result ≡ selection_writable (field_tree None self.now) }
    {
        field_is_writable(self)
    }
}

impl InlineFragment {
    /// Whether the grammar can write it.
    pub fn is_writable(&self) -> bool
        ensures { result ≡ selection_writable (inline_tree None self.now) }
    {
        inline_is_writable(self)
    }
}

impl FragmentSpread {
    /// Whether the grammar can write it.
    pub fn is_writable(&self) -> bool
        ensures { result ≡ selection_writable (spread_tree None self.now) }
    {
        can_be_fragment(&self.fragment_name) && directives_are_writable(false, &self.directives)
    }
}

impl VariableDefinition {
    /// Whether the grammar can write it.
    pub fn is_writable(&self) -> bool
        ensures { result ≡ variable_writable (variable_definition_tree self.now) }
    {
        default_is_writable(&self.default_value) && directives_are_writable(true, &self.directives)
    }
}

fn variables_are_writable(variables: &[Node<VariableDefinition>]) -> bool
    ensures { result ≡ variables_writable (map (node_tree variable_definition_tree) variables.now) }
{
    for variable in variables {
        if !variable.content().is_writable() {
            return false;
        }
    }
    true
}

impl OperationDefinition {
    /// Whether the grammar can write it.
    pub fn is_writable(&self) -> bool
        ensures { result ≡ operation_writable (operation_tree self.now) }
    {
        variables_are_writable(&self.variables)
            && directives_are_writable(false, &self.directives)
            && has_selection(&self.selection_set)
            && selections_are_writable(&self.selection_set)
    }
}

impl FragmentDefinition {
    /// Whether the grammar can write it.
    pub fn is_writable(&self) -> bool
        ensures { result ≡ fragment_writable (fragment_tree self.now) }
    {
        can_be_fragment(&self.name)
            && directives_are_writable(false, &self.directives)
            && has_selection(&self.selection_set)
            && selections_are_writable(&self.selection_set)
    }
}
