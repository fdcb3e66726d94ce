//! Making and filling selection sets.
ghost use Rattle.std.specs.Prelude.{◌≡◌, [], map, IfOk, IfErr, is_ok, None, Some};
ghost use Rattle.std.specs.Option.{option_map};
ghost use Rattle.graphql_names.specs.Placed.{name_tree};
ghost use Rattle.document_typed_selections.specs.TypedTree.{typed_set, no_typed, typed_then, TypedSpread, typed_selection_tree, typed_selections, typed_set_tree, set_type, set_selections, holds_none};
ghost use Rattle.document_typed_selections.specs.TypedParts.{typed_inline, typed_spread, typed_field_node, bare_inline, set_and_if};
ghost use Rattle.document_typed_selections.specs.OwnFields.{fields_in, field_nodes, left_fields};

use crate::fields::Fields;
use crate::selection::{FragmentSpread, InlineFragment, Selection, SelectionSet};
use graphql_names::Name;
use std::alloc::{AllocError, AllocFailed, Global};
use tree_literals::NamedType;

#[tactic(auto, using(crate::proofs::TypedTrees::typed_set_rules))]
impl SelectionSet {
    /// No selections on the type of this name. It takes no memory.
    pub fn new(alloc: Global, ty: NamedType) -> SelectionSet
        ensures { typed_set_tree result ≡ typed_set (name_tree ty) no_typed }
    {
        SelectionSet {
            ty,
            selections: Vec::new(alloc),
        }
    }

    /// Whether there is no selection.
    #[tactic(auto, using(crate::proofs::TypedTrees::holds_none_length))]
    pub fn is_empty(&self) -> bool
        ensures { result ≡ holds_none (typed_set_tree self.now) }
    {
        self.selections.is_empty()
    }

    /// Puts a selection last. If memory runs out, the set is unchanged, and the selection is returned.
    pub fn push(&mut self, selection: Selection) -> Result<(), AllocFailed<Selection>>
        ensures set { typed_set_tree self.new ≡ set_and_if (is_ok result) (typed_then (typed_selection_tree selection) no_typed) (typed_set_tree self.old) }
        ensures value_returned { IfErr result (λ e. e.value ≡ selection) }
    {
        self.selections.push(selection)
    }

    /// Puts selections last, in order. If memory runs out, the set is unchanged.
    pub fn extend(&mut self, selections: Vec<Selection>) -> Result<(), AllocError>
        ensures { typed_set_tree self.new ≡ set_and_if (is_ok result) (typed_selections typed_selection_tree selections.items) (typed_set_tree self.old) }
    {
        let mut further = selections;
        self.selections.append(&mut further)
    }

    /// The fields directly in the set, in order: fragments are not entered.
    pub fn fields(&self) -> Fields<'_>
        ensures nodes { left_fields result ≡ field_nodes self.now.selections.items }
        ensures trees { map typed_field_node (left_fields result) ≡ fields_in (set_selections (typed_set_tree self.now)) }
    {
        Fields {
            rest: self.selections.as_slice(),
        }
    }

    /// An empty inline fragment on that type, without a condition on the type of this set. It is not added.
    pub fn new_inline_fragment(
        &self,
        alloc: Global,
        type_condition: Option<NamedType>,
    ) -> Result<InlineFragment, AllocError>
        ensures { IfOk result (λ f. typed_inline None f ≡ bare_inline (option_map name_tree type_condition) (set_type (typed_set_tree self.now))) }
    {
        match type_condition {
            Some(condition) => InlineFragment::with_type_condition(alloc, condition),
            None => Ok(InlineFragment::without_type_condition(alloc, self.ty.clone()?)),
        }
    }

    /// `...fragment_name`. It is not added.
    pub fn new_fragment_spread(&self, alloc: Global, fragment_name: Name) -> FragmentSpread
        ensures { typed_spread None result ≡ TypedSpread None (name_tree fragment_name) [] }
    {
        FragmentSpread::new(alloc, fragment_name)
    }
}
