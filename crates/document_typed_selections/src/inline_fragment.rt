//! Making inline fragments.
ghost use Rattle.std.specs.Prelude.{◌≡◌, [], ◌∷◌, map, IfOk, None, Some};
ghost use Rattle.graphql_names.specs.Placed.{name_tree, node_tree};
ghost use Rattle.tree_directives.specs.DirectiveTree.{directive_tree};
ghost use Rattle.document_typed_selections.specs.TypedTree.{TypedInline, typed_set, no_typed, typed_then, typed_selection_tree, typed_selections};
ghost use Rattle.document_typed_selections.specs.TypedParts.{typed_inline, and_directives, and_selections};

use crate::selection::{InlineFragment, Selection, SelectionSet};
use graphql_names::Node;
use std::alloc::{AllocError, Global};
use tree_directives::{Directive, DirectiveList};
use tree_literals::NamedType;

#[tactic(auto, using(crate::proofs::TypedTrees::added_rules))]
impl InlineFragment {
    /// `... on type_condition { }`, its set on the type of the condition.
    pub fn with_type_condition(
        alloc: Global,
        type_condition: NamedType,
    ) -> Result<InlineFragment, AllocError>
        ensures { IfOk result (λ f. typed_inline None f ≡ TypedInline None (Some (name_tree type_condition)) [] (typed_set (name_tree type_condition) no_typed)) }
    {
        let ty = type_condition.clone()?;
        Ok(InlineFragment {
            type_condition: Some(type_condition),
            directives: DirectiveList::new(alloc),
            selection_set: SelectionSet::new(alloc, ty),
        })
    }

    /// `... { }`, its set on the type of the set that it is for. It takes no memory.
    pub fn without_type_condition(
        alloc: Global,
        parent_selection_set_type: NamedType,
    ) -> InlineFragment
        ensures { typed_inline None result ≡ TypedInline None None [] (typed_set (name_tree parent_selection_set_type) no_typed) }
    {
        InlineFragment {
            type_condition: None,
            directives: DirectiveList::new(alloc),
            selection_set: SelectionSet::new(alloc, parent_selection_set_type),
        }
    }

    /// The same with a further directive.
    pub fn with_directive(self, directive: Node<Directive>) -> Result<InlineFragment, AllocError>
        ensures { IfOk result (λ f. typed_inline None f ≡ and_directives (node_tree directive_tree directive ∷ []) (typed_inline None self)) }
    {
        let mut inline = self;
        inline.directives.push(directive)?;
        Ok(inline)
    }

    /// The same with further directives.
    pub fn with_directives(
        self,
        directives: Vec<Node<Directive>>,
    ) -> Result<InlineFragment, AllocError>
        ensures { IfOk result (λ f. typed_inline None f ≡ and_directives (map (node_tree directive_tree) directives.items) (typed_inline None self)) }
    {
        let mut inline = self;
        let mut further = directives;
        inline.directives.0.append(&mut further)?;
        Ok(inline)
    }

    /// The same with a further selection in its set.
    pub fn with_selection(self, selection: Selection) -> Result<InlineFragment, AllocError>
        ensures { IfOk result (λ f. typed_inline None f ≡ and_selections (typed_then (typed_selection_tree selection) no_typed) (typed_inline None self)) }
    {
        let mut inline = self;
        inline.selection_set.push(selection)?;
        Ok(inline)
    }

    /// The same with further selections in its set.
    pub fn with_selections(self, selections: Vec<Selection>) -> Result<InlineFragment, AllocError>
        ensures { IfOk result (λ f. typed_inline None f ≡ and_selections (typed_selections typed_selection_tree selections.items) (typed_inline None self)) }
    {
        let mut inline = self;
        inline.selection_set.extend(selections)?;
        Ok(inline)
    }
}
