//! Copies, which share all nodes.
ghost use Rattle.std.specs.Prelude.{◌≡◌, None};
ghost use Rattle.document_typed_selections.specs.TypedTree.{typed_selection_tree, typed_set_tree};
ghost use Rattle.document_typed_selections.specs.TypedParts.{typed_field, typed_spread, typed_inline};

use crate::selection::{Field, FragmentSpread, InlineFragment, Selection, SelectionSet};
use std::alloc::AllocError;
use tree_literals::{copies_of_three, copies_of_two};

impl Clone for Selection {
    ghost is_clone = { λ s copy. typed_selection_tree copy ≡ typed_selection_tree s };

    #[tactic(auto, using(crate::proofs::TypedTrees::typed_tree_rules))]
    fn clone(&self) -> Result<Selection, AllocError> {
        match self {
            Selection::Field(node) => Ok(Selection::Field(node.clone()?)),
            Selection::FragmentSpread(node) => Ok(Selection::FragmentSpread(node.clone()?)),
            Selection::InlineFragment(node) => Ok(Selection::InlineFragment(node.clone()?)),
        }
    }
}

impl Clone for SelectionSet {
    ghost is_clone = { λ s copy. typed_set_tree copy ≡ typed_set_tree s };

    fn clone(&self) -> Result<SelectionSet, AllocError> {
        let (ty, selections) = copies_of_two(&self.ty, &self.selections)?;
        Ok(SelectionSet { ty, selections })
    }
}

impl Clone for Field {
    ghost is_clone = { λ f copy. typed_field None copy ≡ typed_field None f };

    fn clone(&self) -> Result<Field, AllocError> {
        let (definition, alias, name) = copies_of_three(&self.definition, &self.alias, &self.name)?;
        let (arguments, directives, selection_set) = copies_of_three(
            &self.arguments,
            &self.directives,
            &self.selection_set,
        )?;
        Ok(Field {
            definition,
            alias,
            name,
            arguments,
            directives,
            selection_set,
        })
    }
}

impl Clone for FragmentSpread {
    ghost is_clone = { λ s copy. typed_spread None copy ≡ typed_spread None s };

    fn clone(&self) -> Result<FragmentSpread, AllocError> {
        let (fragment_name, directives) = copies_of_two(&self.fragment_name, &self.directives)?;
        Ok(FragmentSpread {
            fragment_name,
            directives,
        })
    }
}

impl Clone for InlineFragment {
    ghost is_clone = { λ f copy. typed_inline None copy ≡ typed_inline None f };

    fn clone(&self) -> Result<InlineFragment, AllocError> {
        let (type_condition, directives, selection_set) = copies_of_three(
            &self.type_condition,
            &self.directives,
            &self.selection_set,
        )?;
        Ok(InlineFragment {
            type_condition,
            directives,
            selection_set,
        })
    }
}
