//! Selections: fields, spreads of fragments, inline fragments.
ghost use Rattle.std.specs.Prelude.{◌≡◌, None};
ghost use Rattle.std.specs.Option.{option_map, option_copied};
ghost use Rattle.tree_directives.specs.in_literals.in_names.Placed.{name_tree};
ghost use Rattle.tree_operations.specs.SelectionTree.{selection_tree};
ghost use Rattle.tree_operations.specs.SelectionParts.{field_head, field_tree, spread_tree, inline_tree, field_node_tree, spread_node_tree, inline_node_tree, selection_place, as_field_tree, as_spread_tree, as_inline_tree, response_name_of};

use std::alloc::AllocError;
use tree_directives::{
    Argument, DirectiveList, Name, NamedType, Node, SourceSpan, copies_of_five, copies_of_three,
};

/// What a selection set holds (section 2.4).
#[cycle(selection)]
#[derive(PartialEq, Eq, Hash)]
pub enum Selection {
    Field(Node<Field>),
    FragmentSpread(Node<FragmentSpread>),
    InlineFragment(Node<InlineFragment>),
}

impl Drop for Selection {
    #[cycle(drop_selection)]
    fn drop(self) {
        match self {
            Selection::Field(_) | Selection::FragmentSpread(_) | Selection::InlineFragment(_) => {}
        }
    }
}

/// `alias: name(arguments) @directives { selections }` (section 2.5).
#[cycle(selection)]
#[derive(PartialEq, Eq, Hash)]
pub struct Field {
    pub alias: Option<Name>,
    pub name: Name,
    pub arguments: Vec<Node<Argument>>,
    pub directives: DirectiveList,
    pub selection_set: Vec<Selection>,
}

impl Drop for Field {
    #[cycle(drop_selection)]
    fn drop(self) {
        let Field {
            alias: _,
            name: _,
            arguments: _,
            directives: _,
            selection_set: _,
        } = self;
    }
}

/// `...fragment_name @directives` (section 2.8).
#[derive(PartialEq, Eq, Hash)]
pub struct FragmentSpread {
    pub fragment_name: Name,
    pub directives: DirectiveList,
}

// Not derived: a derived drop is proved again in every crate that uses it.
impl Drop for FragmentSpread {
    fn drop(self) {
        let FragmentSpread {
            fragment_name: _,
            directives: _,
        } = self;
    }
}

/// `... on type_condition @directives { selections }` (section 2.8.2).
#[cycle(selection)]
#[derive(PartialEq, Eq, Hash)]
pub struct InlineFragment {
    pub type_condition: Option<NamedType>,
    pub directives: DirectiveList,
    pub selection_set: Vec<Selection>,
}

impl Drop for InlineFragment {
    #[cycle(drop_selection)]
    fn drop(self) {
        let InlineFragment {
            type_condition: _,
            directives: _,
            selection_set: _,
        } = self;
    }
}

#[tactic(auto, using(crate::proofs::SelectionTrees::selection_tree_rules))]
impl Selection {
    /// Where the selection was read, if it was.
    pub fn location(&self) -> Option<SourceSpan>
        ensures { result ≡ selection_place (selection_tree self.now) }
    {
        match self {
            Selection::Field(node) => node.location(),
            Selection::FragmentSpread(node) => node.location(),
            Selection::InlineFragment(node) => node.location(),
        }
    }

    /// The field, if it is one.
    pub fn as_field(&self) -> Option<&Node<Field>>
        ensures { option_map field_node_tree (option_copied result) ≡ as_field_tree (selection_tree self.now) }
    {
        match self {
            Selection::Field(node) => Some(node),
            Selection::FragmentSpread(_) | Selection::InlineFragment(_) => None,
        }
    }

    /// The fragment spread, if it is one.
    pub fn as_fragment_spread(&self) -> Option<&Node<FragmentSpread>>
        ensures { option_map spread_node_tree (option_copied result) ≡ as_spread_tree (selection_tree self.now) }
    {
        match self {
            Selection::FragmentSpread(node) => Some(node),
            Selection::Field(_) | Selection::InlineFragment(_) => None,
        }
    }

    /// The inline fragment, if it is one.
    pub fn as_inline_fragment(&self) -> Option<&Node<InlineFragment>>
        ensures { option_map inline_node_tree (option_copied result) ≡ as_inline_tree (selection_tree self.now) }
    {
        match self {
            Selection::InlineFragment(node) => Some(node),
            Selection::Field(_) | Selection::FragmentSpread(_) => None,
        }
    }
}

impl Field {
    /// The alias, else the name (section 2.7).
    pub fn response_name(&self) -> &Name
        ensures { name_tree result.now ≡ response_name_of (field_head self.now) }
    {
        match &self.alias {
            Some(alias) => alias,
            None => &self.name,
        }
    }
}

impl From<Node<Field>> for Selection {
    ghost from_gives = { λ n s. selection_tree s ≡ field_node_tree n };

    #[tactic(auto, using(crate::proofs::SelectionTrees::selection_tree_rules))]
    fn from(node: Node<Field>) -> Selection {
        Selection::Field(node)
    }
}

impl From<Node<FragmentSpread>> for Selection {
    ghost from_gives = { λ n s. selection_tree s ≡ spread_node_tree n };

    #[tactic(auto, using(crate::proofs::SelectionTrees::selection_tree_rules))]
    fn from(node: Node<FragmentSpread>) -> Selection {
        Selection::FragmentSpread(node)
    }
}

impl From<Node<InlineFragment>> for Selection {
    ghost from_gives = { λ n s. selection_tree s ≡ inline_node_tree n };

    #[tactic(auto, using(crate::proofs::SelectionTrees::selection_tree_rules))]
    fn from(node: Node<InlineFragment>) -> Selection {
        Selection::InlineFragment(node)
    }
}

impl Clone for Selection {
    ghost is_clone = { λ s copy. selection_tree copy ≡ selection_tree s };

    #[tactic(auto, using(crate::proofs::SelectionTrees::selection_tree_rules))]
    fn clone(&self) -> Result<Selection, AllocError> {
        match self {
            Selection::Field(node) => Ok(Selection::Field(node.clone()?)),
            Selection::FragmentSpread(node) => Ok(Selection::FragmentSpread(node.clone()?)),
            Selection::InlineFragment(node) => Ok(Selection::InlineFragment(node.clone()?)),
        }
    }
}

impl Clone for Field {
    ghost is_clone = { λ f copy. field_tree None copy ≡ field_tree None f };

    fn clone(&self) -> Result<Field, AllocError> {
        let (alias, name, arguments, directives, selection_set) = copies_of_five(
            &self.alias,
            &self.name,
            &self.arguments,
            &self.directives,
            &self.selection_set,
        )?;
        Ok(Field {
            alias,
            name,
            arguments,
            directives,
            selection_set,
        })
    }
}

impl Clone for FragmentSpread {
    ghost is_clone = { λ s copy. spread_tree None copy ≡ spread_tree None s };

    fn clone(&self) -> Result<FragmentSpread, AllocError> {
        Ok(FragmentSpread {
            fragment_name: self.fragment_name.clone()?,
            directives: self.directives.clone()?,
        })
    }
}

impl Clone for InlineFragment {
    ghost is_clone = { λ f copy. inline_tree None copy ≡ inline_tree None f };

    fn clone(&self) -> Result<InlineFragment, AllocError> {
        let (type_condition, directives, selection_set) = copies_of_three(
            &self.type_condition,
            &self.directives,
            &self.selection_set,
        )?;
        Ok(InlineFragment {
            type_condition,
            directives,
            selection_set,
        })
    }
}
