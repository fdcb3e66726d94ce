//! Selections with definitions: fields, spreads of fragments, inline fragments, and sets of these.
ghost use Rattle.std.specs.Prelude.{◌≡◌};
ghost use Rattle.std.specs.Option.{option_map, option_copied};
ghost use Rattle.tree_directives.specs.DirectiveTree.{directives_tree};
ghost use Rattle.document_typed_selections.specs.TypedTree.{typed_selection_tree};
ghost use Rattle.document_typed_selections.specs.TypedParts.{typed_place, typed_directives, typed_field_node, typed_spread_node, typed_inline_node, as_typed_field, as_typed_spread, as_typed_inline};

use graphql_names::{Name, Node, SourceSpan};
use tree_definitions::FieldDefinition;
use tree_directives::{Argument, DirectiveList};
use tree_literals::NamedType;

/// What a selection set holds (section 2.4).
#[cycle(selection)]
#[derive(PartialEq, Eq, Hash)]
pub enum Selection {
    Field(Node<Field>),
    FragmentSpread(Node<FragmentSpread>),
    InlineFragment(Node<InlineFragment>),
}

impl Drop for Selection {
    #[cycle(drop_selection)]
    #[inline(never)]
    fn drop(self) {
        match self {
            Selection::Field(node) => drop_field(node),
            Selection::FragmentSpread(node) => drop_spread(node),
            Selection::InlineFragment(node) => drop_inline(node),
        }
    }
}

// A value is on the stack while it is dropped. Each kind has its own function, which is not inlined, so that a level of
// selections takes only the stack of its kind.

#[cycle(drop_selection)]
#[inline(never)]
fn drop_field(_node: Node<Field>) {}

#[inline(never)]
fn drop_spread(_node: Node<FragmentSpread>) {}

#[cycle(drop_selection)]
#[inline(never)]
fn drop_inline(_node: Node<InlineFragment>) {}

#[inline(never)]
fn drop_definition(_node: Node<FieldDefinition>) {}

/// `alias: name(arguments) @directives { selections }` (section 2.5), with the definition of the field by that name of
/// the type that it is selected on (section 5.3.1). The definition is not hashed: that would cost much and add little to the name.
#[cycle(selection)]
#[derive(PartialEq, Eq)]
#[derive_where(Hash)]
pub struct Field {
    #[derive_where(skip(Hash))]
    pub definition: Node<FieldDefinition>,
    pub alias: Option<Name>,
    pub name: Name,
    pub arguments: Vec<Node<Argument>>,
    pub directives: DirectiveList,
    pub selection_set: SelectionSet,
}

impl Drop for Field {
    #[cycle(drop_selection)]
    fn drop(self) {
        let Field {
            definition,
            alias: _,
            name: _,
            arguments: _,
            directives: _,
            selection_set: _,
        } = self;
        drop_definition(definition);
    }
}

/// `...fragment_name @directives` (section 2.8).
#[derive(PartialEq, Eq, Hash)]
pub struct FragmentSpread {
    pub fragment_name: Name,
    pub directives: DirectiveList,
}

// Not derived: a derived drop is proved again in each crate that drops one.
impl Drop for FragmentSpread {
    fn drop(self) {
        let FragmentSpread {
            fragment_name: _,
            directives: _,
        } = self;
    }
}

/// `... on type_condition @directives { selections }` (section 2.8.2).
#[cycle(selection)]
#[derive(PartialEq, Eq, Hash)]
pub struct InlineFragment {
    pub type_condition: Option<NamedType>,
    pub directives: DirectiveList,
    pub selection_set: SelectionSet,
}

impl Drop for InlineFragment {
    #[cycle(drop_selection)]
    fn drop(self) {
        let InlineFragment {
            type_condition: _,
            directives: _,
            selection_set: _,
        } = self;
    }
}

/// Selections on the type of this name, in order (section 2.4).
#[cycle(selection)]
#[derive(PartialEq, Eq, Hash)]
pub struct SelectionSet {
    pub ty: NamedType,
    pub selections: Vec<Selection>,
}

impl Drop for SelectionSet {
    #[cycle(drop_selection)]
    #[inline(always)]
    fn drop(self) {
        let SelectionSet {
            ty: _,
            selections: _,
        } = self;
    }
}

#[tactic(auto, using(crate::proofs::TypedTrees::typed_tree_rules))]
impl Selection {
    /// Where the selection was read, if it was.
    pub fn location(&self) -> Option<SourceSpan>
        ensures { result ≡ typed_place (typed_selection_tree self.now) }
    {
        match self {
            Selection::Field(node) => node.location(),
            Selection::FragmentSpread(node) => node.location(),
            Selection::InlineFragment(node) => node.location(),
        }
    }

    /// The directives that are applied to it.
    pub fn directives(&self) -> &DirectiveList
        ensures { directives_tree result.now ≡ typed_directives (typed_selection_tree self.now) }
    {
        match self {
            Selection::Field(node) => &node.content().directives,
            Selection::FragmentSpread(node) => &node.content().directives,
            Selection::InlineFragment(node) => &node.content().directives,
        }
    }

    /// The field, if it is one.
    pub fn as_field(&self) -> Option<&Node<Field>>
        ensures { option_map typed_field_node (option_copied result) ≡ as_typed_field (typed_selection_tree self.now) }
    {
        match self {
            Selection::Field(node) => Some(node),
            Selection::FragmentSpread(_) | Selection::InlineFragment(_) => None,
        }
    }

    /// The fragment spread, if it is one.
    pub fn as_fragment_spread(&self) -> Option<&Node<FragmentSpread>>
        ensures { option_map typed_spread_node (option_copied result) ≡ as_typed_spread (typed_selection_tree self.now) }
    {
        match self {
            Selection::FragmentSpread(node) => Some(node),
            Selection::Field(_) | Selection::InlineFragment(_) => None,
        }
    }

    /// The inline fragment, if it is one.
    pub fn as_inline_fragment(&self) -> Option<&Node<InlineFragment>>
        ensures { option_map typed_inline_node (option_copied result) ≡ as_typed_inline (typed_selection_tree self.now) }
    {
        match self {
            Selection::InlineFragment(node) => Some(node),
            Selection::Field(_) | Selection::FragmentSpread(_) => None,
        }
    }
}

impl From<Node<Field>> for Selection {
    ghost from_gives = { λ n s. typed_selection_tree s ≡ typed_field_node n };

    #[tactic(auto, using(crate::proofs::TypedTrees::typed_tree_rules))]
    fn from(node: Node<Field>) -> Selection {
        Selection::Field(node)
    }
}

impl From<Node<FragmentSpread>> for Selection {
    ghost from_gives = { λ n s. typed_selection_tree s ≡ typed_spread_node n };

    #[tactic(auto, using(crate::proofs::TypedTrees::typed_tree_rules))]
    fn from(node: Node<FragmentSpread>) -> Selection {
        Selection::FragmentSpread(node)
    }
}

impl From<Node<InlineFragment>> for Selection {
    ghost from_gives = { λ n s. typed_selection_tree s ≡ typed_inline_node n };

    #[tactic(auto, using(crate::proofs::TypedTrees::typed_tree_rules))]
    fn from(node: Node<InlineFragment>) -> Selection {
        Selection::InlineFragment(node)
    }
}
