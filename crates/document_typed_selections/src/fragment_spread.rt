//! Making fragment spreads.
ghost use Rattle.std.specs.Prelude.{◌≡◌, [], ◌∷◌, map, IfOk, None};
ghost use Rattle.graphql_names.specs.Placed.{name_tree, node_tree};
ghost use Rattle.tree_directives.specs.DirectiveTree.{directive_tree};
ghost use Rattle.document_typed_selections.specs.TypedTree.{TypedSpread};
ghost use Rattle.document_typed_selections.specs.TypedParts.{typed_spread, and_directives};

use crate::selection::FragmentSpread;
use graphql_names::{Name, Node};
use std::alloc::{AllocError, Global};
use tree_directives::{Directive, DirectiveList};

#[tactic(auto, using(crate::proofs::TypedTrees::added_rules))]
impl FragmentSpread {
    /// `...fragment_name`, without directives. It takes no memory.
    pub fn new(alloc: Global, fragment_name: Name) -> FragmentSpread
        ensures { typed_spread None result ≡ TypedSpread None (name_tree fragment_name) [] }
    {
        FragmentSpread {
            fragment_name,
            directives: DirectiveList::new(alloc),
        }
    }

    /// The same with a further directive.
    pub fn with_directive(self, directive: Node<Directive>) -> Result<FragmentSpread, AllocError>
        ensures { IfOk result (λ s. typed_spread None s ≡ and_directives (node_tree directive_tree directive ∷ []) (typed_spread None self)) }
    {
        let mut spread = self;
        spread.directives.push(directive)?;
        Ok(spread)
    }

    /// The same with further directives.
    pub fn with_directives(
        self,
        directives: Vec<Node<Directive>>,
    ) -> Result<FragmentSpread, AllocError>
        ensures { IfOk result (λ s. typed_spread None s ≡ and_directives (map (node_tree directive_tree) directives.items) (typed_spread None self)) }
    {
        let mut spread = self;
        let mut further = directives;
        spread.directives.0.append(&mut further)?;
        Ok(spread)
    }
}
