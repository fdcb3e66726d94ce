//! Lists of directives by name.
ghost use Rattle.std.specs.Prelude.{◌≡◌, ◌++◌, [], ◌∷◌, map, filter, find, ⊤, IfOk, IfErr, is_ok, if◌then◌else◌};
ghost use Rattle.std.specs.List.{list_any};
ghost use Rattle.std.specs.Iterator.{YieldsFirstRef, item_count, DrainsIf};
ghost use Rattle.std.specs.Option.{option_map, option_copied};
ghost use Rattle.std.specs.Slice.Iter.{iter_rest};
ghost use Rattle.tree_literals.specs.in_names.Placed.{node_tree};
ghost use Rattle.tree_directives.specs.DirectiveTree.{directive_tree, directives_tree};
ghost use Rattle.tree_directives.specs.DirectiveQueries.{directive_has_name};
ghost use Rattle.tree_directives.specs.DirectiveNodes.{node_has_name, left_named};
ghost use Rattle.tree_directives.specs.Iterators.{CanBeDrained};

use crate::directive::{Directive, DirectiveList};
use std::alloc::{AllocError, AllocFailed, Global};
use std::ops::Deref;
use std::slice;
use tree_literals::Node;

impl DirectiveList {
    /// No directives.
    pub fn new(alloc: Global) -> DirectiveList
        ensures { result.0.items ≡ [] }
    {
        DirectiveList(Vec::new(alloc))
    }

    /// The directives that the iterator gives, in order.
    pub fn try_from_iter<I: IntoIterator<Item = Node<Directive>>>(
        alloc: Global,
        iter: I,
    ) -> Result<DirectiveList, AllocError>
        requires { CanBeDrained I.into_iter_gives I.IntoIter.can_next I.IntoIter.remaining I.IntoIter.next_gives iter }
        ensures { IfOk result (λ ds. (it : I.IntoIter) × I.into_iter_gives iter it × DrainsIf I.IntoIter.next_gives ⊤ it ds.0.items) }
    {
        DirectiveList::from_iter(alloc, iter)
    }

    /// The first directive of that name, if there is one.
    pub fn get(&self, name: &str) -> Option<&Node<Directive>>
        ensures { option_map (node_tree directive_tree) (option_copied result) ≡ find (directive_has_name name.now) (directives_tree self.now) }
    {
        for directive in &self.0 {
            if directive.content().name.as_str() == name {
                return Some(directive);
            }
        }
        None
    }

    /// Whether there is a directive of that name.
    pub fn has(&self, name: &str) -> bool
        ensures { result ≡ list_any (directive_has_name name.now) (directives_tree self.now) }
    {
        for directive in &self.0 {
            if directive.content().name.as_str() == name {
                return true;
            }
        }
        false
    }

    /// The directives of that name, in order.
    pub fn get_all<'a>(&'a self, name: &'a str) -> NamedDirectives<'a>
        ensures { left_named result ≡ filter (node_has_name name.now) self.now.0.items }
    {
        NamedDirectives {
            rest: self.0.as_slice(),
            name,
        }
    }

    /// Puts a directive last. If memory is refused, the list is unchanged, and the directive comes back.
    pub fn push(&mut self, directive: Node<Directive>) -> Result<(), AllocFailed<Node<Directive>>>
        ensures items { self.new.0.items ≡ (if is_ok result then self.old.0.items ++ directive ∷ [] else self.old.0.items) }
        ensures value_returned { IfErr result (λ e. e.value ≡ directive) }
    {
        self.0.push(directive)
    }
}

/// The directives of one name that are left, in order.
#[derive(Drop)]
pub struct NamedDirectives<'a> {
    rest: &'a [Node<Directive>],
    name: &'a str,
}

impl<'a> Iterator for NamedDirectives<'a> {
    type Item = &'a Node<Directive>;

    ghost next_gives = { YieldsFirstRef left_named };

    ghost remaining = { item_count left_named };

    fn next(&mut self) -> Option<&'a Node<Directive>> {
        while let Some((first, others)) = self.rest.split_first() {
            self.rest = others;
            if first.content().name.as_str() == self.name {
                return Some(first);
            }
        }
        None
    }
}

impl Deref for DirectiveList {
    type Target = Vec<Node<Directive>>;

    ghost deref_gives = { λ ds v. v ≡ ds.0 };

    fn deref(&self) -> &Vec<Node<Directive>>
        ensures { result.now ≡ self.now.0 }
    {
        &self.0
    }
}

impl<'a> IntoIterator for &'a DirectiveList {
    type Item = &'a Node<Directive>;

    type IntoIter = slice::Iter<'a, Node<Directive>>;

    ghost into_iter_gives = { λ ds it. iter_rest it ≡ ds.now.0.items };

    fn into_iter(self) -> Self::IntoIter {
        self.0.iter()
    }
}

impl FromIterator<Node<Directive>> for DirectiveList {
    type Alloc = Global;

    ghost from_iter_gives = { λ xs ds. ds.0.items ≡ xs };

    fn from_iter<I: IntoIterator<Item = Node<Directive>>>(
        alloc: Global,
        iter: I,
    ) -> Result<DirectiveList, AllocError> {
        Ok(DirectiveList(Vec::from_iter(alloc, iter)?))
    }
}
