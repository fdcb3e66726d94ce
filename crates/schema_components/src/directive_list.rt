//! The directives that are applied to a schema or a type.
ghost use Rattle.std.specs.Prelude.{◌≡◌, ◌++◌, [], ◌∷◌, find, filter, IfErr, is_ok, if◌then◌else◌};
ghost use Rattle.std.specs.List.{list_any};
ghost use Rattle.std.specs.Iterator.{YieldsFirstRef, item_count};
ghost use Rattle.std.specs.Option.{option_map, option_copied};
ghost use Rattle.std.specs.Slice.Iter.{iter_rest};
ghost use Rattle.tree_operations.specs.DirectiveTree.{directive_tree};
ghost use Rattle.schema_components.specs.Given.{component_tree};
ghost use Rattle.schema_components.specs.Applied.{applied_tree, given_has_name, component_has_name};
ghost use Rattle.schema_components.specs.LeftNamed.{left_named};

use crate::component::Component;
use std::alloc::{AllocError, AllocFailed, Global};
use std::ops::Deref;
use std::slice;
use tree_operations::Directive;

/// Applied directives, in order, each with its origin.
#[derive(PartialEq, Eq, Hash)]
pub struct DirectiveList(pub Vec<Component<Directive>>);

impl Drop for DirectiveList {
    fn drop(self) {
        let DirectiveList(_) = self;
    }
}

impl DirectiveList {
    /// No directives.
    pub fn new(alloc: Global) -> DirectiveList
        ensures { result.0.items ≡ [] }
    {
        DirectiveList(Vec::new(alloc))
    }

    /// The first directive of that name, if there is one.
    pub fn get(&self, name: &str) -> Option<&Component<Directive>>
        ensures { option_map (component_tree directive_tree) (option_copied result) ≡ find (given_has_name name.now) (applied_tree self.now) }
    {
        for directive in &self.0 {
            if directive.node.content().name.as_str() == name {
                return Some(directive);
            }
        }
        None
    }

    /// Whether there is a directive of that name.
    pub fn has(&self, name: &str) -> bool
        ensures { result ≡ list_any (given_has_name name.now) (applied_tree self.now) }
    {
        for directive in &self.0 {
            if directive.node.content().name.as_str() == name {
                return true;
            }
        }
        false
    }

    /// The directives of that name, in order.
    pub fn get_all<'a>(&'a self, name: &'a str) -> NamedComponents<'a>
        ensures { left_named result ≡ filter (component_has_name name.now) self.now.0.items }
    {
        NamedComponents {
            rest: self.0.as_slice(),
            name,
        }
    }

    /// Puts a directive last. If memory runs out, the list is unchanged, and the directive is returned.
    pub fn push(
        &mut self,
        directive: Component<Directive>,
    ) -> Result<(), AllocFailed<Component<Directive>>>
        ensures items { self.new.0.items ≡ (if is_ok result then self.old.0.items ++ directive ∷ [] else self.old.0.items) }
        ensures value_returned { IfErr result (λ e. e.value ≡ directive) }
    {
        self.0.push(directive)
    }
}

/// The directives of one name that are left, in order.
#[derive(Drop)]
pub struct NamedComponents<'a> {
    rest: &'a [Component<Directive>],
    name: &'a str,
}

impl<'a> Iterator for NamedComponents<'a> {
    type Item = &'a Component<Directive>;

    ghost next_gives = { YieldsFirstRef left_named };

    ghost remaining = { item_count left_named };

    fn next(&mut self) -> Option<&'a Component<Directive>> {
        while let Some((first, others)) = self.rest.split_first() {
            self.rest = others;
            if first.node.content().name.as_str() == self.name {
                return Some(first);
            }
        }
        None
    }
}

impl Deref for DirectiveList {
    type Target = Vec<Component<Directive>>;

    ghost deref_gives = { λ ds v. v ≡ ds.0 };

    fn deref(&self) -> &Vec<Component<Directive>>
        ensures { result.now ≡ self.now.0 }
    {
        &self.0
    }
}

impl<'a> IntoIterator for &'a DirectiveList {
    type Item = &'a Component<Directive>;

    type IntoIter = slice::Iter<'a, Component<Directive>>;

    ghost into_iter_gives = { λ ds it. iter_rest it ≡ ds.now.0.items };

    fn into_iter(self) -> Self::IntoIter {
        self.0.iter()
    }
}

impl Clone for DirectiveList {
    ghost is_clone = { λ ds copy. applied_tree copy ≡ applied_tree ds };

    fn clone(&self) -> Result<DirectiveList, AllocError> {
        Ok(DirectiveList(self.0.clone()?))
    }
}
