//! Things that have names, found by them among nodes and lent to be written to.
ghost use Rattle.std.specs.Prelude.{◌≡◌, ℕ, List, filter, slice_get};
ghost use Rattle.std.specs.Borrow.{sem};
ghost use Rattle.std.specs.Option.{option_map};
ghost use Rattle.tree_directives.specs.NamedNodes.{is_named, nth_place, LendsNamed};

use crate::directive::{Argument, Directive};
use crate::input_value::InputValueDefinition;
use tree_literals::Node;

/// Something that has a name.
pub trait Named {
    /// Its name.
    ghost name_of: { Self → List ℕ };

    /// Its name.
    fn name_text(&self) -> &str
        ensures { result.now ≡ name_of self.now };
}

impl Named for Directive {
    ghost name_of = { λ d. d.name.text };

    fn name_text(&self) -> &str {
        self.name.as_str()
    }
}

impl Named for Argument {
    ghost name_of = { λ a. a.name.text };

    fn name_text(&self) -> &str {
        self.name.as_str()
    }
}

impl Named for InputValueDefinition {
    ghost name_of = { λ v. v.name.text };

    fn name_text(&self) -> &str {
        self.name.as_str()
    }
}

/// The node of that name at that position among those of that name, counted from 0, to be written to, if there is one.
/// What is written may have another name, which then counts.
// Over a type parameter, since a borrow of a value with a `&'static str`, as in a name, is not followed out of a call.
pub fn get_named_mut<'a, T: Named>(
    nodes: &'a mut Vec<Node<T>>,
    name: &str,
    position: usize,
) -> Option<&'a mut Node<T>>
    ensures* writes_back { sem 𝓛 (LendsNamed T.row T.name_of name.now position nodes.entry result) }
    ensures value { option_map (λ n. n.now) result ≡ slice_get (filter (is_named T.name_of name.now) nodes.old.items) position }
{
    let place = nth_place(nodes, name, position);
    // If there is no such node, the place is past the end, and nothing is lent.
    nodes.get_mut(place)
}

/// The index of the node of that name at that position among those of that name; the number of nodes if there is none.
fn nth_place<T: Named>(nodes: &[Node<T>], name: &str, position: usize) -> usize
    ensures { result ≡ nth_place (is_named T.name_of name.now) position nodes.now }
{
    let mut before = position;
    let mut place = 0;
    for node in nodes {
        if node.content().name_text() == name {
            if before == 0 {
                return place;
            }
            before -= 1;
        }
        place += 1;
    }
    place
}
