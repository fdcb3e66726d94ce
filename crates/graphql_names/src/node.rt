//! Shared values with the places that they were read from.
ghost use Rattle.std.specs.Prelude.{◌≡◌, IfOk, IfErr, IfSome, Some, None, true};
ghost use Rattle.std.specs.Borrow.{sem};
ghost use Rattle.graphql_names.specs.Node.{content, place, IsCopy, LendsContent, LendsCopy};
ghost use Rattle.graphql_names.specs.Places.{is_built_in};

use crate::span::{FileId, SourceSpan};
use std::alloc::{AllocError, AllocFailed, Global};
use std::rc::Rc;

/// A shared value, and the place that it was read from, if it was read. The place belongs to this node
/// and not to the value. Contracts read a node by `content` and `place`.
pub struct Node<T> {
    shared: Rc<T>,
    location: Option<SourceSpan>,
}

// Not derived: a derived drop is proved again in every crate that uses it.
impl<T: Drop> Drop for Node<T> {
    fn drop(self) {
        let Node {
            shared: _,
            location: _,
        } = self;
    }
}

/// Nodes of values.
impl<T> Node<T> {
    /// A node of `value` without a place. If memory is refused, the error has the value.
    pub fn new(alloc: Global, value: T) -> Result<Node<T>, AllocFailed<T>>
        ensures content { IfOk result (λ n. content n ≡ value) }
        ensures place { IfOk result (λ n. place n ≡ None) }
        ensures value_returned { IfErr result (λ e. e.value ≡ value) }
    {
        Ok(Node {
            shared: Rc::new(alloc, value)?,
            location: None,
        })
    }

    /// A node of `value` that was read from `location`. If memory is refused, the error has the value.
    pub fn new_parsed(
        alloc: Global,
        value: T,
        location: SourceSpan,
    ) -> Result<Node<T>, AllocFailed<T>>
        ensures content { IfOk result (λ n. content n ≡ value) }
        ensures place { IfOk result (λ n. place n ≡ Some location) }
        ensures value_returned { IfErr result (λ e. e.value ≡ value) }
    {
        Ok(Node {
            shared: Rc::new(alloc, value)?,
            location: Some(location),
        })
    }

    /// A node of `value` with this place. If memory is refused, the error has the value.
    pub fn same_location<U>(&self, alloc: Global, value: U) -> Result<Node<U>, AllocFailed<U>>
        ensures content { IfOk result (λ n. content n ≡ value) }
        ensures place { IfOk result (λ n. place n ≡ place self.now) }
        ensures value_returned { IfErr result (λ e. e.value ≡ value) }
    {
        Ok(Node {
            shared: Rc::new(alloc, value)?,
            location: self.location,
        })
    }
}

/// What a node is made of.
impl<T> Node<T> {
    /// The place that it was read from, if it was read.
    pub fn location(&self) -> Option<SourceSpan>
        ensures { result ≡ place self.now }
    {
        self.location
    }

    /// Whether its place is in the file of the built-in definitions.
    pub fn is_built_in(&self) -> bool
        ensures { result ≡ is_built_in (place self.now) }
    {
        match self.location {
            None => false,
            Some(location) => location.file_id == FileId::BUILT_IN,
        }
    }

    /// The value.
    pub fn content(&self) -> &T
        ensures { result.now ≡ content self.now }
    {
        self.shared.as_ref()
    }

    /// Lends the value to write to, if no other node shares it. The place stays.
    pub fn get_mut(&mut self) -> Option<&mut T>
        ensures* writes_back { sem 𝓛 (LendsContent T.row self.entry result) }
        ensures value { IfSome result (λ x. x.now ≡ content self.old) }
    {
        Rc::get_mut(&mut self.shared)
    }

    /// Lends the value to write to. If another node shares the value, it is copied first, so that no other node
    /// changes. The place stays. A copy of the value must equal it. If memory is refused, the node keeps its place, and
    /// the value or a copy of it.
    pub fn make_mut(&mut self) -> Result<&mut T, AllocError>
    where
        T: Clone + PartialEq + Drop,
        requires { (x : T) → T.is_clone (content self.old) x → T.eq (content self.old) x ≡ true }
        ensures* writes_back { sem 𝓛 (LendsCopy T.row T.is_clone self.entry result) }
        ensures value { IfOk result (λ x. IsCopy T.is_clone (content self.old) x.now) }
    {
        Rc::make_mut(&mut self.shared)
    }
}

/// The same value, with its place. The value is shared and not copied: memory is refused only where it
/// is shared as often as can be counted.
impl<T: Drop> Clone for Node<T> {
    ghost is_clone = { λ n copy. (content copy ≡ content n) × (place copy ≡ place n) };

    fn clone(&self) -> Result<Node<T>, AllocError> {
        Ok(Node {
            shared: self.shared.clone()?,
            location: self.location,
        })
    }
}
