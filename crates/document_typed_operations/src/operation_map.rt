//! The operations of a document, by name.
ghost use Rattle.std.specs.Prelude.{◌≡◌, ◌↔◌, IsTrue, IfOk, OnErr, OnOk, None, Some, [], ◌∷◌, length, map, slice_get};
ghost use Rattle.std.specs.Option.{option_map, option_copied};
ghost use Rattle.std.specs.Iterator.{YieldsFirstRef, item_count};
ghost use Rattle.std.specs.Borrow.{sem};
ghost use Rattle.schema_types.specs.TypeView.{name_text};
ghost use Rattle.document_typed_operations.specs.TypedDocument.{typed_operation_node, operations_by, typed_operations_tree};
ghost use Rattle.document_typed_operations.specs.Lent.{LendsCalled, LendsFirst, LendsAnonymous, LendsFirstNamed};
ghost use Rattle.document_typed_operations.specs.OperationsByName.{operations_list, asked_name, operation_called, standing_for, with_operation, left_operations};

use crate::operation::Operation;
use graphql_names::{Name, Node};
use indexmap::IndexMap;
use indexmap::map::Values;
use std::alloc::{AllocError, Global};
use std::hash::Hash;

/// The operation without a name, if there is one, and the others under their names, in order. Equality ignores the order.
///
/// Its only use is `OperationMap`, of names and nodes of operations. These are parameters so that the borrow checker can
/// follow what `get_mut` lends back to the map: it does not follow a call's result whose type has a name in it.
#[derive(PartialEq, Eq)]
pub struct OperationMap<K: Eq + Hash = Name, O = Node<Operation>> {
    pub anonymous: Option<O>,
    pub named: IndexMap<K, O>,
}

/// The key of an operation: contracts see its text.
pub trait OperationKey: Eq + Hash {
    ghost use Rattle.std.specs.Prelude.{◌≡◌, ℕ, List};
    ghost use Rattle.std.specs.Str.{bytes_eq};

    ghost text_of: { Self → List ℕ };

    ghost same_text: { (a b : Self) → Self.PartialEq.eq a b ≡ bytes_eq (text_of a) (text_of b) };
}

/// The entry of an operation: contracts see the operation at its place.
pub trait OperationEntry {
    ghost use Rattle.graphql_names.specs.Placed.{Place, Placed};
    ghost use Rattle.document_typed_operations.specs.TypedDocument.{TypedOperation};

    ghost tree_of: { Self → Placed Place (TypedOperation Place) };
}

impl OperationKey for Name {
    ghost use Rattle.std.specs.Prelude.{refl};
    ghost use Rattle.schema_types.specs.TypeView.{name_text};

    ghost text_of = { name_text };

    ghost same_text = { λ a b. refl };
}

impl OperationEntry for Node<Operation> {
    ghost use Rattle.graphql_names.specs.Placed.{node_tree};
    ghost use Rattle.document_typed_operations.specs.TypedDocument.{typed_operation_tree};

    ghost tree_of = { node_tree typed_operation_tree };
}

// Not derived: a derived drop is proved again in each crate that drops one.
impl<K: Eq + Hash + Drop, O: Drop> Drop for OperationMap<K, O> {
    fn drop(self) {
        let OperationMap {
            anonymous: _,
            named: _,
        } = self;
    }
}

impl OperationMap {
    /// No operations. It takes no memory.
    pub fn new(alloc: Global) -> OperationMap
        ensures { typed_operations_tree result ≡ record { anonymous = None; named = [] } }
    {
        OperationMap {
            anonymous: None,
            named: IndexMap::new(alloc),
        }
    }

    /// Only this operation.
    pub fn from_one(alloc: Global, operation: Node<Operation>) -> Result<OperationMap, AllocError>
        ensures { IfOk result (λ m. typed_operations_tree m ≡ with_operation (typed_operation_node operation) (record { anonymous = None; named = [] })) }
    {
        let mut operations = OperationMap::new(alloc);
        operations.insert(operation)?;
        Ok(operations)
    }

    /// Whether there is no operation.
    pub fn is_empty(&self) -> bool
        ensures { IsTrue result ↔ (length (operations_list (typed_operations_tree self.now)) ≡ 0) }
    {
        self.len() == 0
    }

    /// The operations in order, the one without a name first.
    pub fn iter(&self) -> Operations<'_>
        ensures { map typed_operation_node (left_operations result) ≡ operations_list (typed_operations_tree self.now) }
    {
        Operations {
            anonymous: self.anonymous.as_ref(),
            named: self.named.values(),
        }
    }

    /// The operation of that name; without a name the only operation, if there is just one (section 6.1, GetOperation).
    pub fn get(&self, name: Option<&Name>) -> Option<&Node<Operation>>
        ensures { option_map typed_operation_node (option_copied result) ≡ operation_called (asked_name name_text name.entry) (typed_operations_tree self.now) }
    {
        match name {
            Some(name) => self.named.get(name),
            None => self.only(),
        }
    }

    /// The only operation, if there is just one.
    fn only(&self) -> Option<&Node<Operation>>
        ensures { option_map typed_operation_node (option_copied result) ≡ operation_called None (typed_operations_tree self.now) }
    {
        let mut operations = self.iter();
        let first = operations.next()?;
        match operations.next() {
            None => Some(first),
            Some(_) => None,
        }
    }

    /// Puts the operation under its name, or as the one without a name if it has none, and returns the one that it replaces.
    /// If memory runs out, nothing changes.
    pub fn insert(
        &mut self,
        operation: Node<Operation>,
    ) -> Result<Option<Node<Operation>>, AllocError>
        ensures stands { OnOk result (typed_operations_tree self.new ≡ with_operation (typed_operation_node operation) (typed_operations_tree self.old)) }
        ensures given_back { IfOk result (λ o. option_map typed_operation_node o ≡ standing_for (typed_operation_node operation) (typed_operations_tree self.old)) }
        ensures refused { OnErr result (typed_operations_tree self.new ≡ typed_operations_tree self.old) }
    {
        match &operation.content().name {
            None => Ok(self.anonymous.replace(operation)),
            Some(name) => {
                let name = name.clone()?;
                Ok(self.named.insert(name, operation)?)
            }
        }
    }
}

impl<K: OperationKey, O: OperationEntry> OperationMap<K, O> {
    /// How many operations there are.
    pub fn len(&self) -> usize
        ensures { result ≡ length (operations_list (operations_by K.text_of O.tree_of self.now)) }
    {
        match &self.anonymous {
            None => self.named.len(),
            Some(_) => self.named.len() + 1,
        }
    }

    /// The node of the operation that `get` gives, to be written to. What is written stays where it is, whatever its name.
    pub fn get_mut(&mut self, name: Option<&K>) -> Option<&mut O>
        ensures* writes_back { sem 𝓛 (LendsCalled K.row O.row K.Hash K.text_of O.tree_of self.entry (asked_name K.text_of name.entry) result) }
        ensures value { option_map (λ o. O.tree_of o.now) result ≡ operation_called (asked_name K.text_of name.entry) (operations_by K.text_of O.tree_of self.old) }
    {
        match name {
            Some(name) => self.named_mut(name),
            None => self.only_mut(),
        }
    }

    /// The node of the only operation, to be written to, if there is just one.
    fn only_mut(&mut self) -> Option<&mut O>
        ensures* writes_back { sem 𝓛 (LendsCalled K.row O.row K.Hash K.text_of O.tree_of self.entry None result) }
        ensures value { option_map (λ o. O.tree_of o.now) result ≡ operation_called None (operations_by K.text_of O.tree_of self.old) }
    {
        match self.len() {
            1 => self.first_mut(),
            _ => None,
        }
    }

    /// The node of the first operation, to be written to, if there is one.
    fn first_mut(&mut self) -> Option<&mut O>
        ensures* writes_back { sem 𝓛 (LendsFirst K.row O.row K.Hash K.text_of O.tree_of self.entry result) }
        ensures value { option_map (λ o. O.tree_of o.now) result ≡ slice_get (operations_list (operations_by K.text_of O.tree_of self.old)) 0 }
    {
        match self.anonymous.is_some() {
            true => self.anonymous_mut(),
            false => self.first_named_mut(),
        }
    }

    /// The node of the operation without a name, to be written to, if there is one.
    fn anonymous_mut(&mut self) -> Option<&mut O>
        ensures* writes_back { sem 𝓛 (LendsAnonymous K.row O.row K.Hash K.text_of O.tree_of self.entry result) }
        ensures value { option_map (λ o. O.tree_of o.now) result ≡ (operations_by K.text_of O.tree_of self.old).anonymous }
    {
        self.anonymous.as_mut()
    }

    /// The node of the first operation that has a name, to be written to, if there is one.
    fn first_named_mut(&mut self) -> Option<&mut O>
        ensures* writes_back { sem 𝓛 (LendsFirstNamed K.row O.row K.Hash K.text_of O.tree_of self.entry result) }
        ensures value { option_map (λ o. O.tree_of o.now) result ≡ slice_get (map (λ e. e.1) (operations_by K.text_of O.tree_of self.old).named) 0 }
    {
        self.named.get_index_mut(0)
    }

    /// The node of the operation of that name, to be written to, if there is one.
    fn named_mut(&mut self, name: &K) -> Option<&mut O>
        ensures* writes_back { sem 𝓛 (LendsCalled K.row O.row K.Hash K.text_of O.tree_of self.entry (Some (K.text_of name.now)) result) }
        ensures value { option_map (λ o. O.tree_of o.now) result ≡ operation_called (Some (K.text_of name.now)) (operations_by K.text_of O.tree_of self.old) }
    {
        self.named.get_mut(name)
    }
}

/// The operations that are left, the one without a name first.
#[derive(Drop)]
pub struct Operations<'a> {
    anonymous: Option<&'a Node<Operation>>,
    named: Values<'a, Name, Node<Operation>>,
}

impl<'a> Iterator for Operations<'a> {
    type Item = &'a Node<Operation>;

    ghost next_gives = { YieldsFirstRef left_operations };

    ghost remaining = { item_count left_operations };

    fn next(&mut self) -> Option<&'a Node<Operation>> {
        if let Some(operation) = self.anonymous.take() {
            return Some(operation);
        }
        self.named.next()
    }
}
