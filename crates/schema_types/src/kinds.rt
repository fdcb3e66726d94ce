//! The types of each kind. Equality ignores places, origins and the order of fields, values, members and interfaces.
//!
//! Each has its own `drop`, which is proved here once; a derived one would be proved again in each crate above that
//! drops a schema. So no field moves out of one of them: it is lent, shared or replaced.

use graphql_names::{Name, NodeStr};
use indexmap::{IndexMap, IndexSet};
use schema_components::{Component, ComponentName, DirectiveList, InputValueDefinition};
use spec_tree::{EnumValueDefinition, FieldDefinition};

/// A scalar type (section 3.5).
#[derive(PartialEq, Eq)]
pub struct ScalarType {
    pub description: Option<NodeStr>,
    pub name: Name,
    pub directives: DirectiveList,
}

// Not derived: a derived drop is proved again in each crate that drops one.
impl Drop for ScalarType {
    fn drop(self) {
        let ScalarType {
            description: _,
            name: _,
            directives: _,
        } = self;
    }
}

/// An object type (section 3.6).
#[derive(PartialEq, Eq)]
pub struct ObjectType {
    pub description: Option<NodeStr>,
    pub name: Name,
    pub implements_interfaces: IndexSet<ComponentName>,
    pub directives: DirectiveList,
    pub fields: IndexMap<Name, Component<FieldDefinition>>,
}

// Not derived: a derived drop is proved again in each crate that drops one.
impl Drop for ObjectType {
    fn drop(self) {
        let ObjectType {
            description: _,
            name: _,
            implements_interfaces: _,
            directives: _,
            fields: _,
        } = self;
    }
}

/// An interface type (section 3.7).
#[derive(PartialEq, Eq)]
pub struct InterfaceType {
    pub description: Option<NodeStr>,
    pub name: Name,
    pub implements_interfaces: IndexSet<ComponentName>,
    pub directives: DirectiveList,
    pub fields: IndexMap<Name, Component<FieldDefinition>>,
}

// Not derived: a derived drop is proved again in each crate that drops one.
impl Drop for InterfaceType {
    fn drop(self) {
        let InterfaceType {
            description: _,
            name: _,
            implements_interfaces: _,
            directives: _,
            fields: _,
        } = self;
    }
}

/// A union type (section 3.8).
#[derive(PartialEq, Eq)]
pub struct UnionType {
    pub description: Option<NodeStr>,
    pub name: Name,
    pub directives: DirectiveList,
    pub members: IndexSet<ComponentName>,
}

// Not derived: a derived drop is proved again in each crate that drops one.
impl Drop for UnionType {
    fn drop(self) {
        let UnionType {
            description: _,
            name: _,
            directives: _,
            members: _,
        } = self;
    }
}

/// An enum type (section 3.9).
#[derive(PartialEq, Eq)]
pub struct EnumType {
    pub description: Option<NodeStr>,
    pub name: Name,
    pub directives: DirectiveList,
    pub values: IndexMap<Name, Component<EnumValueDefinition>>,
}

// Not derived: a derived drop is proved again in each crate that drops one.
impl Drop for EnumType {
    fn drop(self) {
        let EnumType {
            description: _,
            name: _,
            directives: _,
            values: _,
        } = self;
    }
}

/// An input object type (section 3.10).
#[derive(PartialEq, Eq)]
pub struct InputObjectType {
    pub description: Option<NodeStr>,
    pub name: Name,
    pub directives: DirectiveList,
    pub fields: IndexMap<Name, Component<InputValueDefinition>>,
}

// Not derived: a derived drop is proved again in each crate that drops one.
impl Drop for InputObjectType {
    fn drop(self) {
        let InputObjectType {
            description: _,
            name: _,
            directives: _,
            fields: _,
        } = self;
    }
}
