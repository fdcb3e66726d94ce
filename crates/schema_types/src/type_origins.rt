//! The origins of the components of each type.
ghost use Rattle.std.specs.Prelude.{◌≡◌, IfOk};
ghost use Rattle.schema_types.specs.Origins.{scalar_origins, object_origins, interface_origins, union_origins, enum_origins, input_object_origins, type_origins, extensions_in};
ghost use Rattle.schema_types.specs.OriginsLeft.{left_origins};

use crate::extended_type::ExtendedType;
use crate::kinds::{EnumType, InputObjectType, InterfaceType, ObjectType, ScalarType, UnionType};
use crate::origins::Origins;
use indexmap::IndexSet;
use schema_components::ExtensionId;
use std::alloc::{AllocError, Global};

impl ScalarType {
    /// The origin of each component, in order.
    pub fn iter_origins(&self) -> Origins<'_>
        ensures { left_origins result ≡ scalar_origins self.now }
    {
        Origins {
            directives: self.directives.0.as_slice(),
            query: None,
            mutation: None,
            subscription: None,
            names: &[],
            fields: &[],
            values: &[],
            inputs: &[],
        }
    }

    /// The extensions that gave a component, in the order of first appearance.
    pub fn extensions(&self, alloc: Global) -> Result<IndexSet<ExtensionId>, AllocError>
        ensures { IfOk result (λ s. s.keys ≡ extensions_in (scalar_origins self.now)) }
    {
        self.iter_origins().extensions(alloc)
    }
}

impl ObjectType {
    /// The origin of each component, in order.
    pub fn iter_origins(&self) -> Origins<'_>
        ensures { left_origins result ≡ object_origins self.now }
    {
        Origins {
            directives: self.directives.0.as_slice(),
            query: None,
            mutation: None,
            subscription: None,
            names: self.implements_interfaces.as_slice(),
            fields: self.fields.values().as_slice(),
            values: &[],
            inputs: &[],
        }
    }

    /// The extensions that gave a component, in the order of first appearance.
    pub fn extensions(&self, alloc: Global) -> Result<IndexSet<ExtensionId>, AllocError>
        ensures { IfOk result (λ s. s.keys ≡ extensions_in (object_origins self.now)) }
    {
        self.iter_origins().extensions(alloc)
    }
}

impl InterfaceType {
    /// The origin of each component, in order.
    pub fn iter_origins(&self) -> Origins<'_>
        ensures { left_origins result ≡ interface_origins self.now }
    {
        Origins {
            directives: self.directives.0.as_slice(),
            query: None,
            mutation: None,
            subscription: None,
            names: self.implements_interfaces.as_slice(),
            fields: self.fields.values().as_slice(),
            values: &[],
            inputs: &[],
        }
    }

    /// The extensions that gave a component, in the order of first appearance.
    pub fn extensions(&self, alloc: Global) -> Result<IndexSet<ExtensionId>, AllocError>
        ensures { IfOk result (λ s. s.keys ≡ extensions_in (interface_origins self.now)) }
    {
        self.iter_origins().extensions(alloc)
    }
}

impl UnionType {
    /// The origin of each component, in order.
    pub fn iter_origins(&self) -> Origins<'_>
        ensures { left_origins result ≡ union_origins self.now }
    {
        Origins {
            directives: self.directives.0.as_slice(),
            query: None,
            mutation: None,
            subscription: None,
            names: self.members.as_slice(),
            fields: &[],
            values: &[],
            inputs: &[],
        }
    }

    /// The extensions that gave a component, in the order of first appearance.
    pub fn extensions(&self, alloc: Global) -> Result<IndexSet<ExtensionId>, AllocError>
        ensures { IfOk result (λ s. s.keys ≡ extensions_in (union_origins self.now)) }
    {
        self.iter_origins().extensions(alloc)
    }
}

impl EnumType {
    /// The origin of each component, in order.
    pub fn iter_origins(&self) -> Origins<'_>
        ensures { left_origins result ≡ enum_origins self.now }
    {
        Origins {
            directives: self.directives.0.as_slice(),
            query: None,
            mutation: None,
            subscription: None,
            names: &[],
            fields: &[],
            values: self.values.values().as_slice(),
            inputs: &[],
        }
    }

    /// The extensions that gave a component, in the order of first appearance.
    pub fn extensions(&self, alloc: Global) -> Result<IndexSet<ExtensionId>, AllocError>
        ensures { IfOk result (λ s. s.keys ≡ extensions_in (enum_origins self.now)) }
    {
        self.iter_origins().extensions(alloc)
    }
}

impl InputObjectType {
    /// The origin of each component, in order.
    pub fn iter_origins(&self) -> Origins<'_>
        ensures { left_origins result ≡ input_object_origins self.now }
    {
        Origins {
            directives: self.directives.0.as_slice(),
            query: None,
            mutation: None,
            subscription: None,
            names: &[],
            fields: &[],
            values: &[],
            inputs: self.fields.values().as_slice(),
        }
    }

    /// The extensions that gave a component, in the order of first appearance.
    pub fn extensions(&self, alloc: Global) -> Result<IndexSet<ExtensionId>, AllocError>
        ensures { IfOk result (λ s. s.keys ≡ extensions_in (input_object_origins self.now)) }
    {
        self.iter_origins().extensions(alloc)
    }
}

impl ExtendedType {
    /// The origin of each component, in order.
    pub fn iter_origins(&self) -> Origins<'_>
        ensures { left_origins result ≡ type_origins self.now }
    {
        match self {
            ExtendedType::Scalar(node) => node.content().iter_origins(),
            ExtendedType::Object(node) => node.content().iter_origins(),
            ExtendedType::Interface(node) => node.content().iter_origins(),
            ExtendedType::Union(node) => node.content().iter_origins(),
            ExtendedType::Enum(node) => node.content().iter_origins(),
            ExtendedType::InputObject(node) => node.content().iter_origins(),
        }
    }

    /// The extensions that gave a component, in the order of first appearance.
    pub fn extensions(&self, alloc: Global) -> Result<IndexSet<ExtensionId>, AllocError>
        ensures { IfOk result (λ s. s.keys ≡ extensions_in (type_origins self.now)) }
    {
        self.iter_origins().extensions(alloc)
    }
}
