//! A type as it is found in a schema.
ghost use Rattle.std.specs.Prelude.{◌≡◌, IfSome};
ghost use Rattle.schema_types.specs.TypeView.{extended_type};
ghost use Rattle.schema_inputs.specs.Inputs.{AreRequired, IsKnownType};

use crate::known::KnownType;
use graphql_names::Name;
use schema_components::Component;
use schema_types::ExtendedType;
use std::marker::Model;
use tree_directives::InputValueDefinition;

/// A type of a schema, and the required ones of its fields, if it is an input object with many and these are known.
///
/// Contracts see it as the type.
pub struct FoundType<'a> {
    ty: &'a ExtendedType,
    required: Option<&'a [(Name, Component<InputValueDefinition>)]>,
}

impl Drop for FoundType<'_> {
    fn drop(self) {
        let FoundType { ty: _, required: _ } = self;
    }
}

impl<'a> Model for FoundType<'a> {
    ghost use Rattle.std.specs.Prelude.{IfSome};
    ghost use Rattle.std.specs.Coded.{codes};
    ghost use Rattle.schema_types.specs.TypeView.{extended_type};
    ghost use Rattle.schema_types.specs.declared.extended_type.ExtendedType.{ExtendedType as Whole};
    ghost use Rattle.schema_types.specs.contracts.extended_type.ExtendedType as of_type;
    ghost use Rattle.schema_inputs.specs.Inputs.{AreRequired};

    ghost Value = { Whole };

    ghost coded = { Prim.hlevel (codes, of_type.the_row.coded) };

    ghost view = { λ t. t.ty.now };

    ghost invariant = { λ t. IfSome t.required (λ required. AreRequired (extended_type t.ty.now).inputs required.now) };
}

/// Making it, and queries on it.
impl<'a> FoundType<'a> {
    /// The type, of which nothing is known.
    pub fn plain(ty: &'a ExtendedType) -> FoundType<'a>
        ensures { result ≡ ty.now }
    {
        FoundType { ty, required: None }
    }

    /// The type, with what is known of it.
    pub(crate) fn new(ty: &'a ExtendedType, known: &'a KnownType) -> FoundType<'a>
        requires { IsKnownType (extended_type ty.now) known.now }
        ensures { result ≡ ty.now }
    {
        let required = match &known.required {
            None => None,
            Some(fields) => Some(fields.as_slice()),
        };
        FoundType { ty, required }
    }

    /// The type.
    pub fn ty(&self) -> &'a ExtendedType
        ensures { result.now ≡ self.now }
    {
        self.ty
    }

    /// The required ones of its fields, if they are known.
    pub fn required(&self) -> Option<&'a [(Name, Component<InputValueDefinition>)]>
        ensures { IfSome result (λ required. AreRequired (extended_type self.now).inputs required.now) }
    {
        self.required
    }
}
