//! The kinds of types.
ghost use Rattle.std.specs.Prelude.{◌≡◌};
ghost use Rattle.schema_types.specs.SchemaTree.{is_leaf_kind, is_input_kind, is_output_kind, kind_words, same_kind};

/// A kind of types (section 3.4).
#[derive(Clone, Copy)]
pub enum TypeKind {
    Scalar,
    Object,
    Interface,
    Union,
    Enum,
    InputObject,
}

impl TypeKind {
    /// Whether it is that kind.
    pub fn is(self, other: TypeKind) -> bool
        ensures { result ≡ same_kind self other }
    {
        matches!(
            (self, other),
            (TypeKind::Scalar, TypeKind::Scalar)
                | (TypeKind::Object, TypeKind::Object)
                | (TypeKind::Interface, TypeKind::Interface)
                | (TypeKind::Union, TypeKind::Union)
                | (TypeKind::Enum, TypeKind::Enum)
                | (TypeKind::InputObject, TypeKind::InputObject)
        )
    }

    /// Whether it is the kind of scalars or of enums.
    pub fn is_leaf(self) -> bool
        ensures { result ≡ is_leaf_kind self }
    {
        matches!(self, TypeKind::Scalar | TypeKind::Enum)
    }

    /// Whether values of such types can be given.
    pub fn is_input_type(self) -> bool
        ensures { result ≡ is_input_kind self }
    {
        matches!(
            self,
            TypeKind::Scalar | TypeKind::Enum | TypeKind::InputObject
        )
    }

    /// Whether fields can have such types.
    pub fn is_output_type(self) -> bool
        ensures { result ≡ is_output_kind self }
    {
        !matches!(self, TypeKind::InputObject)
    }

    /// The kind in words, with the article.
    pub fn describe(self) -> &'static str
        ensures { result.now ≡ kind_words self }
    {
        match self {
            TypeKind::Scalar => "a scalar type",
            TypeKind::Object => "an object type",
            TypeKind::Interface => "an interface type",
            TypeKind::Union => "a union type",
            TypeKind::Enum => "an enum type",
            TypeKind::InputObject => "an input object type",
        }
    }
}
