//! Queries on a type of any kind.
ghost use Rattle.std.specs.Prelude.{◌≡◌, ◌||◌, not, codes};
ghost use Rattle.std.specs.Option.{option_map};
ghost use Rattle.graphql_names.specs.Places.{is_built_in};
ghost use Rattle.graphql_names.specs.Placed.{name_tree, text_tree};
ghost use Rattle.schema_components.specs.Applied.{applied_tree};
ghost use Rattle.schema_types.specs.SchemaTree.{is_leaf_kind, is_input_kind, is_output_kind, kind_words};
ghost use Rattle.schema_types.specs.TypeView.{extended_type};

use crate::extended_type::ExtendedType;
use crate::type_kind::TypeKind;
use graphql_names::{Name, NodeStr, SourceSpan};
use schema_components::DirectiveList;

impl ExtendedType {
    /// Its kind.
    pub fn kind(&self) -> TypeKind
        ensures { result ≡ (extended_type self.now).kind }
    {
        match self {
            ExtendedType::Scalar(_) => TypeKind::Scalar,
            ExtendedType::Object(_) => TypeKind::Object,
            ExtendedType::Interface(_) => TypeKind::Interface,
            ExtendedType::Union(_) => TypeKind::Union,
            ExtendedType::Enum(_) => TypeKind::Enum,
            ExtendedType::InputObject(_) => TypeKind::InputObject,
        }
    }

    /// Its name.
    pub fn name(&self) -> &Name
        ensures { name_tree result.now ≡ (extended_type self.now).name }
    {
        match self {
            ExtendedType::Scalar(node) => &node.content().name,
            ExtendedType::Object(node) => &node.content().name,
            ExtendedType::Interface(node) => &node.content().name,
            ExtendedType::Union(node) => &node.content().name,
            ExtendedType::Enum(node) => &node.content().name,
            ExtendedType::InputObject(node) => &node.content().name,
        }
    }

    /// The place that its definition was read from, if it was read.
    pub fn location(&self) -> Option<SourceSpan>
        ensures { result ≡ (extended_type self.now).place }
    {
        match self {
            ExtendedType::Scalar(node) => node.location(),
            ExtendedType::Object(node) => node.location(),
            ExtendedType::Interface(node) => node.location(),
            ExtendedType::Union(node) => node.location(),
            ExtendedType::Enum(node) => node.location(),
            ExtendedType::InputObject(node) => node.location(),
        }
    }

    /// The description of its definition, if there is one.
    pub fn description(&self) -> Option<&NodeStr>
        ensures { option_map (λ d. text_tree d.now) result ≡ (extended_type self.now).description }
    {
        match self {
            ExtendedType::Scalar(node) => node.content().description.as_ref(),
            ExtendedType::Object(node) => node.content().description.as_ref(),
            ExtendedType::Interface(node) => node.content().description.as_ref(),
            ExtendedType::Union(node) => node.content().description.as_ref(),
            ExtendedType::Enum(node) => node.content().description.as_ref(),
            ExtendedType::InputObject(node) => node.content().description.as_ref(),
        }
    }

    /// The directives that are applied to it.
    pub fn directives(&self) -> &DirectiveList
        ensures { applied_tree result.now ≡ (extended_type self.now).directives }
    {
        match self {
            ExtendedType::Scalar(node) => &node.content().directives,
            ExtendedType::Object(node) => &node.content().directives,
            ExtendedType::Interface(node) => &node.content().directives,
            ExtendedType::Union(node) => &node.content().directives,
            ExtendedType::Enum(node) => &node.content().directives,
            ExtendedType::InputObject(node) => &node.content().directives,
        }
    }

    /// Whether its definition is a built-in one.
    pub fn is_built_in(&self) -> bool
        ensures { result ≡ is_built_in (extended_type self.now).place }
    {
        match self {
            ExtendedType::Scalar(node) => node.is_built_in(),
            ExtendedType::Object(node) => node.is_built_in(),
            ExtendedType::Interface(node) => node.is_built_in(),
            ExtendedType::Union(node) => node.is_built_in(),
            ExtendedType::Enum(node) => node.is_built_in(),
            ExtendedType::InputObject(node) => node.is_built_in(),
        }
    }

    /// Whether it is a scalar or an enum: its values have no parts.
    pub fn is_leaf(&self) -> bool
        ensures { result ≡ is_leaf_kind (extended_type self.now).kind }
    {
        self.kind().is_leaf()
    }

    /// Whether values of it can be given: a scalar, an enum or an input object (section 3.4.2, IsInputType).
    pub fn is_input_type(&self) -> bool
        ensures { result ≡ is_input_kind (extended_type self.now).kind }
    {
        self.kind().is_input_type()
    }

    /// Whether fields can have it: any kind but an input object (section 3.4.2, IsOutputType).
    pub fn is_output_type(&self) -> bool
        ensures { result ≡ is_output_kind (extended_type self.now).kind }
    {
        self.kind().is_output_type()
    }

    /// Its kind in words, with the article.
    pub fn describe(&self) -> &'static str
        ensures { result.now ≡ kind_words (extended_type self.now).kind }
    {
        self.kind().describe()
    }
}
