//! The table of what is built in, as data: the definitions that each schema has, in the order in which a schema has them.
//!
//! Past October 2021 are two locations of `@deprecated`, `includeDeprecated` on `args` and `inputFields`, the last two
//! fields of `__InputValue`, and the last value of `__DirectiveLocation`.

use tree_directives::DirectiveLocation;

/// A definition of the table.
#[derive(Clone, Copy)]
pub(crate) enum Row {
    /// A directive: its name, its arguments, and where it may be applied (section 3.13).
    Directive(&'static str, &'static [ArgumentRow], &'static [DirectiveLocation]),
    /// A scalar: its name (section 3.5).
    Scalar(&'static str),
    /// An object: its name and its fields (section 3.6).
    Object(&'static str, &'static [FieldRow]),
    /// An enum: its name and its values (section 3.9).
    Enum(&'static str, &'static [&'static str]),
}

/// An argument: its name, its type and its default value.
#[derive(Clone, Copy)]
pub(crate) struct ArgumentRow(pub &'static str, pub TypeRow, pub DefaultRow);

/// A default value.
#[derive(Clone, Copy)]
pub(crate) enum DefaultRow {
    Absent,
    Text(&'static str),
    False,
}

/// A field: its name, its arguments and its type.
#[derive(Clone, Copy)]
pub(crate) struct FieldRow(pub &'static str, pub &'static [ArgumentRow], pub TypeRow);

/// A reference to a type.
#[derive(Clone, Copy)]
pub(crate) enum TypeRow {
    /// `N`
    Nullable(&'static str),
    /// `N!`
    NonNull(&'static str),
    /// `[N!]`
    ListOf(&'static str),
    /// `[N!]!`
    NonNullListOf(&'static str),
}

const INCLUDE_DEPRECATED: &[ArgumentRow] = &[ArgumentRow(
    "includeDeprecated",
    TypeRow::Nullable("Boolean"),
    DefaultRow::False,
)];

const CONDITION: &[ArgumentRow] = &[ArgumentRow(
    "if",
    TypeRow::NonNull("Boolean"),
    DefaultRow::Absent,
)];

const REASON: &[ArgumentRow] = &[ArgumentRow(
    "reason",
    TypeRow::Nullable("String"),
    DefaultRow::Text("No longer supported"),
)];

const URL: &[ArgumentRow] = &[ArgumentRow("url", TypeRow::NonNull("String"), DefaultRow::Absent)];

const SELECTIONS: &[DirectiveLocation] = &[
    DirectiveLocation::Field,
    DirectiveLocation::FragmentSpread,
    DirectiveLocation::InlineFragment,
];

const MEMBERS: &[DirectiveLocation] = &[
    DirectiveLocation::FieldDefinition,
    DirectiveLocation::EnumValue,
    DirectiveLocation::ArgumentDefinition,
    DirectiveLocation::InputFieldDefinition,
];

const SCHEMA: &[FieldRow] = &[
    FieldRow("description", &[], TypeRow::Nullable("String")),
    FieldRow("types", &[], TypeRow::NonNullListOf("__Type")),
    FieldRow("queryType", &[], TypeRow::NonNull("__Type")),
    FieldRow("mutationType", &[], TypeRow::Nullable("__Type")),
    FieldRow("subscriptionType", &[], TypeRow::Nullable("__Type")),
    FieldRow("directives", &[], TypeRow::NonNullListOf("__Directive")),
];

const TYPE: &[FieldRow] = &[
    FieldRow("kind", &[], TypeRow::NonNull("__TypeKind")),
    FieldRow("name", &[], TypeRow::Nullable("String")),
    FieldRow("description", &[], TypeRow::Nullable("String")),
    FieldRow("specifiedByURL", &[], TypeRow::Nullable("String")),
    FieldRow("fields", INCLUDE_DEPRECATED, TypeRow::ListOf("__Field")),
    FieldRow("interfaces", &[], TypeRow::ListOf("__Type")),
    FieldRow("possibleTypes", &[], TypeRow::ListOf("__Type")),
    FieldRow(
        "enumValues",
        INCLUDE_DEPRECATED,
        TypeRow::ListOf("__EnumValue"),
    ),
    FieldRow(
        "inputFields",
        INCLUDE_DEPRECATED,
        TypeRow::ListOf("__InputValue"),
    ),
    FieldRow("ofType", &[], TypeRow::Nullable("__Type")),
];

const TYPE_KIND: &[&str] = &[
    "SCALAR",
    "OBJECT",
    "INTERFACE",
    "UNION",
    "ENUM",
    "INPUT_OBJECT",
    "LIST",
    "NON_NULL",
];

const FIELD: &[FieldRow] = &[
    FieldRow("name", &[], TypeRow::NonNull("String")),
    FieldRow("description", &[], TypeRow::Nullable("String")),
    FieldRow(
        "args",
        INCLUDE_DEPRECATED,
        TypeRow::NonNullListOf("__InputValue"),
    ),
    FieldRow("type", &[], TypeRow::NonNull("__Type")),
    FieldRow("isDeprecated", &[], TypeRow::NonNull("Boolean")),
    FieldRow("deprecationReason", &[], TypeRow::Nullable("String")),
];

const INPUT_VALUE: &[FieldRow] = &[
    FieldRow("name", &[], TypeRow::NonNull("String")),
    FieldRow("description", &[], TypeRow::Nullable("String")),
    FieldRow("type", &[], TypeRow::NonNull("__Type")),
    FieldRow("defaultValue", &[], TypeRow::Nullable("String")),
    FieldRow("isDeprecated", &[], TypeRow::NonNull("Boolean")),
    FieldRow("deprecationReason", &[], TypeRow::Nullable("String")),
];

const ENUM_VALUE: &[FieldRow] = &[
    FieldRow("name", &[], TypeRow::NonNull("String")),
    FieldRow("description", &[], TypeRow::Nullable("String")),
    FieldRow("isDeprecated", &[], TypeRow::NonNull("Boolean")),
    FieldRow("deprecationReason", &[], TypeRow::Nullable("String")),
];

const DIRECTIVE: &[FieldRow] = &[
    FieldRow("name", &[], TypeRow::NonNull("String")),
    FieldRow("description", &[], TypeRow::Nullable("String")),
    FieldRow(
        "locations",
        &[],
        TypeRow::NonNullListOf("__DirectiveLocation"),
    ),
    FieldRow(
        "args",
        INCLUDE_DEPRECATED,
        TypeRow::NonNullListOf("__InputValue"),
    ),
    FieldRow("isRepeatable", &[], TypeRow::NonNull("Boolean")),
];

const DIRECTIVE_LOCATION: &[&str] = &[
    "QUERY",
    "MUTATION",
    "SUBSCRIPTION",
    "FIELD",
    "FRAGMENT_DEFINITION",
    "FRAGMENT_SPREAD",
    "INLINE_FRAGMENT",
    "VARIABLE_DEFINITION",
    "SCHEMA",
    "SCALAR",
    "OBJECT",
    "FIELD_DEFINITION",
    "ARGUMENT_DEFINITION",
    "INTERFACE",
    "UNION",
    "ENUM",
    "ENUM_VALUE",
    "INPUT_OBJECT",
    "INPUT_FIELD_DEFINITION",
    "DIRECTIVE_DEFINITION",
];

/// The meta-field `__typename: String!` (section 4.1).
pub(crate) const TYPENAME_FIELD: FieldRow = FieldRow("__typename", &[], TypeRow::NonNull("String"));

/// The meta-field `__schema: __Schema!` (section 4.2).
pub(crate) const SCHEMA_FIELD: FieldRow = FieldRow("__schema", &[], TypeRow::NonNull("__Schema"));

/// The meta-field `__type(name: String!): __Type` (section 4.2).
pub(crate) const TYPE_FIELD: FieldRow = FieldRow(
    "__type",
    &[ArgumentRow("name", TypeRow::NonNull("String"), DefaultRow::Absent)],
    TypeRow::Nullable("__Type"),
);

/// All definitions: the directives, the scalars, and the types of introspection (section 4.2).
pub(crate) const ROWS: &[Row] = &[
    Row::Directive("skip", CONDITION, SELECTIONS),
    Row::Directive("include", CONDITION, SELECTIONS),
    Row::Directive("deprecated", REASON, MEMBERS),
    Row::Directive("specifiedBy", URL, &[DirectiveLocation::Scalar]),
    Row::Scalar("Int"),
    Row::Scalar("Float"),
    Row::Scalar("String"),
    Row::Scalar("Boolean"),
    Row::Scalar("ID"),
    Row::Object("__Schema", SCHEMA),
    Row::Object("__Type", TYPE),
    Row::Enum("__TypeKind", TYPE_KIND),
    Row::Object("__Field", FIELD),
    Row::Object("__InputValue", INPUT_VALUE),
    Row::Object("__EnumValue", ENUM_VALUE),
    Row::Object("__Directive", DIRECTIVE),
    Row::Enum("__DirectiveLocation", DIRECTIVE_LOCATION),
];
