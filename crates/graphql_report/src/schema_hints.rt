//! Hints from the schema: names that may be meant, and types that have a field.

use fault_data::DiagnosticData;
use fault_document_errors::BuildError;
use graphql_faults::Details;
use graphql_names::{Name, Node};
use graphql_schema::{ExtendedType, Schema};
use indexmap::IndexMap;
use report_forms::Closest;
use schema_coordinates::SchemaCoordinate;
use std::alloc::{AllocError, Global};
use tree_directives::InputValueDefinition;
use tree_literals::Value;

/// How many arguments are named.
const NAMED: usize = 5;

/// An inline fragment, a type, a field, a value of an enum, a field of an input object, an argument or a directive.
pub(crate) fn schema_hint(
    alloc: Global,
    left: &mut usize,
    schema: &Schema,
    details: &Details,
) -> Result<Option<String>, AllocError> {
    match details {
        Details::Data(DiagnosticData::UndefinedDefinition { name: type_name })
        | Details::DocumentBuild(
            BuildError::UndefinedTypeInNamedFragmentTypeCondition { type_name }
            | BuildError::UndefinedTypeInInlineFragmentTypeCondition { type_name },
        ) => closest_key(alloc, left, &schema.types, type_name.as_str(), ""),
        Details::DocumentBuild(
            BuildError::UndefinedField {
                type_name,
                field_name,
            },
        ) => field_hint(alloc, left, schema, type_name, field_name),
        Details::Data(DiagnosticData::UnsupportedValueType { value, ty, .. }) => enum_value_hint(
            alloc,
            left,
            schema,
            value.content(),
            ty.content().inner_named_type(),
        ),
        Details::Data(
            DiagnosticData::UndefinedEnumValue {
                value,
                definition,
                ..
            }
            | DiagnosticData::UndefinedInputValue {
                value,
                definition,
                ..
            },
        ) => member_hint(alloc, left, schema, definition, value.as_str()),
        Details::Data(
            DiagnosticData::UndefinedArgument {
                name,
                coordinate,
                ..
            },
        ) => argument_hint(alloc, left, schema, coordinate, name),
        Details::Data(DiagnosticData::UndefinedDirective { name }) => closest_key(
            alloc,
            left,
            &schema.directive_definitions,
            name.as_str(),
            "@",
        ),
        _ => Ok(None),
    }
}

/// A fragment that has the field, or a field of the type.
fn field_hint(
    alloc: Global,
    left: &mut usize,
    schema: &Schema,
    type_name: &Name,
    field: &Name,
) -> Result<Option<String>, AllocError> {
    match fragment_hint(alloc, left, schema, type_name, field)? {
        Some(words) => Ok(Some(words)),
        None => member_hint(alloc, left, schema, type_name, field.as_str()),
    }
}

/// The value of the enum that a string names, or is near to.
fn enum_value_hint(
    alloc: Global,
    left: &mut usize,
    schema: &Schema,
    value: &Value,
    type_name: &Name,
) -> Result<Option<String>, AllocError> {
    match value {
        Value::String(text) if schema.get_enum(type_name).is_some() => member_hint(
            alloc,
            left,
            schema,
            type_name,
            text.as_str(),
        ),
        _ => Ok(None),
    }
}

/// A field, a value or an input field of the type.
fn member_hint(
    alloc: Global,
    left: &mut usize,
    schema: &Schema,
    type_name: &Name,
    given: &str,
) -> Result<Option<String>, AllocError> {
    match schema.type_named(type_name) {
        Some(ExtendedType::Object(ty)) => member_key(alloc, left, &ty.content().fields, given),
        Some(ExtendedType::Interface(ty)) => member_key(alloc, left, &ty.content().fields, given),
        Some(ExtendedType::Enum(ty)) => member_key(alloc, left, &ty.content().values, given),
        Some(ExtendedType::InputObject(ty)) => member_key(alloc, left, &ty.content().fields, given),
        _ => Ok(None),
    }
}

/// The name that is near among those of the members of a type.
fn member_key<V>(
    alloc: Global,
    left: &mut usize,
    members: &IndexMap<Name, V>,
    given: &str,
) -> Result<Option<String>, AllocError> {
    closest_key(alloc, left, members, given, "")
}

/// An argument of the field or of the directive.
fn argument_hint(
    alloc: Global,
    left: &mut usize,
    schema: &Schema,
    coordinate: &SchemaCoordinate,
    given: &Name,
) -> Result<Option<String>, AllocError> {
    let arguments = match coordinate {
        SchemaCoordinate::TypeAttribute(field) => match schema.type_field(
            &field.ty,
            &field.attribute,
        ) {
            Ok(field) => &field.node.content().arguments,
            Err(_) => return Ok(None),
        },
        SchemaCoordinate::Directive(directive) => match schema
            .directive_definitions
            .get(&directive.directive)
        {
            Some(directive) => &directive.content().arguments,
            None => return Ok(None),
        },
        _ => return Ok(None),
    };
    let given = given.as_str();
    let mut closest = Closest::new(alloc, given);
    for argument in arguments {
        let name = argument.content().name.as_str();
        closest.see(name);
    }
    match closest.hint("", left)? {
        Some(words) => Ok(Some(words)),
        None => Ok(Some(taken_words(alloc, arguments)?)),
    }
}

/// The names of these arguments, if they are not too many.
fn taken_words(
    alloc: Global,
    arguments: &[Node<InputValueDefinition>],
) -> Result<String, AllocError> {
    if arguments.is_empty() {
        return String::from_str(alloc, "it takes no argument");
    }
    let (named, others) = arguments.split_at(arguments.len().min(NAMED));
    let mut words = String::from_str(alloc, "it takes ")?;
    let mut joint = "";
    for argument in named {
        let name = argument.content().name.as_str();
        write!(words, "{joint}`{name}`")?;
        joint = ", ";
    }
    if !others.is_empty() {
        write!(words, " and {} more", others.len())?;
    }
    Ok(words)
}

/// One of these names.
fn closest_key<V>(
    alloc: Global,
    left: &mut usize,
    named: &IndexMap<Name, V>,
    given: &str,
    sign: &str,
) -> Result<Option<String>, AllocError> {
    let mut closest = Closest::new(alloc, given);
    for (name, _) in named.iter() {
        let name = name.as_str();
        // a name that is there is wrong only as a string
        if name == given {
            return Ok(Some(format!(in alloc; "did you mean the enum value `{name}`?")?));
        }
        closest.see(name);
    }
    closest.hint(sign, left)
}

/// A fragment on an object that has the field, where a union or an interface has not.
fn fragment_hint(
    alloc: Global,
    left: &mut usize,
    schema: &Schema,
    type_name: &Name,
    field: &Name,
) -> Result<Option<String>, AllocError> {
    let Some(ExtendedType::Interface(_) | ExtendedType::Union(_)) = schema.type_named(type_name)
    else {
        return Ok(None);
    };
    for (name, ty) in schema.types.iter() {
        *left = left.saturating_sub(name.len());
        if let ExtendedType::Object(object) = ty
            && object.content().fields.get(field).is_some()
            && schema.is_subtype(type_name, name)
        {
            return Ok(Some(format!(in alloc; "did you mean an inline fragment on `{name}`?")?));
        }
    }
    Ok(None)
}
