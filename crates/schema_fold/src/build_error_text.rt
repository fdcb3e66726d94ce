//! The text of what breaks a folding rule.
ghost use Rattle.std.specs.Prelude.{◌≡◌, ◌++◌, Some};
ghost use Rattle.schema_fold.specs.FaultView.{breach_of};
ghost use Rattle.schema_fold.specs.FilledTemplate.{filled};
ghost use Rattle.schema_fold.specs.Messages.{message, has_twice};

use crate::build_error::BuildError;
use graphql_names::Name;
use std::fmt;

/// A text with two gaps and what fills them.
#[derive(Clone, Copy)]
struct Template<'a> {
    front: &'static str,
    first: &'a str,
    middle: &'static str,
    second: &'a str,
    back: &'static str,
}

impl fmt::Display for BuildError {
    ghost output = { λ e. Some (message (breach_of e)) };

    fn fmt<W: fmt::Write>(&self, f: &mut fmt::Formatter<W>) -> fmt::Result {
        // One `write!` for all variants: one in each arm would cost several times as much to prove.
        let Template {
            front,
            first,
            middle,
            second,
            back,
        } = filled_template(self);
        write!(f, "{front}{first}{middle}{second}{back}")
    }
}

/// The text of each variant, filled with its names.
fn filled_template(error: &BuildError) -> Template<'_>
    ensures { filled result ≡ message (breach_of error.now) }
{
    match error {
        BuildError::ExecutableDefinition => {
            whole("a schema text must not hold an operation or fragment")
        }
        BuildError::SchemaDefinitionCollision => whole("the schema is defined more than once"),
        BuildError::DirectiveDefinitionCollision { name }
        | BuildError::TypeDefinitionCollision { name } => {
            around("`", name.as_str(), "` is defined more than once")
        }
        BuildError::BuiltInScalarTypeRedefinition { name } => {
            around(
                "the built-in scalar `",
                name.as_str(),
                "` must not be defined",
            )
        }
        BuildError::OrphanSchemaExtension => whole("extension of a schema that is not defined"),
        BuildError::OrphanTypeExtension { name } => {
            around(
                "extension of the type `",
                name.as_str(),
                "`, which is not defined",
            )
        }
        BuildError::TypeExtensionKindMismatch { name } => around(
            "the extension of `",
            name.as_str(),
            "` is of another kind than its definition",
        ),
        BuildError::DuplicateRootOperation { operation_type } => {
            around(
                "the ",
                operation_type.name(),
                " root is given more than once",
            )
        }
        BuildError::DuplicateImplementsInterfaceInObject { type_name, name }
        | BuildError::DuplicateImplementsInterfaceInInterface { type_name, name }
        | BuildError::ObjectFieldNameCollision { type_name, name }
        | BuildError::InterfaceFieldNameCollision { type_name, name }
        | BuildError::EnumValueNameCollision { type_name, name }
        | BuildError::UnionMemberNameCollision { type_name, name }
        | BuildError::InputFieldNameCollision { type_name, name } => has_twice(type_name, name),
    }
}

/// A text without gaps.
fn whole(text: &'static str) -> Template<'static>
    ensures { filled result ≡ text.now }
{
    Template {
        front: "",
        first: "",
        middle: "",
        second: "",
        back: text,
    }
}

/// A text with one gap, which the name fills.
fn around<'a>(front: &'static str, name: &'a str, back: &'static str) -> Template<'a>
    ensures { filled result ≡ front.now ++ (name.now ++ back.now) }
{
    Template {
        front,
        first: name,
        middle: "",
        second: "",
        back,
    }
}

/// The type has a component of that name more than once.
fn has_twice<'a>(type_name: &'a Name, name: &'a Name) -> Template<'a>
    ensures { filled result ≡ has_twice type_name.now.text name.now.text }
{
    Template {
        front: "`",
        first: type_name.as_str(),
        middle: "` has `",
        second: name.as_str(),
        back: "` more than once",
    }
}
