//! What breaks a folding rule.
ghost use Rattle.std.specs.Prelude.{◌≡◌, ◌++◌, [], ◌∷◌, OnOk};
ghost use Rattle.schema_fold.specs.FaultView.{faults_of, breach_of, repeat_breach};
ghost use Rattle.schema_fold.specs.RepeatedComponents.{repeat_fault};

use graphql_names::{Name, SourceSpan};
use std::alloc::AllocError;
use tree_definitions::OperationType;

/// What breaks a folding rule, with the names that are in its message (section 3).
pub enum BuildError {
    /// An operation or a fragment in a schema text.
    ExecutableDefinition,
    /// A second schema definition.
    SchemaDefinitionCollision,
    /// A second definition of a directive.
    DirectiveDefinitionCollision { name: Name },
    /// A second definition of a type.
    TypeDefinitionCollision { name: Name },
    /// A definition of a built-in scalar.
    BuiltInScalarTypeRedefinition { name: Name },
    /// An extension of a schema that is not defined.
    OrphanSchemaExtension,
    /// An extension of a type that is not defined.
    OrphanTypeExtension { name: Name },
    /// An extension of another kind than the definition.
    TypeExtensionKindMismatch { name: Name },
    /// A second root of an operation.
    DuplicateRootOperation { operation_type: OperationType },
    /// An object implements an interface a second time.
    DuplicateImplementsInterfaceInObject { type_name: Name, name: Name },
    /// An interface implements an interface a second time.
    DuplicateImplementsInterfaceInInterface { type_name: Name, name: Name },
    /// A second field of that name in an object.
    ObjectFieldNameCollision { type_name: Name, name: Name },
    /// A second field of that name in an interface.
    InterfaceFieldNameCollision { type_name: Name, name: Name },
    /// A second value of that name in an enum.
    EnumValueNameCollision { type_name: Name, name: Name },
    /// A second member of that name in a union.
    UnionMemberNameCollision { type_name: Name, name: Name },
    /// A second field of that name in an input object.
    InputFieldNameCollision { type_name: Name, name: Name },
}

impl Drop for BuildError {
    fn drop(self) {
        match self {
            BuildError::ExecutableDefinition
            | BuildError::SchemaDefinitionCollision
            | BuildError::DirectiveDefinitionCollision { name: _ }
            | BuildError::TypeDefinitionCollision { name: _ }
            | BuildError::BuiltInScalarTypeRedefinition { name: _ }
            | BuildError::OrphanSchemaExtension
            | BuildError::OrphanTypeExtension { name: _ }
            | BuildError::TypeExtensionKindMismatch { name: _ }
            | BuildError::DuplicateRootOperation { operation_type: _ }
            | BuildError::DuplicateImplementsInterfaceInObject {
                type_name: _,
                name: _,
            }
            | BuildError::DuplicateImplementsInterfaceInInterface {
                type_name: _,
                name: _,
            }
            | BuildError::ObjectFieldNameCollision {
                type_name: _,
                name: _,
            }
            | BuildError::InterfaceFieldNameCollision {
                type_name: _,
                name: _,
            }
            | BuildError::EnumValueNameCollision {
                type_name: _,
                name: _,
            }
            | BuildError::UnionMemberNameCollision {
                type_name: _,
                name: _,
            }
            | BuildError::InputFieldNameCollision {
                type_name: _,
                name: _,
            } => {}
        }
    }
}

/// The rules that a second component of one name can break.
#[derive(Clone, Copy)]
pub enum Repeat {
    /// An object type is valid only if it names each of its interfaces once (section 3.6).
    ObjectInterface,
    /// An interface type is valid only if it names each of its interfaces once (section 3.7).
    InterfaceInterface,
    /// An object type is valid only if its fields differ in name (section 3.6).
    ObjectField,
    /// An interface type is valid only if its fields differ in name (section 3.7).
    InterfaceField,
    /// An enum type is valid only if its values differ in name (section 3.9).
    EnumValue,
    /// A union type is valid only if it names each of its members once (section 3.8).
    UnionMember,
    /// An input object type is valid only if its fields differ in name (section 3.10).
    InputField,
}

impl Repeat {
    /// What breaks the rule.
    fn error(self, type_name: Name, name: Name) -> BuildError
        ensures { breach_of result ≡ repeat_breach self type_name.text name.text }
    {
        match self {
            Repeat::ObjectInterface => BuildError::DuplicateImplementsInterfaceInObject {
                type_name,
                name,
            },
            Repeat::InterfaceInterface => BuildError::DuplicateImplementsInterfaceInInterface {
                type_name,
                name,
            },
            Repeat::ObjectField => BuildError::ObjectFieldNameCollision { type_name, name },
            Repeat::InterfaceField => BuildError::InterfaceFieldNameCollision { type_name, name },
            Repeat::EnumValue => BuildError::EnumValueNameCollision { type_name, name },
            Repeat::UnionMember => BuildError::UnionMemberNameCollision { type_name, name },
            Repeat::InputField => BuildError::InputFieldNameCollision { type_name, name },
        }
    }
}

/// Tells what is wrong at that place.
pub fn tell(
    faults: &mut Vec<(Option<SourceSpan>, BuildError)>,
    location: Option<SourceSpan>,
    error: BuildError,
) -> Result<(), AllocError>
    ensures { OnOk result (faults_of faults.new ≡ faults_of faults.old ++ record { place = location; breach = breach_of error } ∷ []) }
{
    faults.push((location, error))?;
    Ok(())
}

/// Tells that an earlier component of the type has the name of the one at that place.
pub(crate) fn note_repeat(
    faults: &mut Vec<(Option<SourceSpan>, BuildError)>,
    repeat: Repeat,
    type_name: &Name,
    name: &Name,
    location: Option<SourceSpan>,
) -> Result<(), AllocError>
    ensures { OnOk result (faults_of faults.new ≡ faults_of faults.old ++ repeat_fault location repeat type_name.now.text name.now.text ∷ []) }
{
    let type_name = type_name.clone()?;
    let name = name.clone()?;
    tell(faults, location, repeat.error(type_name, name))
}
