//! Rules on the types that are referred to (sections 3.4.2, 3.6, 3.8 and 3.10). Each is given the kind of that type, if
//! it is defined.
ghost use Rattle.std.specs.Prelude.{◌≡◌, OnOk};
ghost use Rattle.graphql_names.specs.Placed.{name_tree};
ghost use Rattle.tree_literals.specs.TypeTree.{type_tree};
ghost use Rattle.schema_components.specs.Lists.{is_among};
ghost use Rattle.rule_types.specs.Adds.{AddsThese};
ghost use Rattle.fault_data.specs.in_rule_definitions.Names.{scalar_names};
ghost use Rattle.rule_types.specs.FaultLists.{undefined_name, undefined_type, output_type, input_type, union_member_object_type};
ghost use Rattle.rule_types.specs.Trees.{input_tree, field_tree};

use fault_data::{DiagnosticData, Fault, tell};
use graphql_names::{Name, Node};
use schema_types::TypeKind;
use std::alloc::AllocError;
use tree_directives::InputValueDefinition;
use tree_literals::Type;
use tree_type_members::FieldDefinition;

/// UndefinedDefinition: a root or a member of a union is valid only if its type is defined (sections 3.3.1 and 3.8). Told
/// of a name that no type has.
pub(crate) fn undefined_name(
    name: &Name,
    kind: Option<TypeKind>,
    faults: &mut Vec<Fault>,
) -> Result<(), AllocError>
    ensures { OnOk result (AddsThese faults.old faults.new (undefined_name (name_tree name.now) kind)) }
{
    match kind {
        Some(_) => Ok(()),
        None => tell(
            faults,
            Some(Fault {
                location: name.location(),
                data: DiagnosticData::UndefinedDefinition {
                    name: name.clone()?,
                },
            }),
        ),
    }
}

/// UndefinedDefinition: a field, argument or input field is valid only if its type is defined (section 3.4.2). Told of the
/// type inside the reference, unless it has the name of a built-in scalar.
pub(crate) fn undefined_type(
    ty: &Type,
    kind: Option<TypeKind>,
    faults: &mut Vec<Fault>,
) -> Result<(), AllocError>
    ensures { OnOk result (AddsThese faults.old faults.new (undefined_type (type_tree ty.now) kind)) }
{
    match kind {
        Some(_) => Ok(()),
        None => {
            let name = ty.inner_named_type();
            // A schema may lack a built-in scalar to which nothing referred before: validation puts it back.
            if is_scalar_name(name.as_str()) {
                return Ok(());
            }
            undefined_name(name, None, faults)
        }
    }
}

/// Whether it is the name of a built-in scalar (section 3.5).
fn is_scalar_name(text: &str) -> bool
    ensures { result ≡ is_among text.now scalar_names }
{
    text == "Int" || text == "Float" || text == "String" || text == "Boolean" || text == "ID"
}

/// OutputType: a field is valid only if its type is an output type (sections 3.6 and 3.7). The field has the name `name`.
pub(crate) fn output_type(
    name: &Name,
    field: &Node<FieldDefinition>,
    kind: Option<TypeKind>,
    faults: &mut Vec<Fault>,
) -> Result<(), AllocError>
    ensures { OnOk result (AddsThese faults.old faults.new (output_type name.now.text (field_tree field.now) kind)) }
{
    match kind {
        None => Ok(()),
        Some(kind) => {
            if kind.is_output_type() {
                return Ok(());
            }
            tell(
                faults,
                Some(Fault {
                    location: field.location(),
                    data: DiagnosticData::OutputType {
                        name: name.clone()?,
                        describe_type: kind.describe(),
                        type_location: field.content().ty.inner_named_type().location(),
                    },
                }),
            )
        }
    }
}

/// InputType: an argument or input field is valid only if its type is an input type (sections 3.6.1, 3.10 and 3.13).
pub(crate) fn input_type(
    input: &Node<InputValueDefinition>,
    kind: Option<TypeKind>,
    faults: &mut Vec<Fault>,
) -> Result<(), AllocError>
    ensures { OnOk result (AddsThese faults.old faults.new (input_type (input_tree input.now) kind)) }
{
    match kind {
        None => Ok(()),
        Some(kind) => {
            if kind.is_input_type() {
                return Ok(());
            }
            tell(
                faults,
                Some(Fault {
                    location: input.location(),
                    data: DiagnosticData::InputType {
                        name: input.content().name.clone()?,
                        describe_type: kind.describe(),
                        type_location: input.content().ty.location(),
                    },
                }),
            )
        }
    }
}

/// UnionMemberObjectType: a member of a union is valid only if it is an object type (section 3.8).
pub(crate) fn union_member_object_type(
    member: &Name,
    kind: Option<TypeKind>,
    faults: &mut Vec<Fault>,
) -> Result<(), AllocError>
    ensures { OnOk result (AddsThese faults.old faults.new (union_member_object_type (name_tree member.now) kind)) }
{
    match kind {
        None => Ok(()),
        Some(kind) => {
            if kind.is(TypeKind::Object) {
                return Ok(());
            }
            tell(
                faults,
                Some(Fault {
                    location: member.location(),
                    data: DiagnosticData::UnionMemberObjectType {
                        name: member.clone()?,
                        describe_type: kind.describe(),
                    },
                }),
            )
        }
    }
}
