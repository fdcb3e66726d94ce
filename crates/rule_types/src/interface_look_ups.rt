//! What a type lists and has by name.
ghost use Rattle.std.specs.Prelude.{◌≡◌, map};
ghost use Rattle.std.specs.Option.{option_map};
ghost use Rattle.tree_type_members.specs.TypeSystemTree.{field_definition_tree};
ghost use Rattle.schema_components.specs.Lists.{is_among};
ghost use Rattle.schema_components.specs.Given.{component_tree, component_name_tree, given_name};
ghost use Rattle.schema_types.specs.TypeView.{extended_type};
ghost use Rattle.graphql_names.specs.Node.{content};
ghost use Rattle.schema_types.specs.Addresses.{under};
ghost use Rattle.schema_inputs.specs.Inputs.{AreInputsOf};
ghost use Rattle.rule_types.specs.InterfaceTrees.{HasField, schema_of};

use crate::interface_judging::InterfaceJudging;
use graphql_names::Name;
use schema_components::{Component, ComponentName};
use schema_inputs::{DefinedArguments, FEW};
use schema_types::ExtendedType;
use tree_type_members::FieldDefinition;

/// The interfaces that a type lists, in order.
pub(crate) fn interfaces_of(ty: &ExtendedType) -> &[ComponentName]
    ensures { map component_name_tree result.now ≡ (extended_type ty.now).interfaces }
{
    match ty {
        ExtendedType::Object(own) => own.content().implements_interfaces.as_slice(),
        ExtendedType::Interface(own) => own.content().implements_interfaces.as_slice(),
        _ => &[],
    }
}

/// Whether a type lists the interface.
pub(crate) fn implements(ty: &ExtendedType, interface: &ComponentName) -> bool
    ensures { result ≡ is_among interface.now.name.text (map given_name (extended_type ty.now).interfaces) }
{
    match ty {
        ExtendedType::Object(own) => own.content().implements_interfaces.contains(interface),
        ExtendedType::Interface(own) => own.content().implements_interfaces.contains(interface),
        _ => false,
    }
}

/// The field of that name of a type.
pub(crate) fn own_field<'a>(
    ty: &'a ExtendedType,
    name: &Name,
) -> Option<&'a Component<FieldDefinition>>
    ensures { option_map (λ f. component_tree field_definition_tree f.now) result ≡ under name.now.text (extended_type ty.now).fields }
{
    match ty {
        ExtendedType::Object(own) => own.content().fields.get(name),
        ExtendedType::Interface(own) => own.content().fields.get(name),
        _ => None,
    }
}

/// The arguments of the field of that name of the type of that name, with what is known of them, if they are many.
pub(crate) fn own_arguments<'a>(
    judging: &InterfaceJudging<'a>,
    name: &Name,
    field_name: &Name,
    field: &'a Component<FieldDefinition>,
) -> DefinedArguments<'a>
    requires inputs { AreInputsOf (schema_of judging.now) judging.now.inputs.now }
    requires there { HasField judging.now name.now field_name.now field.now }
    ensures { result ≡ (content field.now.node).arguments.items }
{
    let nodes = field.node.content().arguments.as_slice();
    if nodes.len() <= FEW {
        return DefinedArguments::listed(nodes);
    }
    let known = judging
        .inputs
        .of_field(&judging.schema.types, name, field_name);
    DefinedArguments::new(nodes, known)
}
