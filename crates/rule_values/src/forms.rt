//! Rules on the form of one value, apart from what is inside a list or an object.
ghost use Rattle.std.specs.Prelude.{◌≡◌, ◌&&◌, ◌||◌, not, IfOk, OnOk};
ghost use Rattle.std.specs.Option.{option_map};
ghost use Rattle.graphql_names.specs.Node.{content};
ghost use Rattle.tree_literals.specs.NumberSyntax.{integer_value};
ghost use Rattle.tree_literals.specs.TypeTree.{type_tree};
ghost use Rattle.tree_literals.specs.TypeQueries.{inner_name};
ghost use Rattle.tree_literals.specs.ValueTree.{value_tree};
ghost use Rattle.tree_literals.specs.ValueQueries.{integer_text};
ghost use Rattle.graphql_schema.specs.in_schema_types.TypeView.{extended_type};
ghost use Rattle.fault_data.specs.in_rule_definitions.Judged.{is_built_in_scalar};
ghost use Rattle.rule_values.specs.Wanting.{variables_of};
ghost use Rattle.rule_values.specs.ValueFaults.{fits_32_bits, is_custom_scalar, is_scalar_so, takes_integers, takes_floats, takes_strings, takes_booleans, variable_fits, fits_form};
ghost use Rattle.rule_values.specs.Telling.{Tells, unsupported_of, integer_faults_of, enum_faults_of};

use crate::defined::DefinedVariables;
use crate::find::find_value;
use crate::wanted::Wanted;
use fault_data::{DiagnosticData, Fault, tell};
use graphql_names::{Name, Node, SourceSpan};
use schema_types::ExtendedType;
use std::alloc::{AllocError, Global};
use tree_literals::{IntValue, Type, Value};

/// Whether an integer has at most 32 bits, with its sign.
fn fits_32_bits(number: &IntValue) -> bool
    ensures { result ≡ fits_32_bits (integer_value number.now.text) }
{
    number.try_to_i32().is_some()
}

fn is_built_in_scalar(found: &ExtendedType) -> bool
    ensures { result ≡ is_built_in_scalar (extended_type found.now) }
{
    found.is_scalar() && found.is_built_in()
}

pub(crate) fn is_custom_scalar(found: &ExtendedType) -> bool
    ensures { result ≡ is_custom_scalar (extended_type found.now) }
{
    found.is_scalar() && !found.is_built_in()
}

/// Whether the type is a custom scalar, or a built-in scalar if `named` is true.
fn is_scalar_so(named: bool, found: &ExtendedType) -> bool
    ensures { result ≡ is_scalar_so named (extended_type found.now) }
{
    found.is_scalar() && (!found.is_built_in() || named)
}

/// Whether the built-in scalar of that name takes integers (section 3.5).
fn takes_integers(name: &str) -> bool
    ensures { result ≡ takes_integers name.now }
{
    name == "Int" || (name == "Float" || name == "ID")
}

/// Whether the built-in scalar of that name takes numbers with a fraction or an exponent.
fn takes_floats(name: &str) -> bool
    ensures { result ≡ takes_floats name.now }
{
    name == "Float"
}

/// Whether the built-in scalar of that name takes strings.
fn takes_strings(name: &str) -> bool
    ensures { result ≡ takes_strings name.now }
{
    name == "String" || name == "ID"
}

/// Whether the built-in scalar of that name takes booleans.
fn takes_booleans(name: &str) -> bool
    ensures { result ≡ takes_booleans name.now }
{
    name == "Boolean"
}

/// Whether a variable has that inner type; one that is not defined fits everywhere.
fn variable_fits(variables: &DefinedVariables<'_>, name: &Name, wanted: &Name) -> bool
    ensures { result ≡ variable_fits (variables_of variables.now) name.now.text wanted.now.text }
{
    match variables.get(name) {
        None => true,
        Some(variable) => {
            variable.content().ty.content().inner_named_type().as_str() == wanted.as_str()
        }
    }
}

/// Whether the form of a value fits `ty`, whose inner type is `found`.
#[tactic(auto, using(tree_literals::proofs::Trees::value_tree_rules))]
fn fits_form(
    ty: &Type,
    found: &ExtendedType,
    value: &Value,
    variables: &DefinedVariables<'_>,
) -> bool
    ensures { result ≡ fits_form (variables_of variables.now) (type_tree ty.now) (extended_type found.now) (value_tree value.now) }
{
    let name = ty.inner_named_type();
    match value {
        Value::Null => !ty.is_non_null(),
        Value::Variable(variable) => variable_fits(variables, variable, name),
        Value::Int(_) => is_scalar_so(takes_integers(name.as_str()), found),
        Value::Float(_) => is_scalar_so(takes_floats(name.as_str()), found),
        Value::String(_) => is_scalar_so(takes_strings(name.as_str()), found),
        Value::Boolean(_) => is_scalar_so(takes_booleans(name.as_str()), found),
        Value::Enum(_) => found.is_enum() || is_custom_scalar(found),
        Value::List(_) => ty.is_list() || is_custom_scalar(found),
        Value::Object(_) => found.is_input_object() || is_custom_scalar(found),
    }
}

/// A node of a copy of the type, with the place of the reference to it.
fn type_node(alloc: Global, wanted: &Wanted<'_>) -> Result<Node<Type>, AllocError>
    ensures { IfOk result (λ n. type_tree (content n) ≡ type_tree wanted.now.ty.now) }
{
    let ty = wanted.ty.clone()?;
    match wanted.location {
        None => Ok(Node::new(alloc, ty)?),
        Some(location) => Ok(Node::new_parsed(alloc, ty, location)?),
    }
}

/// UnsupportedValueType: a value is valid only if its form fits the type that is expected (section 5.6.1).
pub(crate) fn unsupported_value_type(
    wanted: &Wanted<'_>,
    found: &ExtendedType,
    value: &Node<Value>,
    variables: &DefinedVariables<'_>,
    faults: &mut Vec<Fault>,
) -> Result<(), AllocError>
    ensures { OnOk result (Tells faults.old faults.new (unsupported_of variables.now wanted.now found.now value.now)) }
{
    if fits_form(wanted.ty, found, value.content(), variables) {
        return Ok(());
    }
    let location = value.location();
    let ty = type_node(*faults.allocator(), wanted)?;
    let data = DiagnosticData::UnsupportedValueType {
        value: value.clone()?,
        ty,
        definition_location: wanted.location,
    };
    tell(faults, Some(Fault { location, data }))
}

/// The number of an integer, else None.
#[tactic(auto, using(tree_literals::proofs::Trees::value_tree_rules))]
fn as_integer(value: &Value) -> Option<&IntValue>
    ensures { option_map (λ n. n.now.text) result ≡ integer_text (value_tree value.now) }
{
    match value {
        Value::Int(number) => Some(number),
        Value::Null
        | Value::Enum(_)
        | Value::Variable(_)
        | Value::String(_)
        | Value::Float(_)
        | Value::Boolean(_)
        | Value::List(_)
        | Value::Object(_) => None,
    }
}

/// IntCoercionError: an integer for Int is valid only if it fits 32 bits (section 3.5.1).
pub(crate) fn int_coercion_error(
    name: &Name,
    found: &ExtendedType,
    value: &Value,
    location: Option<SourceSpan>,
    faults: &mut Vec<Fault>,
) -> Result<(), AllocError>
    ensures { OnOk result (Tells faults.old faults.new (integer_faults_of name.now found.now location value.now)) }
{
    if !(is_built_in_scalar(found) && name.as_str() == "Int") {
        return Ok(());
    }
    let Some(number) = as_integer(value) else {
        return Ok(());
    };
    if fits_32_bits(number) {
        return Ok(());
    }
    let digits = String::from_str(*faults.allocator(), number.as_str())?;
    let data = DiagnosticData::IntCoercionError { value: digits };
    tell(faults, Some(Fault { location, data }))
}

/// UndefinedEnumValue: an enum value is valid only if the enum type has it (section 3.9).
pub(crate) fn undefined_enum_value(
    name: &Name,
    found: &ExtendedType,
    value: &Value,
    location: Option<SourceSpan>,
    faults: &mut Vec<Fault>,
) -> Result<(), AllocError>
    ensures { OnOk result (Tells faults.old faults.new (enum_faults_of name.now found.now location value.now)) }
{
    if !found.is_enum() {
        return Ok(());
    }
    let Some(given) = value.as_enum() else {
        return Ok(());
    };
    if let Some(_) = find_value(found, given) {
        return Ok(());
    }
    let given = given.clone()?;
    let data = DiagnosticData::UndefinedEnumValue {
        value: given,
        definition: name.clone()?,
        definition_location: found.location(),
    };
    tell(faults, Some(Fault { location, data }))
}
