//! What is checked of a value.
ghost use Rattle.std.specs.Prelude.{◌≡◌, OnOk};
ghost use Rattle.graphql_names.specs.Node.{content, place};
ghost use Rattle.tree_literals.specs.ValueTree.{value_tree};
ghost use Rattle.graphql_schema.specs.SchemaOf.{schema_tree};
ghost use Rattle.graphql_schema.specs.in_schema_types.Addresses.{place_at};
ghost use Rattle.fault_data.specs.in_rule_definitions.Judged.{judged};
ghost use Rattle.fault_data.specs.in_rule_definitions.Values.{TypeBreaks, UndefinedVariableIn, UniqueInputValueIn, ValueBreaks};
ghost use Rattle.fault_data.specs.Adds.{Adds};
ghost use Rattle.rule_values.specs.Wanting.{wanted_type, variables_of};

use crate::defined::DefinedVariables;
use crate::indexed::IndexedSchema;
use crate::keys::tell_key_faults;
use crate::types::tell_type_faults;
use crate::variables::tell_variable_faults;
use fault_data::Fault;
use graphql_names::Node;
use std::alloc::AllocError;
use tree_literals::{Type, Value};

/// Adds the faults of a value that is given for a type: those of `type_breaks` and of `undefined_variables`.
pub fn check_value(
    schema: &IndexedSchema<'_>,
    ty: &Node<Type>,
    value: &Node<Value>,
    variables: &DefinedVariables<'_>,
    faults: &mut Vec<Fault>,
) -> Result<(), AllocError>
    ensures { OnOk result (Adds faults.old faults.new (ValueBreaks (place_at (schema_tree schema.now)) (judged (schema_tree schema.now)) (variables_of variables.now) (wanted_type ty.now) (place value.now) (value_tree (content value.now)))) }
{
    type_breaks(schema, ty, value, variables, faults)?;
    undefined_variables(value, variables, faults)
}

/// Adds the faults of a value, at any depth, against a type: it fits the type, and what is inside it fits the types of items
/// and fields (section 5.6).
pub fn type_breaks(
    schema: &IndexedSchema<'_>,
    ty: &Node<Type>,
    value: &Node<Value>,
    variables: &DefinedVariables<'_>,
    faults: &mut Vec<Fault>,
) -> Result<(), AllocError>
    ensures { OnOk result (Adds faults.old faults.new (TypeBreaks (place_at (schema_tree schema.now)) (judged (schema_tree schema.now)) (variables_of variables.now) (wanted_type ty.now) (place value.now) (value_tree (content value.now)))) }
{
    tell_type_faults(schema, ty, value, variables, faults)
}

/// Adds a fault for each variable in a value, at any depth, that is not defined (section 5.8.3).
pub fn undefined_variables(
    value: &Node<Value>,
    variables: &DefinedVariables<'_>,
    faults: &mut Vec<Fault>,
) -> Result<(), AllocError>
    ensures { OnOk result (Adds faults.old faults.new (UndefinedVariableIn (variables_of variables.now) (place value.now) (value_tree (content value.now)))) }
{
    tell_variable_faults(value, variables, faults)
}

/// Adds a fault for each key of an object in a value, at any depth, that the object has before (section 5.6.3).
pub fn unique_input_values(value: &Node<Value>, faults: &mut Vec<Fault>) -> Result<(), AllocError>
    ensures { OnOk result (Adds faults.old faults.new (UniqueInputValueIn (value_tree (content value.now)))) }
{
    tell_key_faults(value, faults)
}
