//! Rules on values.
ghost use Rattle.std.specs.Prelude.{◌≡◌, ◌↔◌, OnOk, OnErr};
ghost use Rattle.rule_cycles.specs.in_schema.SchemaOf.{schema_tree};
ghost use Rattle.graphql_faults.specs.DetailsView.{diagnostics_of, BeginsAs};
ghost use Rattle.graphql_rules.specs.ValueTold.{ValueTold, TypeAccepts};

use graphql_faults::DiagnosticList;
use graphql_names::Node;
use rule_arguments::{DefinedVariables, IndexedSchema, check_value};
use rule_cycles::Schema;
use std::alloc::{AllocError, Global};
use tree_literals::{Type, Value};
use tree_operations::VariableDefinition;

/// Tells the faults of a value that is given for a type (section 5.6), and each variable in it, at any depth, that is
/// none of `variables` (section 5.8.3), the first 1,000 of these. It tells nothing exactly when the type accepts the value.
/// After a refusal the list begins as before.
pub fn value_of_correct_type(
    alloc: Global,
    list: &mut DiagnosticList,
    schema: &Schema,
    ty: &Node<Type>,
    value: &Node<Value>,
    variables: &[Node<VariableDefinition>],
) -> Result<(), AllocError>
    ensures told { OnOk result (ValueTold (schema_tree schema.now) variables.now ty.now value.now (diagnostics_of list.old) (diagnostics_of list.new)) }
    ensures silent { OnOk result ((diagnostics_of list.new ≡ diagnostics_of list.old) ↔ TypeAccepts (schema_tree schema.now) variables.now ty.now value.now) }
    ensures begins { OnErr result (BeginsAs (diagnostics_of list.old) (diagnostics_of list.new)) }
{
    let mut faults = Vec::new(alloc);
    let variables = DefinedVariables::new(alloc, variables)?;
    let schema = IndexedSchema::plain(schema);
    check_value(&schema, ty, value, &variables, &mut faults)?;
    list.append_faults(faults)
}
