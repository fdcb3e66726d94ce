//! Uses in a whole document.
ghost use Rattle.std.specs.Prelude.{flat_map, IfOk, OnOk};
ghost use Rattle.graphql_schema.specs.SchemaOf.{schema_tree};
ghost use Rattle.document_typed_operations.specs.DocumentView.{document_meant};
ghost use Rattle.tree_operations.specs.OperationTree.{variable_definition_tree};
ghost use Rattle.rule_definitions.specs.Judged.{judged};
ghost use Rattle.rule_document_definitions.specs.Selected.{operations};
ghost use Rattle.rule_warnings.specs.Told.{default_uses, variables_uses, operation_uses, document_uses};
ghost use Rattle.rule_warnings.specs.Views.{TellsDeprecatedUses};
ghost use Rattle.rule_warnings.specs.Telling.{Tells, variable_uses_of, defined_variables};
ghost use Rattle.rule_warnings.specs.TellingDocuments.{operation_uses_of, fragment_uses_of, fragments_uses_of};

use crate::arguments::tell_directives;
use crate::deprecated_use::DeprecatedUse;
use crate::selections::tell_set;
use crate::values::tell_value;
use document_typed_operations::{ExecutableDocument, Fragment, FragmentMap, Operation};
use graphql_names::Node;
use rule_values::IndexedSchema;
use std::alloc::{AllocError, Global};
use tree_operations::VariableDefinition;

/// Adds the uses in the default value of a variable, if it has one.
fn tell_default(
    schema: &IndexedSchema<'_>,
    variable: &VariableDefinition,
    uses: &mut Vec<DeprecatedUse>,
) -> Result<(), AllocError>
    ensures { OnOk result (Tells uses.old uses.new (default_uses (judged (schema_tree schema.now)) (variable_definition_tree variable.now))) }
{
    match &variable.default_value {
        None => Ok(()),
        Some(value) => {
            let ty = variable.ty.content().inner_named_type();
            tell_value(schema.schema(), ty, value.content(), uses)
        }
    }
}

/// Adds the uses in the default value of a variable, and in its directives.
fn tell_variable(
    schema: &IndexedSchema<'_>,
    variable: &Node<VariableDefinition>,
    uses: &mut Vec<DeprecatedUse>,
) -> Result<(), AllocError>
    ensures { OnOk result (Tells uses.old uses.new (variable_uses_of (judged (schema_tree schema.now)) variable.now)) }
{
    let own = variable.content();
    tell_default(schema, own, uses)?;
    tell_directives(schema, own.directives.0.as_slice(), uses)
}

/// Adds the uses in the definitions of variables.
fn tell_variables(
    schema: &IndexedSchema<'_>,
    variables: &[Node<VariableDefinition>],
    uses: &mut Vec<DeprecatedUse>,
) -> Result<(), AllocError>
    ensures { OnOk result (Tells uses.old uses.new (variables_uses (judged (schema_tree schema.now)) (defined_variables variables.now))) }
{
    for variable in variables {
        tell_variable(schema, variable, uses)?;
    }
    Ok(())
}

/// Adds the uses in an operation.
fn tell_operation(
    schema: &IndexedSchema<'_>,
    operation: &Node<Operation>,
    uses: &mut Vec<DeprecatedUse>,
) -> Result<(), AllocError>
    ensures { OnOk result (Tells uses.old uses.new (operation_uses_of (schema_tree schema.now) operation.now)) }
{
    let own = operation.content();
    tell_variables(schema, own.variables.as_slice(), uses)?;
    tell_directives(schema, own.directives.0.as_slice(), uses)?;
    tell_set(schema, &own.selection_set, uses)
}

/// Adds the uses in each operation.
fn tell_operations(
    schema: &IndexedSchema<'_>,
    document: &ExecutableDocument,
    uses: &mut Vec<DeprecatedUse>,
) -> Result<(), AllocError>
    ensures { OnOk result (Tells uses.old uses.new (flat_map (operation_uses (schema_tree schema.now)) (operations (document_meant document.now)))) }
{
    for operation in document.operations.iter() {
        tell_operation(schema, operation, uses)?;
    }
    Ok(())
}

/// Adds the uses in a fragment.
fn tell_fragment(
    schema: &IndexedSchema<'_>,
    fragment: &Node<Fragment>,
    uses: &mut Vec<DeprecatedUse>,
) -> Result<(), AllocError>
    ensures { OnOk result (Tells uses.old uses.new (fragment_uses_of (schema_tree schema.now) fragment.now)) }
{
    let own = fragment.content();
    tell_directives(schema, own.directives.0.as_slice(), uses)?;
    tell_set(schema, &own.selection_set, uses)
}

/// Adds the uses in each fragment.
#[tactic(auto, using(crate::proofs::Steps::room_steps))]
fn tell_fragments(
    schema: &IndexedSchema<'_>,
    fragments: &FragmentMap,
    uses: &mut Vec<DeprecatedUse>,
) -> Result<(), AllocError>
    ensures { OnOk result (Tells uses.old uses.new (fragments_uses_of (schema_tree schema.now) fragments.now)) }
{
    for (_, fragment) in fragments {
        tell_fragment(schema, fragment, uses)?;
    }
    Ok(())
}

/// Adds the uses in a document.
fn tell_document(
    schema: &IndexedSchema<'_>,
    document: &ExecutableDocument,
    uses: &mut Vec<DeprecatedUse>,
) -> Result<(), AllocError>
    ensures { OnOk result (Tells uses.old uses.new (document_uses (schema_tree schema.now) (document_meant document.now))) }
{
    tell_operations(schema, document, uses)?;
    tell_fragments(schema, &document.fragments, uses)
}

/// The uses of what is deprecated in a document under a schema, at most 1,000 of them: those in operations, and then those in
/// fragments, whether or not one is spread, each once, in the order of the text. Fails if memory is refused.
pub fn deprecated_uses(
    alloc: Global,
    schema: &IndexedSchema<'_>,
    document: &ExecutableDocument,
) -> Result<Vec<DeprecatedUse>, AllocError>
    ensures { IfOk result (λ uses. TellsDeprecatedUses (schema_tree schema.now) (document_meant document.now) uses) }
{
    let mut uses = Vec::new(alloc);
    tell_document(schema, document, &mut uses)?;
    Ok(uses)
}
