//! Uses in arguments that are given.
ghost use Rattle.std.specs.Prelude.{OnOk};
ghost use Rattle.graphql_schema.specs.SchemaOf.{schema_tree};
ghost use Rattle.rule_definitions.specs.Judged.{judged};
ghost use Rattle.rule_warnings.specs.Told.{given_uses, directives_uses};
ghost use Rattle.rule_warnings.specs.Telling.{Tells, kind_by, coordinate_by, plain_definitions, applied_directives, given_arguments, argument_uses_of, directive_uses_of};

use crate::deprecated_use::DeprecatedUse;
use crate::lookups::inner_type;
use crate::owner::Owner;
use crate::tell::tell_use;
use crate::values::tell_value;
use graphql_names::Node;
use rule_values::{DefinedArguments, IndexedSchema};
use std::alloc::AllocError;
use tree_directives::{Argument, Directive};

/// Adds the use of an argument, and the uses in its value, by the first of these definitions that has its name.
fn tell_argument(
    schema: &IndexedSchema<'_>,
    owner: Owner<'_>,
    definitions: &DefinedArguments<'_>,
    argument: &Node<Argument>,
    uses: &mut Vec<DeprecatedUse>,
) -> Result<(), AllocError>
    ensures { OnOk result (Tells uses.old uses.new (argument_uses_of (judged (schema_tree schema.now)) owner.entry definitions.now argument.now)) }
{
    let given = argument.content();
    let Some(definition) = definitions.find(&given.name) else {
        return Ok(());
    };
    let defined = definition.content();
    tell_use(owner, &given.name, &defined.directives, uses)?;
    let ty = inner_type(defined);
    tell_value(schema.schema(), ty, given.value.content(), uses)
}

/// Adds the uses of arguments, and those in their values, by these definitions.
pub(crate) fn tell_given(
    schema: &IndexedSchema<'_>,
    owner: Owner<'_>,
    definitions: &DefinedArguments<'_>,
    given: &[Node<Argument>],
    uses: &mut Vec<DeprecatedUse>,
) -> Result<(), AllocError>
    ensures { OnOk result (Tells uses.old uses.new (given_uses (judged (schema_tree schema.now)) (kind_by owner.entry) (coordinate_by owner.entry) (plain_definitions definitions.now) (given_arguments given.now))) }
{
    for argument in given {
        tell_argument(schema, owner, definitions, argument, uses)?;
    }
    Ok(())
}

/// Adds the uses in the arguments of a directive. Of one that is not defined there are none.
fn tell_directive(
    schema: &IndexedSchema<'_>,
    directive: &Node<Directive>,
    uses: &mut Vec<DeprecatedUse>,
) -> Result<(), AllocError>
    ensures { OnOk result (Tells uses.old uses.new (directive_uses_of (judged (schema_tree schema.now)) directive.now)) }
{
    let applied = directive.content();
    match schema.schema().directive_definitions.get(&applied.name) {
        None => Ok(()),
        Some(definition) => {
            let defined = schema.arguments_of_directive(&applied.name, definition);
            let owner = Owner::OfDirectiveArgument(&applied.name);
            tell_given(schema, owner, &defined, applied.arguments.as_slice(), uses)
        }
    }
}

/// Adds the uses in the arguments of directives.
pub(crate) fn tell_directives(
    schema: &IndexedSchema<'_>,
    directives: &[Node<Directive>],
    uses: &mut Vec<DeprecatedUse>,
) -> Result<(), AllocError>
    ensures { OnOk result (Tells uses.old uses.new (directives_uses (judged (schema_tree schema.now)) (applied_directives directives.now))) }
{
    for directive in directives {
        tell_directive(schema, directive, uses)?;
    }
    Ok(())
}
