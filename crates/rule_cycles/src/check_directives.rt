//! Tells which directives reach themselves.
ghost use Rattle.std.specs.Prelude.{OnOk};
ghost use Rattle.schema_types.specs.Distinct.{AreAllDistinct};
ghost use Rattle.fault_data.specs.FaultView.{faults_of};
ghost use Rattle.rule_cycles.specs.Trees.{schema_of};
ghost use Rattle.rule_cycles.specs.SchemaCycles.{DirectivesTold};

use crate::directive_faults::{deeply_nested_directive, recursive_directive_definition};
use crate::flat::is_flat;
use crate::rule_context::RuleContext;
use crate::uses::references_of_definitions;
use fault_data::Fault;
use rule_cycle_search::{Found, find_cycles};
use std::alloc::AllocError;

/// Tells each directive that leads back to itself by the directives on it and its arguments and by the types of these
/// (section 3.13), or that a path from it is too long.
pub(crate) fn check_directive_cycles(
    judging: &RuleContext<'_>,
    faults: &mut Vec<Fault>,
) -> Result<(), AllocError>
    requires { AreAllDistinct (schema_of judging.now) }
    ensures { OnOk result (DirectivesTold (schema_of judging.now) (faults_of faults.old) (faults_of faults.new)) }
{
    // A graph of all types would be made for nothing.
    let flat = is_flat(judging.alloc, judging.schema)?;
    if flat {
        return Ok(());
    }
    let references = references_of_definitions(judging.alloc, judging.schema)?;
    let all = find_cycles(judging.alloc, &references.graph)?;
    for (root, found) in all.iter().enumerate() {
        match found {
            Found::Nothing => {}
            Found::Cycle(path) => {
                recursive_directive_definition(judging, &references, root, path, faults)?;
            }
            Found::Deep => deeply_nested_directive(judging, root, faults)?,
        }
    }
    Ok(())
}
