//! Tells which input objects lead back to themselves.
ghost use Rattle.std.specs.Prelude.{OnOk};
ghost use Rattle.schema_types.specs.Distinct.{AreAllDistinct};
ghost use Rattle.fault_data.specs.FaultView.{faults_of};
ghost use Rattle.rule_cycles.specs.Trees.{schema_of};
ghost use Rattle.rule_cycles.specs.SchemaCycles.{InputsTold};

use crate::input_faults::{deeply_nested_input_object, recursive_input_object_definition};
use crate::inputs::references_of_types;
use crate::rule_context::RuleContext;
use fault_data::Fault;
use rule_cycle_search::{Found, find_cycles};
use std::alloc::AllocError;

/// Tells each input object that leads back to itself by fields of type `Name!` (section 3.10), or that a path from
/// it is too long.
pub(crate) fn check_input_cycles(
    judging: &RuleContext<'_>,
    faults: &mut Vec<Fault>,
) -> Result<(), AllocError>
    requires { AreAllDistinct (schema_of judging.now) }
    ensures { OnOk result (InputsTold (schema_of judging.now) (faults_of faults.old) (faults_of faults.new)) }
{
    let references = references_of_types(judging.alloc, judging.schema)?;
    let all = find_cycles(judging.alloc, &references.graph)?;
    for (root, found) in all.iter().enumerate() {
        match found {
            Found::Nothing => {}
            Found::Cycle(path) => {
                recursive_input_object_definition(judging, &references, root, path, faults)?;
            }
            Found::Deep => deeply_nested_input_object(judging, root, faults)?,
        }
    }
    Ok(())
}
