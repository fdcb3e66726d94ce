//! Tells which definitions lead back to themselves.
ghost use Rattle.std.specs.Prelude.{OnOk};
ghost use Rattle.graphql_schema.specs.SchemaOf.{schema_tree};
ghost use Rattle.schema_types.specs.Distinct.{AreAllDistinct};
ghost use Rattle.fault_data.specs.FaultView.{faults_of};
ghost use Rattle.rule_cycles.specs.SchemaCycles.{CyclesTold};

use crate::check_directives::check_directive_cycles;
use crate::check_inputs::check_input_cycles;
use crate::rule_context::RuleContext;
use fault_data::Fault;
use graphql_schema::Schema;
use std::alloc::{AllocError, Global};

/// Tells each input object and each directive definition that leads back to itself, or that a path from it has more
/// than 32 directives or types; nothing else. It fails only where memory is refused; then some may be told.
pub fn check_cycles(
    alloc: Global,
    schema: &Schema,
    faults: &mut Vec<Fault>,
) -> Result<(), AllocError>
    requires { AreAllDistinct (schema_tree schema.now) }
    ensures { OnOk result (CyclesTold (schema_tree schema.now) (faults_of faults.old) (faults_of faults.new)) }
{
    let judging = RuleContext { alloc, schema };
    check_input_cycles(&judging, faults)?;
    check_directive_cycles(&judging, faults)
}
