//! Rules that the checker does not ask of a schema.
ghost use Rattle.std.specs.Prelude.{OnOk};
ghost use Rattle.graphql_schema.specs.SchemaOf.{schema_tree};
ghost use Rattle.fault_data.specs.Adds.{Adds};
ghost use Rattle.strict_schemas.specs.Faults.{StrictBreaks};

use crate::defaults::check_defaults;
use crate::scalars::check_scalars;
use rule_values::{Fault, IndexedSchema};
use std::alloc::AllocError;

/// Adds the faults by which defaults of arguments and input fields repeat a key or do not fit their types, as later editions ask
/// (sections 3.6.1 and 3.10), and by which the directives of built-in scalars break rules on uses (section 5.7), as far as there is room.
pub fn default_faults(schema: &IndexedSchema<'_>, faults: &mut Vec<Fault>) -> Result<(), AllocError>
    ensures { OnOk result (Adds faults.old faults.new (StrictBreaks (schema_tree schema.now))) }
{
    check_defaults(schema, faults)?;
    check_scalars(schema, faults)
}
