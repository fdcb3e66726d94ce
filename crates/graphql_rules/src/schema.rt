//! Every rule on a schema.
ghost use Rattle.std.specs.Prelude.{◌≡◌, List, take, IfOk, OnOk, OnErr};
ghost use Rattle.rule_cycles.specs.in_schema.SchemaOf.{schema_tree};
ghost use Rattle.fault_data.specs.FaultView.{faults_of};
ghost use Rattle.rule_definitions.specs.Room.{most_told};
ghost use Rattle.rule_definitions.specs.Distinct.{AreAllDistinct};
ghost use Rattle.rule_definitions.specs.Judged.{judged};
ghost use Rattle.rule_definitions.specs.Kept.{validated};
ghost use Rattle.rule_definitions.specs.Rules.{SchemaRules};
ghost use Rattle.rule_definitions.specs.PlacedFaults.{PlacedFault};
ghost use Rattle.graphql_faults.specs.DetailsView.{diagnostics_of, BeginsAs};
ghost use Rattle.rule_schema_laws.specs.Implementing.{ImplementsInOrder};
ghost use Rattle.graphql_rules.specs.SchemaTold.{TellsSchema, SchemaTold, ValidSchemaMeansSilence, SilenceGivesLiterals};

use crate::kept::kept_types;
use fault_data::Fault;
use graphql_faults::DiagnosticList;
use rule_arguments::{IndexedSchema, SchemaInputs, check_schema_directives};
use rule_cycles::laws::names_differ;
use rule_cycles::{Schema, check_cycles};
use rule_types::{check_interfaces, check_types};
use std::alloc::{AllocError, Global};

/// Tells the faults of the rules on schemas (sections 3 and 5), the first 1,000 of them. Then it drops from the types each
/// built-in scalar to which no field, argument or input field refers, and adds at the end those of the five that are
/// referred to and missing. The rest of the schema stays. Where memory is refused the schema is as before, and some faults
/// may be told.
///
/// Where nothing is told, implementing is a strict order on interfaces (sections 3.6 and 3.7). And each input type of
/// the schema that is left, non-null ones too, has a literal: a text of a value that may be given for it (sections 2.9,
/// 3.4.2 and 5.6). That needs that the built-in scalars of the schema are among the five, and that no enum value is
/// `true`, `false` or `null`; this holds of what is read under other numbers than
/// [`FileId::BUILT_IN`](graphql_names::FileId::BUILT_IN) (`laws::read_texts_meet_the_premises`).
pub fn validate_schema(
    alloc: Global,
    list: &mut DiagnosticList,
    schema: &mut Schema,
) -> Result<(), AllocError>
    ensures told { OnOk result (SchemaTold (schema_tree schema.old) (diagnostics_of list.old) (diagnostics_of list.new)) }
    ensures silent { OnOk result (diagnostics_of list.new ≡ diagnostics_of list.old → SchemaRules (judged (schema_tree schema.old))) }
    ensures accepts { OnOk result (ValidSchemaMeansSilence (schema_tree schema.old) (diagnostics_of list.old) (diagnostics_of list.new)) }
    ensures kept { OnOk result (schema_tree schema.new ≡ validated (schema_tree schema.old)) }
    ensures was_ordered { OnOk result (diagnostics_of list.new ≡ diagnostics_of list.old → ImplementsInOrder (judged (schema_tree schema.old))) }
    ensures ordered { OnOk result (diagnostics_of list.new ≡ diagnostics_of list.old → ImplementsInOrder (judged (schema_tree schema.new))) }
    ensures literals { OnOk result (SilenceGivesLiterals (schema_tree schema.old) (schema_tree schema.new) (diagnostics_of list.old) (diagnostics_of list.new)) }
    ensures rest { OnOk result (schema.new ≡ record schema.old { types = schema.new.types }) }
    ensures unchanged { OnErr result (schema.new ≡ schema.old) }
    ensures begins { OnErr result (BeginsAs (diagnostics_of list.old) (diagnostics_of list.new)) }
{
    // Called only for its contract: no two things of one kind have the same name, which the rules assume.
    names_differ(schema);
    let faults = schema_faults(alloc, schema)?;
    let types = kept_types(alloc, schema)?;
    list.append_faults(faults)?;
    // Last, as nothing fails after it: a refusal leaves the schema as it was.
    schema.types = types;
    Ok(())
}

/// What breaks the rules on schemas, the first 1,000 of it.
fn schema_faults(alloc: Global, schema: &Schema) -> Result<Vec<Fault>, AllocError>
    requires { AreAllDistinct (schema_tree schema.now) }
    ensures { IfOk result (λ faults. (all : List PlacedFault) × ((faults_of faults ≡ take most_told all) × TellsSchema (schema_tree schema.now) all)) }
{
    let mut faults = Vec::new(alloc);
    let inputs = SchemaInputs::new(alloc, &schema.types, &schema.directive_definitions)?;
    check_types(alloc, schema, &mut faults)?;
    check_interfaces(alloc, schema, &inputs, &mut faults)?;
    check_cycles(alloc, schema, &mut faults)?;
    let indexed = IndexedSchema::new(schema, &inputs);
    check_schema_directives(&indexed, &mut faults)?;
    Ok(faults)
}
