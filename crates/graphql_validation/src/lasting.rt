//! The rules that stay broken whatever is added to a document.
ghost use Rattle.std.specs.Prelude.{OnErr, OnOk};
ghost use Rattle.std.specs.Option.{option_copied};
ghost use Rattle.rule_fragments.specs.in_schema.SchemaOf.{schema_tree};
ghost use Rattle.rule_fragments.specs.in_typed_operations.DocumentView.{document_meant};
ghost use Rattle.rule_merging.specs.in_faults.DetailsView.{diagnostics_of, BeginsAs};
ghost use Rattle.rule_definitions.specs.Judged.{judged};
ghost use Rattle.rule_fragments.specs.Possible.{ArePossibleIfFound};
ghost use Rattle.graphql_validation.specs.TellsLasting.{TypedLastingTold};

use crate::filters::{keep_lasting_breaches, keep_lasting_faults};
use crate::told::{append_told, keep_first};
use crate::under_schema::faults_under;
use document_typed_operations::ExecutableDocument;
use rule_fragments::{PossibleTypes, document_breaches};
use rule_merging::DiagnosticList;
use rule_selections::IndexedSchema;
use std::alloc::{AllocError, Global};

/// Given a document from which something may have been left out, as typing does, tells what is wrong with it whatever that was:
/// what breaks rules under a schema that stay broken whatever is added to the document (section 5, from 5.2.3 on, and the rules
/// on `@defer`). Those are all rules on documents but UnusedVariable, MissingSubselection, UndefinedFragment, UnusedFragment,
/// SubscriptionUsesMultipleFields and those on labels and on merging. They are taken from the faults of all rules, all or 1,000:
/// if there are more, some that last may not be told. `possible` has the possible types of the schema, if they are found
/// already. If memory is refused, the old list is a prefix of the new one.
pub fn tell_lasting_faults(
    alloc: Global,
    list: &mut DiagnosticList,
    schema: &IndexedSchema<'_>,
    possible: Option<&PossibleTypes>,
    document: &ExecutableDocument,
) -> Result<(), AllocError>
    requires { ArePossibleIfFound (judged (schema_tree schema.now)) (option_copied possible) }
    ensures told { OnOk result (TypedLastingTold (schema_tree schema.now) (document_meant document.now) (diagnostics_of list.old) (diagnostics_of list.new)) }
    ensures begins { OnErr result (BeginsAs (diagnostics_of list.old) (diagnostics_of list.new)) }
{
    let mut faults = faults_under(alloc, schema, possible, document)?;
    let mut breaches = document_breaches(alloc, document)?;
    // The bound on how deep selections nest is no rule, so it is not told.
    let _ = keep_first(&mut faults, &mut breaches, false);
    keep_lasting_faults(&mut faults);
    keep_lasting_breaches(&mut breaches);
    append_told(list, faults, breaches, false)
}
