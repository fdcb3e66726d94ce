//! The verdict on whole texts.

ghost use Rattle.std.specs.Prelude.{◌≡◌, ◌⊎◌, Ok, Err, map, IfOk, IfErr};
ghost use Rattle.std.specs.Rc.{rc_str_bytes};
ghost use Rattle.book_validity.specs.in_verdict_definitions.Judge.{AreSchemasCertain, IsCertain};
ghost use Rattle.graphql_checked.specs.CheckedView.{schema_value};
ghost use Rattle.checker_schemas.specs.CheckedSchemaValue.{IsCheckedSchemaOf};
ghost use Rattle.checker_schemas.specs.Refusals.{RefusalOfSchemas};
ghost use Rattle.graphql_checked.specs.Verdicts.{first_terms, IsVerdict};
ghost use Rattle.checker_calls.specs.declared.refusal.Refusal.TheVariants as refusal;
ghost use Rattle.checker_calls.specs.declared.verdict.Verdict.TheVariants.{Accepted};
ghost use Rattle.checker_calls.specs.declared.verdict.CheckError.TheVariants.{Memory};

use crate::checked_schema::CheckedSchema;
use crate::checker::{Checker, Limits};
use checker_calls::{CheckError, Refusal, Verdict, verdict_of};
use std::alloc::Global;
use std::rc::RcStr;

/// Judges schema texts and a document over them. A refused schema leaves the document unread.
pub fn check_texts(
    alloc: Global,
    schemas: &[&str],
    document: &str,
    limits: Limits,
) -> Result<Verdict, CheckError>
    ensures verdict { IfOk result (IsVerdict (first_terms limits.nesting) (map (λ t. t.now) schemas.now) document.now) }
    ensures complete { IsCertain (first_terms limits.nesting) (map (λ t. t.now) schemas.now) document.now
        → (result ≡ Ok Accepted) ⊎ (result ≡ Err Memory) }
{
    let schema = match schema_of(alloc, schemas, limits) {
        Ok(schema) => schema,
        Err(refusal) => return verdict_of(refusal),
    };
    match schema.check(document) {
        Ok(_) => Ok(Verdict::Accepted),
        Err(refusal) => verdict_of(refusal),
    }
}

/// The schema of the texts, if they are accepted, for one document.
fn schema_of(alloc: Global, texts: &[&str], limits: Limits) -> Result<CheckedSchema, Refusal>
    ensures schema { IfOk result (λ s. IsCheckedSchemaOf (first_terms limits.nesting) (map (λ t. t.now) texts.now) (schema_value s)) }
    ensures refused { IfErr result (RefusalOfSchemas (first_terms limits.nesting) (map (λ t. t.now) texts.now)) }
    ensures complete { IfErr result (λ r. AreSchemasCertain (first_terms limits.nesting) (map (λ t. t.now) texts.now) → r ≡ refusal.Memory) }
{
    let mut checker = Checker::new(alloc, limits);
    checker.is_for_one = true;
    for text in texts {
        checker.add_schema(text)?;
    }
    checker.finish()
}

/// The schema of texts that are shared, and not copied, if they are accepted, for one document.
pub(crate) fn schema_of_shared(
    alloc: Global,
    texts: &[RcStr],
    limits: Limits,
) -> Result<CheckedSchema, Refusal>
    ensures schema { IfOk result (λ s. IsCheckedSchemaOf (first_terms limits.nesting) (map rc_str_bytes texts.now) (schema_value s)) }
    ensures refused { IfErr result (RefusalOfSchemas (first_terms limits.nesting) (map rc_str_bytes texts.now)) }
    ensures complete { IfErr result (λ r. AreSchemasCertain (first_terms limits.nesting) (map rc_str_bytes texts.now) → r ≡ refusal.Memory) }
{
    let mut checker = Checker::new(alloc, limits);
    checker.is_for_one = true;
    for text in texts {
        checker.add_shared(text)?;
    }
    checker.finish()
}
