//! The checker of schema texts.

ghost use Rattle.std.specs.Prelude.{◌≡◌, ◌++◌, ◌∷◌, [], true, false, OnOk, IfOk, IfErr};
ghost use Rattle.std.specs.Rc.{rc_str_bytes};
ghost use Rattle.book_validity.specs.in_verdict_definitions.Judge.{AreSchemasCertain};
ghost use Rattle.graphql_checked.specs.CheckedView.{schema_value};
ghost use Rattle.checker_schemas.specs.CheckedSchemaValue.{IsCheckedSchemaOf};
ghost use Rattle.graphql_checked.specs.CheckerAnswers.{IsCheckerAddRefusal, IsFinishRefusal};
ghost use Rattle.checker_calls.specs.declared.refusal.Refusal.TheVariants.{Memory};

use crate::checked_schema::CheckedSchema;
use checker_calls::{Refusal, SchemaTexts};
use checker_schemas::schema_of_texts;
use graphql_names::Files;
use graphql_validation::{PossibleTypes, SchemaInputs};
use schema_components::Extensions;
use std::alloc::{AllocError, Global};
use std::marker::Model;
use std::rc::RcStr;

/// Limits on texts.
#[derive(Clone, Copy, Debug, PartialEq, Eq)]
pub struct Limits {
    /// How many brackets may be open at once.
    pub nesting: usize,
}

/// Takes schema texts one by one, and gives the schema of them all if every rule holds of it.
///
/// Texts are numbered in the order in which they are added, from 1 if not said otherwise.
#[derive(Drop)]
pub struct Checker {
    texts: SchemaTexts,
    failed: bool,
    /// Whether the schema is for one document: then nothing is found for more.
    pub(crate) is_for_one: bool,
}

impl Model for Checker {
    ghost use Rattle.std.specs.Prelude.{◌≡◌, false};
    ghost use Rattle.graphql_checked.specs.CheckerValue.{CheckerValue};
    ghost use Rattle.checker_calls.specs.TextsView.{terms_of, texts_of, IsReadingOf};

    ghost Value = { CheckerValue };

    ghost view = { λ c. record { terms = terms_of c.texts; texts = texts_of c.texts; failed = c.failed } };

    ghost invariant = { λ c. c.failed ≡ false → IsReadingOf (texts_of c.texts) c.texts };
}

impl Checker {
    /// A checker of no texts, which numbers them from 1. It takes no memory.
    pub fn new(alloc: Global, limits: Limits) -> Checker
        ensures { result ≡ record { terms = record { nesting = limits.nesting; first_text = 1; first_extension = 1 }; texts = []; failed = false } }
    {
        Checker::with_numbers(alloc, limits, Files::new(), Extensions::new())
    }

    /// A checker of no texts, which takes the numbers of texts and of extensions from these. It takes no memory.
    pub fn with_numbers(
        alloc: Global,
        limits: Limits,
        files: Files,
        extensions: Extensions,
    ) -> Checker
        ensures { result ≡ record { terms = record { nesting = limits.nesting; first_text = files; first_extension = extensions }; texts = []; failed = false } }
    {
        Checker {
            texts: SchemaTexts::new(alloc, limits.nesting, files, extensions),
            failed: false,
            is_for_one: false,
        }
    }

    /// Adds a schema text after the others.
    ///
    /// If memory runs out it answers [`Refusal::Memory`], and from then on [`Refusal::Failed`]. It gives no other refusal:
    /// what is wrong with the text is told by [`Checker::finish`].
    pub fn add_schema(&mut self, text: &str) -> Result<(), Refusal>
        ensures running { OnOk result (self.old.failed ≡ false) }
        ensures added { OnOk result (self.new ≡ record self.old { texts = self.old.texts ++ text.now ∷ [] }) }
        ensures refused { IfErr result (IsCheckerAddRefusal self.old self.new) }
    {
        if self.failed {
            return Err(Refusal::Failed);
        }
        match self.texts.add(text) {
            Ok(()) => Ok(()),
            Err(_) => Err(stop(&mut self.failed)),
        }
    }

    /// Adds a schema text that is shared, and not copied, as by [`Checker::add_schema`].
    pub(crate) fn add_shared(&mut self, text: &RcStr) -> Result<(), Refusal>
        ensures running { OnOk result (self.old.failed ≡ false) }
        ensures added { OnOk result (self.new ≡ record self.old { texts = self.old.texts ++ rc_str_bytes text.now ∷ [] }) }
        ensures refused { IfErr result (IsCheckerAddRefusal self.old self.new) }
    {
        if self.failed {
            return Err(Refusal::Failed);
        }
        match self.texts.add_shared(text) {
            Ok(()) => Ok(()),
            Err(AllocError) => Err(stop(&mut self.failed)),
        }
    }

    /// The schema of the texts, if they are accepted: they are read, every rule holds of them, and no bound
    /// is passed.
    ///
    /// Otherwise it tells what is wrong: if texts are not read, only a fault for each of them; else each folding rule that
    /// is broken; if none is, the first 1,000 breaches of rules on schemas.
    pub fn finish(self) -> Result<CheckedSchema, Refusal>
        ensures schema { IfOk result (λ s. IsCheckedSchemaOf self.terms self.texts (schema_value s)) }
        ensures running { OnOk result (self.failed ≡ false) }
        ensures refused { IfErr result (IsFinishRefusal self) }
        ensures complete { IfErr result (λ refusal.
            self.failed ≡ false → AreSchemasCertain self.terms self.texts → refusal ≡ Memory) }
    {
        if self.failed {
            return Err(Refusal::Failed);
        }
        let alloc = self.texts.alloc;
        let is_for_one = self.is_for_one;
        match schema_of_texts(self.texts) {
            Ok(judged) => {
                let possible = if is_for_one {
                    None
                } else {
                    Some(PossibleTypes::new(alloc, &judged.schema)?)
                };
                let (types, directives) = (
                    &judged.schema.types,
                    &judged.schema.directive_definitions,
                );
                let inputs = SchemaInputs::new(alloc, types, directives)?;
                Ok(CheckedSchema {
                    alloc,
                    nesting: judged.nesting,
                    number: judged.number,
                    written: judged.written,
                    schema: judged.schema,
                    possible,
                    inputs,
                })
            }
            Err(refusal) => Err(refusal),
        }
    }
}

/// Notes that a checker has failed, as memory ran out: what it has read may no longer be that of the texts.
// It takes the flag and not the checker, of whose texts nothing is known here.
fn stop(failed: &mut bool) -> Refusal
    ensures failed { failed.new ≡ true }
    ensures refusal { result ≡ Memory }
{
    *failed = true;
    Refusal::Memory
}
