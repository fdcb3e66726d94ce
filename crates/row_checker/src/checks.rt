//! How the checker answers.

use crate::answers::{push_around, schema_of};
use crate::library::Library;
use graphql_checked::{CheckError, Limits, Outcome, RunFault, Verdict, check_texts, run};
use graphql_names::{Cut, Device};
use row_texts::{Asked, Checks, Texts, Told};

impl Checks for Library {
    fn check_texts(&self, texts: Texts<'_>) -> Result<Verdict, CheckError> {
        let limits = Limits {
            nesting: texts.asked.nesting,
        };
        check_texts(self.alloc, texts.schemas, texts.document, limits)
    }

    fn judge(&self, texts: Texts<'_>, told: &mut Told) {
        match schema_of(self.alloc, texts.schemas, texts.asked) {
            Ok(schema) => push_around(&schema, texts, told),
            Err(refusal) => told.refuse(&refusal),
        }
    }

    fn run(
        &self,
        schemas: &mut [Device<Cut<&[u8]>>],
        document: &mut Device<Cut<&[u8]>>,
        asked: Asked,
        out: &mut Device<Cut<&mut Vec<u8>>>,
    ) -> Result<Outcome, RunFault> {
        let limits = Limits {
            nesting: asked.nesting,
        };
        run(self.alloc, schemas, document, limits, asked.layout, out)
    }
}
