//! What a checker answers to the texts of a row.

use crate::asked::{Asked, Telling, layouts};
use crate::lent::push_lent;
use crate::pair::{Pair, push_pair};
use crate::words::{push_refusal, push_text};
use checker_calls::{Layout, Refusal};
use document_typed_operations::ExecutableDocument;
use row_files::{Answer, Case, Lines, Problem, Tally, Way, compare};
use std::alloc::{AllocError, Global};
use std::mem;

/// What a checker answers to the texts of a row: in words, and for the road back what an accepted pair is written as.
pub struct Told {
    asked: Asked,
    answer: Answer,
    pub(crate) pairs: Vec<Pair>,
}

impl Drop for Told {
    fn drop(self) {
        let Told {
            asked: _,
            answer: _,
            pairs: _,
        } = self;
    }
}

impl Told {
    /// Nothing is answered yet.
    pub(crate) fn new(alloc: Global, asked: Asked) -> Told {
        Told {
            asked,
            answer: Answer {
                status: Lines::new(alloc),
                text: Lines::new(alloc),
                written: Vec::new(alloc),
            },
            pairs: Vec::new(alloc),
        }
    }

    /// Adds the answer of a refusal.
    pub fn refuse(&mut self, refusal: &Refusal) {
        push_refusal(refusal, &mut self.answer);
    }

    /// Ends an answer after which there is another.
    pub fn end(&mut self) {
        self.answer.status.put(", ");
    }

    /// Adds that a document is accepted, or what it lends. For the road back only its texts are told.
    pub fn accept(&mut self, document: &ExecutableDocument) {
        match self.asked.telling {
            Telling::Texts => self.answer.show("0", &"accepted\n"),
            Telling::Lent => push_lent(document, &mut self.answer),
            Telling::Pairs => {}
        }
    }

    /// Whether an accepted pair is to be written under the layout of this name.
    pub fn wants(&self, name: &str) -> bool {
        match self.asked.telling {
            Telling::Texts => self.asked.name == name,
            Telling::Lent => false,
            Telling::Pairs => true,
        }
    }

    /// Adds what a schema and a document are written as under a layout.
    pub fn write(
        &mut self,
        name: &'static str,
        layout: Layout<'_>,
        schema: Result<String, AllocError>,
        document: Result<String, AllocError>,
    ) {
        if let Telling::Pairs = self.asked.telling {
            if push_pair(name, schema, document, &mut self.pairs).is_err() {
                self.answer.status.put("4 out of memory");
            }
        } else {
            push_text(schema, layout, &mut self.answer);
            push_text(document, layout, &mut self.answer);
        }
    }

    /// Whether a pair is written under each layout.
    pub(crate) fn is_written(&self) -> bool {
        self.pairs.len() == layouts().len()
    }

    /// Compares the answer in words with what the row wants.
    pub(crate) fn compare(
        &mut self,
        case: Case<'_>,
        way: Way<'_>,
        tally: &mut Tally,
    ) -> Result<(), Problem> {
        mem::swap(&mut tally.answer, &mut self.answer);
        compare(case, way, tally)
    }
}
