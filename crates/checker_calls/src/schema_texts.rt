//! The schema texts that a checker was given, and what reading them gave.

ghost use Rattle.std.specs.Prelude.{◌≡◌, ◌≢◌, ◌++◌, ◌∷◌, [], ℕ, List, OnOk, OnErr};
ghost use Rattle.std.specs.Rc.{rc_str_bytes};
ghost use Rattle.tree_definitions.specs.DefinitionTree.{document_tree};
ghost use Rattle.tree_definitions.specs.Sources.{sources_of};
ghost use Rattle.verdict_definitions.specs.in_read.Reads.{NestingBound};
ghost use Rattle.verdict_definitions.specs.in_read.ReadFaults.{unnamed_source};
ghost use Rattle.verdict_definitions.specs.in_faults.DetailsView.{diagnostics_of};
ghost use Rattle.verdict_definitions.specs.Texts.{ReadsText};
ghost use Rattle.checker_calls.specs.Added.{IsToldAfter};
ghost use Rattle.checker_calls.specs.TextsView.{terms_of, texts_of, IsReadingOf, IsBefore};

use crate::reading::{Unread, read};
use graphql_names::{FileId, Files, Spent};
use schema_components::Extensions;
use std::alloc::{AllocError, Global};
use std::rc::RcStr;
use tree_definitions::Document;
use verdict_definitions::{Details, DiagnosticList};

/// Schema texts in order, and what reading them gave.
#[derive(Drop)]
pub struct SchemaTexts {
    pub alloc: Global,
    /// How many brackets may be open at once.
    pub nesting: usize,
    /// The number of the first text.
    pub first: u64,
    /// The number of the next text.
    pub files: Files,
    /// The numbers of extensions, none of which is given yet.
    pub extensions: Extensions,
    /// The texts. A document shares its text.
    pub texts: Vec<RcStr>,
    /// The document of each text, in order, as long as each is read.
    pub documents: Vec<Document>,
    /// A fault of each text that is not read.
    pub unread: DiagnosticList,
}

impl SchemaTexts {
    /// No texts; they and their extensions are counted from these numbers on.
    pub fn new(alloc: Global, nesting: usize, files: Files, extensions: Extensions) -> SchemaTexts
        ensures terms { terms_of result ≡ record { nesting = nesting; first_text = files; first_extension = extensions } }
        ensures texts { texts_of result ≡ [] }
        ensures reading { IsReadingOf [] result }
    {
        // Asking takes the number, so the count begins at it again.
        let first = next_number(files);
        SchemaTexts {
            alloc,
            nesting,
            first,
            files: Files::starting_at(first),
            extensions,
            texts: Vec::new(alloc),
            documents: Vec::new(alloc),
            unread: DiagnosticList::new(alloc),
        }
    }

    /// Adds a text after the others. After an error terms and texts are unchanged, but what was read may not be.
    pub fn add(&mut self, text: &str) -> Result<(), AllocError>
        requires { IsReadingOf (texts_of self.old) self.old }
        ensures terms { terms_of self.new ≡ terms_of self.old }
        ensures texts { OnOk result (texts_of self.new ≡ texts_of self.old ++ text.now ∷ []) }
        ensures kept { OnErr result (texts_of self.new ≡ texts_of self.old) }
        ensures reading { OnOk result (IsReadingOf (texts_of self.new) self.new) }
    {
        let shared = RcStr::from_str(self.alloc, text)?;
        self.add_shared(&shared)
    }

    /// Adds a text that is shared, and not copied, as by [`SchemaTexts::add`].
    pub fn add_shared(&mut self, text: &RcStr) -> Result<(), AllocError>
        requires { IsReadingOf (texts_of self.old) self.old }
        ensures terms { terms_of self.new ≡ terms_of self.old }
        ensures texts { OnOk result (texts_of self.new ≡ texts_of self.old ++ rc_str_bytes text.now ∷ []) }
        ensures kept { OnErr result (texts_of self.new ≡ texts_of self.old) }
        ensures reading { OnOk result (IsReadingOf (texts_of self.new) self.new) }
    {
        let shared = text.clone()?;
        self.read_next(text)?;
        self.texts.push(shared)?;
        Ok(())
    }

    /// Reads the text that comes next, if a number is left for it.
    fn read_next(&mut self, text: &RcStr) -> Result<(), AllocError>
        requires { IsReadingOf (texts_of self.old) self.old }
        ensures terms { terms_of self.new ≡ terms_of self.old }
        ensures texts { self.new.texts ≡ self.old.texts }
        ensures reading { OnOk result (IsReadingOf (texts_of self.old ++ rc_str_bytes text.now ∷ []) self.new) }
    {
        match self.files.next() {
            Ok(file) => self.read_numbered(text, file),
            Err(Spent) => self.unread.push(None, Details::Spent),
        }
    }

    /// Reads the text with this number.
    fn read_numbered(&mut self, text: &RcStr, file: FileId) -> Result<(), AllocError>
        requires { IsBefore (texts_of self.old) file self.old }
        ensures terms { terms_of self.new ≡ terms_of self.old }
        ensures texts { self.new.texts ≡ self.old.texts }
        ensures reading { OnOk result (IsReadingOf (texts_of self.old ++ rc_str_bytes text.now ∷ []) self.new) }
    {
        match read(self.alloc, text, file, self.nesting) {
            Ok(document) => self.keep(document, file),
            Err(unread) => tell(&mut self.unread, unread),
        }
    }

    /// Keeps the document of the text with this number, as long as each text is read.
    fn keep(&mut self, document: Document, file: FileId) -> Result<(), AllocError>
        requires { IsBefore (texts_of self.old) file self.old }
        ensures terms { terms_of self.new ≡ terms_of self.old }
        ensures texts { self.new.texts ≡ self.old.texts }
        ensures reading { OnOk result ((text : List ℕ) → ReadsText file.0 text (document_tree document) → (NestingBound self.old.nesting text → ⊥)
            → sources_of document ≡ (file.0, unnamed_source text) ∷ [] → IsReadingOf (texts_of self.old ++ text ∷ []) self.new) }
    {
        // The texts are refused by now: only faults are of use.
        if !self.unread.is_empty() {
            return Ok(());
        }
        self.documents.push(document)?;
        Ok(())
    }
}

/// Tells why a text is not read, after the faults of the list.
fn tell(list: &mut DiagnosticList, unread: Unread) -> Result<(), AllocError>
    ensures { OnOk result (IsToldAfter unread (diagnostics_of list.old) (diagnostics_of list.new)) }
{
    match unread {
        Unread::Fault { place, details } => list.push(Some(place), details),
        Unread::Memory => Err(AllocError),
    }
}

/// The number that comes next; the greatest of 64 bits is given to no text.
pub fn next_number(mut files: Files) -> u64
    ensures is { result ≡ files }
    ensures some { result ≢ 0 }
{
    match files.next() {
        Ok(file) => file.0,
        Err(Spent) => u64::MAX,
    }
}
