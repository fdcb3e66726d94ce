//! Whole documents.
ghost use Rattle.std.specs.Prelude.{◌≡◌, []};
ghost use Rattle.tree_definitions.specs.DefinitionTree.{document_tree};
ghost use Rattle.tree_definitions.specs.Sources.{source_of, sources_of};

use crate::definition::Definition;
use indexmap::IndexMap;
use spec_tree::FileId;
use std::alloc::{AllocError, Global};
use std::rc::RcStr;

/// A text that was read, and the path of its file. What is read from the text shares it.
#[derive(PartialEq, Eq, Hash)]
pub struct SourceFile {
    pub path: String,
    pub text: RcStr,
}

impl Drop for SourceFile {
    fn drop(self) {
        let SourceFile { path: _, text: _ } = self;
    }
}

/// What was read from texts: its definitions in order (section 2.2), and the texts by the numbers of their
/// files. Equality and hash read the definitions alone.
#[derive_where(PartialEq, Eq, Hash)]
pub struct Document {
    #[derive_where(skip)]
    pub sources: IndexMap<FileId, SourceFile>,
    pub definitions: Vec<Definition>,
}

// Not derived: a derived drop is proved again in every crate that uses it.
impl Drop for Document {
    fn drop(self) {
        let Document {
            sources: _,
            definitions: _,
        } = self;
    }
}

impl Document {
    /// A document of no sources and no definitions. It takes no memory.
    pub fn new(alloc: Global) -> Document
        ensures sources { result.sources.entries ≡ [] }
        ensures definitions { result.definitions.items ≡ [] }
    {
        Document {
            sources: IndexMap::new(alloc),
            definitions: Vec::new(alloc),
        }
    }
}

/// The same text, which is not copied, and a copy of its path.
impl Clone for SourceFile {
    ghost is_clone = { λ f copy. source_of copy ≡ source_of f };

    fn clone(&self) -> Result<SourceFile, AllocError> {
        Ok(SourceFile {
            path: self.path.clone()?,
            text: self.text.clone()?,
        })
    }
}

impl Clone for Document {
    ghost is_clone = { λ d copy. (document_tree copy ≡ document_tree d) × (sources_of copy ≡ sources_of d) };

    fn clone(&self) -> Result<Document, AllocError> {
        Ok(Document {
            sources: self.sources.clone()?,
            definitions: self.definitions.clone()?,
        })
    }
}
