//! Documents, from texts (section 2.2).
ghost use Rattle.std.specs.Prelude.{◌≡◌, IfOk, IfErr, [], ◌∷◌, map};
ghost use Rattle.std.specs.Rc.{rc_str_bytes};
ghost use Rattle.read_types.specs.in_definitions.DefinitionTree.{document_tree};
ghost use Rattle.read_types.specs.in_definitions.Sources.{source_of, numbered_source, sources_of};
ghost use Rattle.read_grammar.specs.DocumentReading as reading;
ghost use Rattle.read_grammar.specs.Grammar.{Derives};
ghost use Rattle.read_grammar.specs.Reading as read;
ghost use Rattle.read_types.specs.in_read_operations.Meanings.{in_file};
ghost use Rattle.graphql_read.specs.Calls.{all_of};
ghost use Rattle.graphql_read.specs.ReadFaults.{fault_view, definitions_tree, unnamed_source, IsEachTreeUnlessMemory, LiesIn, KeepsToBound};
ghost use Rattle.graphql_read.specs.Reads.{ReadsWithin, IsDue};
ghost use Rattle.graphql_read.specs.Sound.{IsSound};

use crate::document_list::definitions;
use crate::fault::ReadFault;
use crate::finish::{end_of_text, fault};
use graphql_names::FileId;
use indexmap::IndexMap;
use read_tokens::TokenCursor;
use read_types::{Definition, Document, ParseError, SourceFile};
use std::alloc::{AllocError, Global};
use std::rc::RcStr;

/// Document, and nothing after it.
#[tactic(auto, unfolding(read_grammar::specs::DocumentReading::document))]
fn whole_document(
    alloc: Global,
    tokens: &mut TokenCursor<'_>,
    file: FileId,
    nesting: usize,
) -> Result<Vec<Definition>, ParseError>
    ensures { read.Reads definitions_tree (all_of (reading.document (in_file file) nesting) tokens.old) result tokens.new }
{
    let found = definitions(alloc, tokens, file, nesting)?;
    end_of_text(tokens)?;
    Ok(found)
}

/// The definitions that a text is.
fn parse_definitions(
    alloc: Global,
    text: &RcStr,
    file: FileId,
    nesting: usize,
) -> Result<Vec<Definition>, ReadFault>
    ensures found { IfOk result (λ x. ReadsWithin (Derives (in_file file)) nesting (rc_str_bytes text.now) (definitions_tree x)) }
    ensures only { IsEachTreeUnlessMemory definitions_tree (Derives (in_file file)) nesting (rc_str_bytes text.now) result }
    ensures fault { IfErr result (λ e. IsDue (Derives (in_file file)) nesting (rc_str_bytes text.now) (fault_view e)) }
    ensures within { IfErr result (λ e. LiesIn (rc_str_bytes text.now) (fault_view e)) }
    ensures bound { KeepsToBound nesting (rc_str_bytes text.now) result }
{
    let mut tokens = TokenCursor::new(text);
    match whole_document(alloc, &mut tokens, file, nesting) {
        Ok(found) => Ok(found),
        // A `ParseError` has no place of its own: the place is where the cursor has stopped.
        Err(stop) => Err(fault(&tokens, stop)),
    }
}

/// A file without a path, with this text.
fn source_file(alloc: Global, text: RcStr) -> SourceFile
    ensures { source_of result ≡ unnamed_source (rc_str_bytes text) }
{
    SourceFile {
        path: String::new(alloc),
        text,
    }
}

/// The text under the number of its file.
fn sources(
    alloc: Global,
    text: RcStr,
    file: FileId,
) -> Result<IndexMap<FileId, SourceFile>, AllocError>
    ensures { IfOk result (λ m. map numbered_source m.entries ≡ (file.0, unnamed_source (rc_str_bytes text)) ∷ []) }
{
    let mut sources = IndexMap::new(alloc);
    sources.insert(file, source_file(alloc, text))?;
    Ok(sources)
}

/// The document that is written in a text, with at most `nesting` brackets open at once. Its sources hold a copy of the
/// text, without a path. Its names are parts of that copy.
pub fn parse_document(
    alloc: Global,
    text: &str,
    file: FileId,
    nesting: usize,
) -> Result<Document, ReadFault>
    ensures found { IfOk result (λ d. ReadsWithin (Derives (in_file file)) nesting text.now (document_tree d)) }
    ensures sound { IfOk result (λ d. IsSound file.0 (document_tree d)) }
    ensures sources { IfOk result (λ d. sources_of d ≡ (file.0, unnamed_source text.now) ∷ []) }
    ensures only { IsEachTreeUnlessMemory document_tree (Derives (in_file file)) nesting text.now result }
    ensures fault { IfErr result (λ e. IsDue (Derives (in_file file)) nesting text.now (fault_view e)) }
    ensures within { IfErr result (λ e. LiesIn text.now (fault_view e)) }
    ensures bound { KeepsToBound nesting text.now result }
{
    let shared = RcStr::from_str(alloc, text)?;
    parse_shared_document(alloc, &shared, file, nesting)
}

/// The document that is written in a text that is shared, as by [`parse_document`]. The text is not copied: the sources share
/// it, and names are parts of it.
pub fn parse_shared_document(
    alloc: Global,
    text: &RcStr,
    file: FileId,
    nesting: usize,
) -> Result<Document, ReadFault>
    ensures found { IfOk result (λ d. ReadsWithin (Derives (in_file file)) nesting (rc_str_bytes text.now) (document_tree d)) }
    ensures sound { IfOk result (λ d. IsSound file.0 (document_tree d)) }
    ensures sources { IfOk result (λ d. sources_of d ≡ (file.0, unnamed_source (rc_str_bytes text.now)) ∷ []) }
    ensures only { IsEachTreeUnlessMemory document_tree (Derives (in_file file)) nesting (rc_str_bytes text.now) result }
    ensures fault { IfErr result (λ e. IsDue (Derives (in_file file)) nesting (rc_str_bytes text.now) (fault_view e)) }
    ensures within { IfErr result (λ e. LiesIn (rc_str_bytes text.now) (fault_view e)) }
    ensures bound { KeepsToBound nesting (rc_str_bytes text.now) result }
{
    let definitions = parse_definitions(alloc, text, file, nesting)?;
    let shared = text.clone()?;
    let sources = sources(alloc, shared, file)?;
    Ok(Document {
        sources,
        definitions,
    })
}
