//! One text, read: its document, or why it has none.

ghost use Rattle.std.specs.Prelude.{◌≡◌, ◌<◌, ◌∷◌, [], ℕ, length, IfOk, IfErr, OnOk};
ghost use Rattle.std.specs.Rc.{rc_str_bytes};
ghost use Rattle.tree_definitions.specs.DefinitionTree.{document_tree};
ghost use Rattle.tree_definitions.specs.Sources.{sources_of};
ghost use Rattle.verdict_definitions.specs.in_grammar.Faults as faults;
ghost use Rattle.verdict_definitions.specs.in_read.Reads.{NestingBound};
ghost use Rattle.verdict_definitions.specs.in_read.ReadFaults.{fault_at, fault_view, unnamed_source};
ghost use Rattle.verdict_definitions.specs.in_read.declared.fault.ReadFault.TheVariants.{Nesting};
ghost use Rattle.verdict_definitions.specs.Texts.{ReadsText};
ghost use Rattle.checker_calls.specs.Unread.{IsUnread, TellsUnread};

use graphql_names::{FileId, SourceSpan};
use std::alloc::Global;
use std::rc::RcStr;
use tree_definitions::Document;
use verdict_definitions::{Details, ReadFault, SyntaxFault, parse_shared_document};

/// Why a text has no tree.
#[derive(Drop)]
pub enum Unread {
    /// Memory ran out.
    Memory,
    /// It is no document, or its brackets nest too deep: this is wrong, at this place.
    Fault { place: SourceSpan, details: Details },
}

/// Reads a text with this number, with at most `nesting` brackets open at once. The document shares the text.
pub fn read(alloc: Global, text: &RcStr, file: FileId, nesting: usize) -> Result<Document, Unread>
    ensures tree { IfOk result (λ d. ReadsText file.0 (rc_str_bytes text.now) (document_tree d)) }
    ensures within { OnOk result (NestingBound nesting (rc_str_bytes text.now) → ⊥) }
    ensures sources { IfOk result (λ d. sources_of d ≡ (file.0, unnamed_source (rc_str_bytes text.now)) ∷ []) }
    ensures unread { IfErr result (IsUnread nesting file.0 (rc_str_bytes text.now)) }
{
    match parse_shared_document(alloc, text, file, nesting) {
        Ok(document) => Ok(document),
        Err(fault) => Err(told_of(text, file, fault)),
    }
}

/// The answer for a text for which this fault is due.
fn told_of(text: &RcStr, file: FileId, fault: ReadFault) -> Unread
    requires { (offset : ℕ) → fault ≡ Nesting offset → offset < length (rc_str_bytes text.now) }
    ensures { TellsUnread file.0 (fault_view fault) result }
{
    match fault {
        ReadFault::Memory => Unread::Memory,
        ReadFault::Syntax(fault) => syntax(file, fault),
        ReadFault::Nesting { offset } => nesting(text, file, offset),
    }
}

/// What is wrong with the tokens of the text, at a place without length.
fn syntax(file: FileId, fault: SyntaxFault) -> Unread
    ensures { TellsUnread file.0 (fault_at fault.kind fault.offset) result }
{
    Unread::Fault {
        place: SourceSpan {
            file_id: file,
            offset: fault.offset,
            length: 0,
        },
        details: Details::Syntax(fault.kind),
    }
}

/// One bracket too many is open, from this one on.
// `text` is for the contract alone: the place is within it.
fn nesting(text: &RcStr, file: FileId, offset: usize) -> Unread
    requires { offset < length (rc_str_bytes text.now) }
    ensures { TellsUnread file.0 (faults.Nesting offset) result }
{
    Unread::Fault {
        place: SourceSpan {
            file_id: file,
            offset,
            length: 1,
        },
        details: Details::Nesting,
    }
}
