//! Trees that are printed and read again.
ghost use Rattle.std.specs.Prelude.{◌≡◌, ◌≤◌, IfOk, IfErr, None, string_bytes};
ghost use Rattle.tree_literals.specs.LineLayout.{standing};
ghost use Rattle.tree_literals.specs.ValueLayout.{type_text};
ghost use Rattle.tree_literals.specs.TypeTree.{type_tree, unplaced_type};
ghost use Rattle.tree_definitions.specs.DefinitionTree.{document_tree, unplaced_document};
ghost use Rattle.graphql_read.specs.declared.fault.ReadFault.TheVariants.{Memory};
ghost use Rattle.round_trip.specs.TreeDepth.{type_depth, document_depth};
ghost use Rattle.round_trip.specs.ReadsAgain.{IsSameUnlessLimit, laid_out, CanBeReread};

use graphql_names::FileId;
use graphql_read::{ReadFault, parse_document, parse_type};
use std::alloc::{AllocError, Global};
use tree_definitions::Document;
use tree_literals::{Serialize, Tree, Type};

/// The text of a type.
fn printed_type(alloc: Global, ty: &Type) -> Result<String, AllocError>
    ensures { IfOk result (λ text. string_bytes text ≡ standing None 0 (type_text (type_tree ty.now))) }
{
    ty.serialize().no_indent().to_string(alloc)
}

/// The text of a document under its layout.
fn printed_document(alloc: Global, layout: Serialize<'_, Document>) -> Result<String, AllocError>
    ensures { IfOk result (λ text. string_bytes text ≡ laid_out layout.entry) }
{
    layout.to_string(alloc)
}

/// Prints a type, and reads the text as one of this file, with at most `nesting` brackets open at once (section 2.11).
///
/// The answer is the same type, apart from places. `Nesting` comes only where so many brackets are not enough, so never where the
/// type is no deeper than that, `Memory` where memory ran out, and `Syntax` never.
pub fn reread_type(
    alloc: Global,
    ty: &Type,
    file: FileId,
    nesting: usize,
) -> Result<Type, ReadFault>
    ensures same { IsSameUnlessLimit (λ t. unplaced_type (type_tree t)) (unplaced_type (type_tree ty.now)) nesting (type_text (type_tree ty.now)) result }
    ensures within { type_depth (type_tree ty.now) ≤ nesting → IfErr result (λ e. e ≡ Memory) }
{
    let text = printed_type(alloc, ty)?;
    parse_type(alloc, &text, file, nesting)
}

/// Prints a document under the layout, and reads the text as one of this file, with at most `nesting` brackets open at once
/// (section 2.2).
///
/// Where the document can be written, and spaces and tabs alone begin its lines, the answer is a document of the same
/// definitions, apart from places. `Nesting` comes only where so many brackets are not enough, so never where the document is no
/// deeper than that, `Memory` where memory ran out, and `Syntax` never.
pub fn reread_document(
    alloc: Global,
    layout: Serialize<'_, Document>,
    file: FileId,
    nesting: usize,
) -> Result<Document, ReadFault>
    ensures same { CanBeReread layout.entry → IsSameUnlessLimit (λ d. unplaced_document (document_tree d)) (unplaced_document (document_tree layout.entry.tree.now)) nesting (laid_out layout.entry) result }
    ensures within { CanBeReread layout.entry → document_depth (document_tree layout.entry.tree.now) ≤ nesting → IfErr result (λ e. e ≡ Memory) }
{
    let text = printed_document(alloc, layout)?;
    parse_document(alloc, &text, file, nesting)
}
