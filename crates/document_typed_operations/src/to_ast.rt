//! Documents as they are written: without definitions and types.
ghost use Rattle.std.specs.Prelude.{◌≡◌, [], option_to_list, IfOk, OnOk};
ghost use Rattle.graphql_names.specs.Placed.{node_tree};
ghost use Rattle.document_typed_selections.specs.in_definitions.DefinitionTree.{definition_tree, document_tree};
ghost use Rattle.document_typed_operations.specs.TypedDocument.{typed_operation_tree, typed_fragment_tree, typed_document_tree};
ghost use Rattle.document_typed_operations.specs.ToAst.{ast_operation, ast_fragment, ast_document};
ghost use Rattle.document_typed_operations.specs.Writing.{Writes, written_operations, written_fragments};

use crate::document::ExecutableDocument;
use crate::operation::{Fragment, Operation};
use crate::selections_to_ast::set_to_ast;
use crate::written_node::{node_at, push_made};
use document_typed_selections::{Definition, Document};
use graphql_names::Node;
use std::alloc::{AllocError, Global};
use tree_literals::copies_of_three;
use tree_operations::{FragmentDefinition, OperationDefinition};

impl ExecutableDocument {
    /// The document as it is written: its operations, one without a name first, and then its fragments, each in order
    /// (sections 2.2, 2.3 and 2.8). What they hold is shared with this document; the new one has no sources.
    pub fn to_ast(&self, alloc: Global) -> Result<Document, AllocError>
        ensures definitions { IfOk result (λ d. document_tree d ≡ ast_document (typed_document_tree self.now)) }
        ensures sources { IfOk result (λ d. d.sources.entries ≡ []) }
    {
        let mut document = Document::new(alloc);
        write_definitions(alloc, self, &mut document.definitions)?;
        Ok(document)
    }
}

/// Writes the definitions of a document after others.
fn write_definitions(
    alloc: Global,
    document: &ExecutableDocument,
    out: &mut Vec<Definition>,
) -> Result<(), AllocError>
    ensures { OnOk result (Writes out.old out.new (ast_document (typed_document_tree document.now))) }
{
    write_anonymous(alloc, &document.operations.anonymous, out)?;
    let named = document.operations.named.values();
    write_operations(alloc, named.as_slice(), out)?;
    let fragments = document.fragments.values();
    write_fragments(alloc, fragments.as_slice(), out)?;
    Ok(())
}

/// Writes the operation without a name, if there is one, after other definitions.
fn write_anonymous(
    alloc: Global,
    anonymous: &Option<Node<Operation>>,
    out: &mut Vec<Definition>,
) -> Result<(), AllocError>
    ensures { OnOk result (Writes out.old out.new (written_operations (option_to_list anonymous.now))) }
{
    match anonymous {
        None => Ok(()),
        Some(operation) => {
            push_made(out, operation_to_ast(alloc, operation))?;
            Ok(())
        }
    }
}

/// Writes operations after other definitions.
fn write_operations(
    alloc: Global,
    operations: &[Node<Operation>],
    out: &mut Vec<Definition>,
) -> Result<(), AllocError>
    ensures { OnOk result (Writes out.old out.new (written_operations operations.now)) }
{
    for operation in operations {
        push_made(out, operation_to_ast(alloc, operation))?;
    }
    Ok(())
}

/// Writes fragments after other definitions.
fn write_fragments(
    alloc: Global,
    fragments: &[Node<Fragment>],
    out: &mut Vec<Definition>,
) -> Result<(), AllocError>
    ensures { OnOk result (Writes out.old out.new (written_fragments fragments.now)) }
{
    for fragment in fragments {
        push_made(out, fragment_to_ast(alloc, fragment))?;
    }
    Ok(())
}

/// An operation as it is written.
fn operation_to_ast(alloc: Global, node: &Node<Operation>) -> Result<Definition, AllocError>
    ensures { IfOk result (λ d. definition_tree d ≡ ast_operation (node_tree typed_operation_tree node.now)) }
{
    let operation = node.content();
    let selection_set = set_to_ast(alloc, &operation.selection_set)?;
    let (name, variables, directives) = copies_of_three(
        &operation.name,
        &operation.variables,
        &operation.directives,
    )?;
    let written = OperationDefinition {
        operation_type: operation.operation_type,
        name,
        variables,
        directives,
        selection_set,
    };
    Ok(Definition::OperationDefinition(node_at(alloc, node, written)?))
}

/// A fragment as it is written, its condition the type of its set.
#[tactic(auto, using(crate::proofs::TypedSets::typed_set_tree_out))]
fn fragment_to_ast(alloc: Global, node: &Node<Fragment>) -> Result<Definition, AllocError>
    ensures { IfOk result (λ d. definition_tree d ≡ ast_fragment (node_tree typed_fragment_tree node.now)) }
{
    let fragment = node.content();
    let selection_set = set_to_ast(alloc, &fragment.selection_set)?;
    let (name, type_condition, directives) = copies_of_three(
        &fragment.name,
        &fragment.selection_set.ty,
        &fragment.directives,
    )?;
    let written = FragmentDefinition {
        name,
        type_condition,
        directives,
        selection_set,
    };
    Ok(Definition::FragmentDefinition(node_at(alloc, node, written)?))
}
