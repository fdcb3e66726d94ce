//! The selections at the root of an operation.
ghost use Rattle.std.specs.Prelude.{◌↔◌, IfOk, IsTrue};
ghost use Rattle.rule_selection_queries.specs.in_reach.in_typed_operations.DocumentView.{document_meant, operation_meant};
ghost use Rattle.rule_fragments.specs.Rooted.{AreRoots, HasSeveralFields};
ghost use Rattle.rule_fragments.specs.Used.{AreUnderOwnNames};
ghost use Rattle.rule_selection_queries.specs.Lent.{lent_all};

use document_typed_operations::{ExecutableDocument, Operation, ReachedSelections};
use document_typed_selections::Selection;
use graphql_names::Node;
use std::alloc::{AllocError, Global};

/// The selections at the root of the operation, through fragments, each once, as copies that share their contents.
pub(crate) fn root_selections(
    alloc: Global,
    document: &ExecutableDocument,
    operation: &Node<Operation>,
) -> Result<Vec<Selection>, AllocError>
    ensures { IfOk result (λ roots. AreRoots (document_meant document.now) (operation_meant operation.now) (lent_all roots.items)) }
{
    let set = &operation.content().selection_set;
    let mut roots = Vec::new(alloc);
    for selection in ReachedSelections::new(alloc, false, set, &document.fragments) {
        roots.push(selection?.1.clone()?)?;
    }
    Ok(roots)
}

/// Whether the operation has more than one field at its root, through fragments. The walk ends at the second field.
pub(crate) fn has_several_fields(
    alloc: Global,
    document: &ExecutableDocument,
    operation: &Node<Operation>,
) -> Result<bool, AllocError>
    ensures { IfOk result (λ b. AreUnderOwnNames (document_meant document.now) → IsTrue b ↔ HasSeveralFields (document_meant document.now) (operation_meant operation.now)) }
{
    let set = &operation.content().selection_set;
    let mut has_one = false;
    for selection in ReachedSelections::new(alloc, false, set, &document.fragments) {
        if selection?.1.as_field().is_some() {
            if has_one {
                return Ok(true);
            }
            has_one = true;
        }
    }
    Ok(false)
}
