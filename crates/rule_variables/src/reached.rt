//! The names of the variables that an operation uses.
ghost use Rattle.std.specs.Prelude.{◌≡◌, [], IfOk, OnOk};
ghost use Rattle.document_typed_operations.specs.TypedDocument.{typed_operation_tree};
ghost use Rattle.rule_reach.specs.Reach.{reached_members, reached_fragments_of};
ghost use Rattle.rule_reach.specs.NotedNames.{noted_names};
ghost use Rattle.rule_variables.specs.UsedNames.{with_members, with_fragments, with_used};

use document_typed_operations::Operation;
use graphql_names::Name;
use indexmap::IndexSet;
use rule_reach::{Reach, note_in_directives, note_in_selection};
use std::alloc::{AllocError, Global};

/// Adds the names of the variables in each selection itself.
fn note_in_members(reach: &Reach<'_>, names: &mut IndexSet<Name>) -> Result<(), AllocError>
    ensures { OnOk result (noted_names names.new ≡ with_members (noted_names names.old) (reached_members reach.now)) }
{
    for (_, selection) in &reach.selections {
        note_in_selection(selection, names)?;
    }
    Ok(())
}

/// Adds the names of the variables in the directives of each fragment.
fn note_in_fragments(reach: &Reach<'_>, names: &mut IndexSet<Name>) -> Result<(), AllocError>
    ensures { OnOk result (noted_names names.new ≡ with_fragments (noted_names names.old) (reached_fragments_of reach.now)) }
{
    for index in 0..reach.fragments.len() {
        note_in_directives(&reach.fragments[index].content().directives, names)?;
    }
    Ok(())
}

/// The names of the variables in the operation's directives, in the selections that it reaches, and in the directives of the
/// fragments that it reaches (section 5.8.4).
pub(crate) fn used_names(
    alloc: Global,
    operation: &Operation,
    reach: &Reach<'_>,
) -> Result<IndexSet<Name>, AllocError>
    ensures { IfOk result (λ names. noted_names names ≡ with_used [] (typed_operation_tree operation.now).directives (reached_members reach.now) (reached_fragments_of reach.now)) }
{
    let mut names = IndexSet::new(alloc);
    note_in_directives(&operation.directives, &mut names)?;
    note_in_members(reach, &mut names)?;
    note_in_fragments(reach, &mut names)?;
    Ok(names)
}
