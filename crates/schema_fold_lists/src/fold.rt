//! What a whole list folds to, with its faults.
ghost use Rattle.std.specs.Prelude.{◌≡◌, ◌≤◌, [], drop, length, map, IfOk};
ghost use Rattle.schema_fold.specs.FaultView.{faults_of};
ghost use Rattle.schema_fold.specs.NumberedDefinition.{definitions_of};
ghost use Rattle.schema_fold.specs.ListedView.{listed_view};
ghost use Rattle.schema_fold_types.specs.in_fold_index.Index.{IsIndexOf};
ghost use Rattle.schema_fold_lists.specs.FoldedView.{folded_view};
ghost use Rattle.schema_fold_lists.specs.ListBuilt.{FoldsList};

use graphql_names::{Name, Node, SourceSpan};
use indexmap::IndexMap;
use schema_fold::{BuildError, ExtendedType, NumberedDefinition, SchemaDefinition};
use schema_fold_roots::{fold_directives, fold_schema};
use schema_fold_types::{Index, fold_types, tell_misplaced};
use std::alloc::{AllocError, Global};
use tree_directives::DirectiveDefinition;

/// What the definitions of a list fold to.
#[derive(Drop)]
pub struct Folded {
    pub schema_definition: Node<SchemaDefinition>,
    pub directive_definitions: IndexMap<Name, Node<DirectiveDefinition>>,
    pub types: IndexMap<Name, ExtendedType>,
}

/// Folds a list, whose first `built_in` definitions are what is built in, and tells each rule that is broken. The index
/// is that of the other definitions.
pub fn fold_list(
    alloc: Global,
    list: &[NumberedDefinition],
    built_in: usize,
    index: &Index,
    faults: &mut Vec<(Option<SourceSpan>, BuildError)>,
) -> Result<Folded, AllocError>
    requires within { built_in ≤ length list.now }
    requires indexed { IsIndexOf (definitions_of (map listed_view (drop built_in list.now))) index.now }
    requires faultless { faults.old.items ≡ [] }
    ensures { IfOk result (λ folded. FoldsList (map listed_view list.now) built_in (folded_view folded) (faults_of faults.new)) }
{
    // What is built in is folded with the texts, since a text may extend it.
    let (first, texts) = list.split_at(built_in);
    tell_misplaced(alloc, first, texts, index, faults)?;
    let schema_definition = fold_schema(alloc, list, faults)?;
    let directive_definitions = fold_directives(alloc, first, texts, faults)?;
    let types = fold_types(alloc, first, texts, index, faults)?;
    Ok(Folded {
        schema_definition,
        directive_definitions,
        types,
    })
}
