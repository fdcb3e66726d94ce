//! What replaces the fragments of a document, so that what its operations share is judged once.
ghost use Rattle.std.specs.Prelude.{IfOk, OnOk, unwrap_or};
ghost use Rattle.graphql_schema.specs.SchemaOf.{schema_tree};
ghost use Rattle.rule_reach.specs.in_typed_operations.DocumentView.{document_meant};
ghost use Rattle.rule_reach.specs.Reach.{meant_fragments};
ghost use Rattle.rule_selections.specs.Settled.{fragment_meant, ApplyWhereNoted, IsReplacementOf, MayReplace, MayReplaceInEach};
ghost use Rattle.rule_selections.specs.Telling.{terms_of, IsRight, StillMayReplace, SettlesSet};

use crate::common::{Common, common_variables};
use crate::thinned::thinned;
use crate::used::uses_all;
use document_typed_operations::{ExecutableDocument, Fragment, FragmentMap};
use document_typed_selections::SelectionSet;
use graphql_names::{Name, Node};
use indexmap::{IndexMap, IndexSet};
use rule_arguments::{DefinedVariables, IndexedSchema};
use std::alloc::{AllocError, Global};

/// What is left of a set without its settled selections, if it uses the same variables; or else all of it.
fn settled_set(
    alloc: Global,
    common: &Common<'_>,
    set: &SelectionSet,
) -> Result<SelectionSet, AllocError>
    requires { IsRight common.now }
    ensures { IfOk result (λ r. SettlesSet (terms_of common.now) set.now r) }
{
    let left = thinned(alloc, common, set)?;
    if uses_all(alloc, &left, set)? {
        return Ok(left);
    }
    set.clone()
}

/// The fragment without its settled selections, at the same place.
fn thinned_fragment(
    alloc: Global,
    common: &Common<'_>,
    fragment: &Node<Fragment>,
) -> Result<Node<Fragment>, AllocError>
    requires { IsRight common.now }
    ensures { IfOk result (λ r. IsReplacementOf (terms_of common.now) (fragment_meant r) (fragment_meant fragment.now)) }
{
    let own = fragment.content();
    let name = own.name.clone()?;
    let directives = own.directives.clone()?;
    let selection_set = settled_set(alloc, common, &own.selection_set)?;
    let thin = Fragment {
        name,
        directives,
        selection_set,
    };
    Ok(fragment.same_location(alloc, thin)?)
}

/// Replaces the fragment of that name by itself without its settled selections.
fn settle(
    common: &Common<'_>,
    fragments: &FragmentMap,
    name: &Name,
    instead: &mut FragmentMap,
) -> Result<(), AllocError>
    requires { IsRight common.now }
    ensures { OnOk result (StillMayReplace (terms_of common.now) (meant_fragments fragments.now) (meant_fragments instead.old) (meant_fragments instead.new)) }
{
    let Some(fragment) = fragments.get(name) else {
        return Ok(());
    };
    let alloc = *instead.allocator();
    let name = name.clone()?;
    instead.insert(name, thinned_fragment(alloc, common, fragment)?)?;
    Ok(())
}

/// What replaces the fragments of a document whose operations have this in common.
fn settled_under(
    common: &Common<'_>,
    document: &ExecutableDocument,
) -> Result<FragmentMap, AllocError>
    requires { IsRight common.now }
    ensures { IfOk result (λ r. MayReplace (terms_of common.now) (document_meant document.now).fragments (meant_fragments r)) }
{
    let mut instead = document.fragments.clone()?;
    for (name, _) in &document.fragments {
        settle(common, &document.fragments, name, &mut instead)?;
    }
    Ok(instead)
}

/// What replaces the fragments of a document under a schema, if it has several operations, so that what they share is judged
/// once: each fragment without those selections, at any depth, that break no rule under the variables that all operations
/// define alike and enter only fragments that apply, and so does all that they select. The replacement uses the same variables.
/// `applying` has, under names of types, conditions with which inline fragments may apply there. Fails if memory is refused.
pub fn settled_fragments(
    alloc: Global,
    schema: &IndexedSchema<'_>,
    applying: &IndexMap<Name, IndexSet<Name>>,
    document: &ExecutableDocument,
) -> Result<Option<FragmentMap>, AllocError>
    requires { ApplyWhereNoted (schema_tree schema.now) applying.now }
    ensures { IfOk result (λ r. MayReplaceInEach (schema_tree schema.now) (document_meant document.now) (meant_fragments (unwrap_or r document.now.fragments))) }
{
    if document.operations.len() < 2 {
        return Ok(None);
    }
    let definitions = common_variables(alloc, document)?;
    let variables = DefinedVariables::new(alloc, definitions.as_slice())?;
    let common = Common {
        schema,
        variables: &variables,
        applying,
    };
    Ok(Some(settled_under(&common, document)?))
}
