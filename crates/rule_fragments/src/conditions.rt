//! Conditions with which inline fragments may apply in their sets, for what operations share.
ghost use Rattle.std.specs.Prelude.{IfOk, OnOk};
ghost use Rattle.rule_cycles.specs.in_schema.SchemaOf.{schema_tree};
ghost use Rattle.rule_definitions.specs.Judged.{judged};
ghost use Rattle.rule_fragments.specs.Applying.{MayApplyWhereNoted, KnowsWhatApplies};
ghost use Rattle.rule_fragments.specs.Possible.{ArePossibleIfFound};

use crate::applications::found_or_new;
use crate::possible_types::{PossibleTypes, note};
use crate::targets::is_no_composite;
use document_typed_operations::{ExecutableDocument, FragmentMap, ReachedSelections};
use document_typed_selections::{Selection, SelectionSet};
use graphql_names::Name;
use indexmap::{IndexMap, IndexSet};
use rule_cycles::Schema;
use std::alloc::{AllocError, Global};

/// Notes the condition under the type, if nothing is told of an inline fragment with it in a set on the type: the condition is
/// no type without fields, and the fragment may apply. If the possible types are not found yet and the condition is another
/// type, they are found here.
fn note_if_applies(
    schema: &Schema,
    possible: &mut Option<PossibleTypes>,
    ty: &Name,
    condition: &Name,
    applying: &mut IndexMap<Name, IndexSet<Name>>,
) -> Result<(), AllocError>
    requires { KnowsWhatApplies (judged (schema_tree schema.now)) possible.old applying.old }
    ensures { OnOk result (KnowsWhatApplies (judged (schema_tree schema.now)) possible.new applying.new) }
{
    if is_no_composite(schema, condition) {
        return Ok(());
    }
    if *condition == *ty {
        return note(applying, ty, condition);
    }
    let mut types = found_or_new(*applying.allocator(), schema, possible.take())?;
    let applies = types.may_apply(ty, condition)?;
    *possible = Some(types);
    if applies {
        return note(applying, ty, condition);
    }
    Ok(())
}

/// The same for the condition of a selection of a set on the type, if it is an inline fragment with one.
fn note_condition(
    schema: &Schema,
    possible: &mut Option<PossibleTypes>,
    ty: &Name,
    selection: &Selection,
    applying: &mut IndexMap<Name, IndexSet<Name>>,
) -> Result<(), AllocError>
    requires { KnowsWhatApplies (judged (schema_tree schema.now)) possible.old applying.old }
    ensures { OnOk result (KnowsWhatApplies (judged (schema_tree schema.now)) possible.new applying.new) }
{
    let Some(inline) = selection.as_inline_fragment() else {
        return Ok(());
    };
    match &inline.content().type_condition {
        None => Ok(()),
        Some(condition) => note_if_applies(schema, possible, ty, condition, applying),
    }
}

/// The same for each selection in a set, at any depth.
fn note_conditions_in(
    schema: &Schema,
    possible: &mut Option<PossibleTypes>,
    set: &SelectionSet,
    applying: &mut IndexMap<Name, IndexSet<Name>>,
) -> Result<(), AllocError>
    requires { KnowsWhatApplies (judged (schema_tree schema.now)) possible.old applying.old }
    ensures { OnOk result (KnowsWhatApplies (judged (schema_tree schema.now)) possible.new applying.new) }
{
    let alloc = *applying.allocator();
    // Without fragments a set reaches what is in it, and no more.
    let none: FragmentMap = IndexMap::new(alloc);
    for member in ReachedSelections::new(alloc, true, set, &none) {
        let (ty, selection) = member?;
        note_condition(schema, possible, ty, selection, applying)?;
    }
    Ok(())
}

/// The same for each selection in these fragments.
fn note_conditions(
    schema: &Schema,
    possible: &mut Option<PossibleTypes>,
    fragments: &FragmentMap,
    applying: &mut IndexMap<Name, IndexSet<Name>>,
) -> Result<(), AllocError>
    requires { KnowsWhatApplies (judged (schema_tree schema.now)) possible.old applying.old }
    ensures { OnOk result (KnowsWhatApplies (judged (schema_tree schema.now)) possible.new applying.new) }
{
    for (_, fragment) in fragments {
        let set = &fragment.content().selection_set;
        note_conditions_in(schema, possible, set, applying)?;
    }
    Ok(())
}

/// Under names of types, the conditions of inline fragments in a document's fragments that are in sets on these types, are no
/// types without fields, and may apply there. There are none if the document has fewer than two operations, since then nothing
/// is shared. `possible` has the possible types of the schema, once they are found. If they are not found yet, and some
/// condition is another type than that of its set, they are found here. Fails if memory is refused.
pub fn applying_conditions(
    alloc: Global,
    schema: &Schema,
    possible: &mut Option<PossibleTypes>,
    document: &ExecutableDocument,
) -> Result<IndexMap<Name, IndexSet<Name>>, AllocError>
    requires { ArePossibleIfFound (judged (schema_tree schema.now)) possible.old }
    ensures applying { IfOk result (λ m. MayApplyWhereNoted (judged (schema_tree schema.now)) m) }
    ensures right { OnOk result (ArePossibleIfFound (judged (schema_tree schema.now)) possible.new) }
{
    let mut applying = IndexMap::new(alloc);
    if document.operations.len() > 1 {
        note_conditions(schema, possible, &document.fragments, &mut applying)?;
    }
    Ok(applying)
}
