//! Types that fragments are on.
ghost use Rattle.std.specs.Prelude.{◌≡◌, flat_map, None, OnOk};
ghost use Rattle.rule_cycles.specs.in_schema.SchemaOf.{schema_tree};
ghost use Rattle.rule_reach.specs.Reach.{reached_fragments_of};
ghost use Rattle.rule_fragments.specs.Listed.{is_no_composite, fragment_target, inline_target};
ghost use Rattle.rule_fragments.specs.Telling.{AddsThese, meant_selection, invalid_target, inline_targets, AddsTargets};
ghost use Rattle.rule_fragments.specs.SpreadViews.{fragment_meant};

use crate::names::copied_name;
use document_typed_operations::Fragment;
use document_typed_selections::Selection;
use fault_data::{DiagnosticData, Fault, tell};
use graphql_names::{Name, Node, SourceSpan};
use rule_cycles::Schema;
use rule_reach::Reach;
use std::alloc::AllocError;

/// Whether the type of that name is defined and is no object, interface or union.
pub(crate) fn is_no_composite(schema: &Schema, name: &Name) -> bool
    ensures { result ≡ is_no_composite (schema_tree schema.now) name.now.text }
{
    match schema.type_named(name) {
        None => false,
        Some(ty) => !(ty.is_output_type() && !ty.is_leaf()),
    }
}

/// InvalidFragmentTarget: a fragment is valid only if it is on a composite type (section 5.5.1.3). An inline fragment has
/// no name.
fn invalid_fragment_target(
    schema: &Schema,
    location: Option<SourceSpan>,
    name: Option<&Name>,
    condition: &Name,
    faults: &mut Vec<Fault>,
) -> Result<(), AllocError>
    ensures { OnOk result (AddsThese faults.old faults.new (invalid_target (schema_tree schema.now) location name.entry condition.now)) }
{
    if !is_no_composite(schema, condition) {
        return Ok(());
    }
    let name = copied_name(name)?;
    let ty = condition.clone()?;
    let data = DiagnosticData::InvalidFragmentTarget { name, ty };
    tell(faults, Some(Fault { location, data }))
}

/// Adds what breaks that rule at a fragment.
fn fragment_target(
    schema: &Schema,
    fragment: &Node<Fragment>,
    faults: &mut Vec<Fault>,
) -> Result<(), AllocError>
    ensures { OnOk result (AddsThese faults.old faults.new (fragment_target (schema_tree schema.now) (fragment_meant fragment.now))) }
{
    let defined = fragment.content();
    invalid_fragment_target(
        schema,
        fragment.location(),
        Some(&defined.name),
        defined.type_condition(),
        faults,
    )
}

/// Adds what breaks that rule at a selection, if it is an inline fragment with a condition.
fn inline_target(
    schema: &Schema,
    selection: &Selection,
    faults: &mut Vec<Fault>,
) -> Result<(), AllocError>
    ensures { OnOk result (AddsThese faults.old faults.new (inline_target (schema_tree schema.now) (meant_selection selection.now))) }
{
    let Some(inline) = selection.as_inline_fragment() else {
        return Ok(());
    };
    let location = inline.location();
    match &inline.content().type_condition {
        None => Ok(()),
        Some(condition) => invalid_fragment_target(schema, location, None, condition, faults),
    }
}

/// Adds InvalidFragmentTarget for each fragment.
fn check_fragment_targets(
    schema: &Schema,
    reach: &Reach<'_>,
    faults: &mut Vec<Fault>,
) -> Result<(), AllocError>
    ensures { OnOk result (AddsThese faults.old faults.new (flat_map (fragment_target (schema_tree schema.now)) (reached_fragments_of reach.now))) }
{
    for index in 0..reach.fragments.len() {
        fragment_target(schema, reach.fragments[index], faults)?;
    }
    Ok(())
}

/// Adds InvalidFragmentTarget for each inline fragment.
fn check_inline_targets(
    schema: &Schema,
    reach: &Reach<'_>,
    faults: &mut Vec<Fault>,
) -> Result<(), AllocError>
    ensures { OnOk result (AddsThese faults.old faults.new (inline_targets (schema_tree schema.now) reach.now)) }
{
    for (_, selection) in &reach.selections {
        inline_target(schema, selection, faults)?;
    }
    Ok(())
}

/// Adds InvalidFragmentTarget for each fragment that is reached, by name or inline, on a type that is not composite. Fails where
/// memory is refused.
pub(crate) fn check_targets(
    schema: &Schema,
    reach: &Reach<'_>,
    faults: &mut Vec<Fault>,
) -> Result<(), AllocError>
    ensures { OnOk result (AddsTargets (schema_tree schema.now) reach.now faults.old faults.new) }
{
    check_fragment_targets(schema, reach, faults)?;
    check_inline_targets(schema, reach, faults)
}
