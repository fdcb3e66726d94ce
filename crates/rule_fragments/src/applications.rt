//! Fragments that selections apply, and the rules on the types that they are on.
ghost use Rattle.std.specs.Prelude.{◌≡◌, [], ◌⊎◌, true, Some, IfOk, OnOk, IfSome};
ghost use Rattle.std.specs.Option.{option_map};
ghost use Rattle.graphql_names.specs.Placed.{Place};
ghost use Rattle.schema_types.specs.Addresses.{TypeAt, place_at};
ghost use Rattle.rule_cycles.specs.in_schema.SchemaOf.{schema_tree};
ghost use Rattle.document_typed_selections.specs.TypedTree.{typed_selection_tree};
ghost use Rattle.document_typed_selections.specs.TypedParts.{typed_spread_node, typed_inline_node};
ghost use Rattle.spec_document.specs.MeantTree.{MeantOperation, MeantDocument, meant};
ghost use Rattle.fault_data.specs.Adds.{Adds};
ghost use Rattle.rule_definitions.specs.Judged.{judged};
ghost use Rattle.rule_document_definitions.specs.Fragments.{InvalidFragmentTargetAt, InvalidFragmentSpreadAt};
ghost use Rattle.rule_document_definitions.specs.PlacedDocumentFaults.{places_in};
ghost use Rattle.rule_reach.specs.Reach.{IsReachOf, meant_fragments, reached_members};
ghost use Rattle.rule_fragments.specs.Possible.{ArePossible, ArePossibleIfFound};
ghost use Rattle.rule_fragments.specs.Applied.{application_tree, application_in, is_on_its_type, all_are_on_their_types};
ghost use Rattle.rule_fragments.specs.Telling.{AddsThese, invalid_spread, invalid_spreads};

use crate::names::copied_name;
use crate::possible_types::PossibleTypes;
use crate::targets::check_targets;
use document_typed_operations::FragmentMap;
use document_typed_selections::{FragmentSpread, InlineFragment, Selection};
use fault_data::{DiagnosticData, Fault, tell};
use graphql_names::{Name, Node, SourceSpan};
use rule_cycles::Schema;
use rule_reach::Reach;
use std::alloc::{AllocError, Global};

/// A fragment that a selection applies: by its name, or inline with a condition.
#[derive(Drop)]
struct Application<'doc> {
    /// None of an inline fragment.
    name: Option<&'doc Name>,
    condition: &'doc Name,
    /// The place of the spread, or of the inline fragment.
    location: Option<SourceSpan>,
    /// Where the fragment is defined: for an inline fragment, its own place.
    fragment_location: Option<SourceSpan>,
}

/// The fragment that is spread, if it is defined.
fn spread_application<'doc>(
    spread: &'doc Node<FragmentSpread>,
    fragments: &'doc FragmentMap,
) -> Option<Application<'doc>>
    ensures { option_map application_tree result ≡ application_in (meant_fragments fragments.now) (meant (typed_spread_node spread.now)) }
{
    let name = &spread.content().fragment_name;
    match fragments.get(name) {
        None => None,
        Some(fragment) => Some(Application {
            name: Some(name),
            condition: fragment.content().type_condition(),
            location: spread.location(),
            fragment_location: fragment.location(),
        }),
    }
}

/// The inline fragment, if it has a condition.
fn inline_application<'doc>(inline: &'doc Node<InlineFragment>) -> Option<Application<'doc>>
    ensures { option_map application_tree result ≡ application_in [] (meant (typed_inline_node inline.now)) }
{
    match &inline.content().type_condition {
        None => None,
        Some(condition) => Some(Application {
            name: None,
            condition,
            location: inline.location(),
            fragment_location: inline.location(),
        }),
    }
}

/// The fragment that a selection applies, if it applies one that exists and has a condition.
#[tactic(auto, using(document_typed_selections::proofs::TypedTrees::typed_tree_rules))]
fn application_of<'doc>(
    selection: &'doc Selection,
    fragments: &'doc FragmentMap,
) -> Option<Application<'doc>>
    ensures { option_map application_tree result ≡ application_in (meant_fragments fragments.now) (meant (typed_selection_tree selection.now)) }
{
    match selection {
        Selection::Field(_) => None,
        Selection::FragmentSpread(spread) => spread_application(spread, fragments),
        Selection::InlineFragment(inline) => inline_application(inline),
    }
}

/// Whether the selection applies no fragment, or one on the very type of its set, which is `parent`.
fn is_on_its_type(fragments: &FragmentMap, parent: &Name, selection: &Selection) -> bool
    ensures { result ≡ is_on_its_type (meant_fragments fragments.now) (parent.now.text, meant (typed_selection_tree selection.now)) }
{
    match application_of(selection, fragments) {
        None => true,
        Some(application) => *application.condition == *parent,
    }
}

/// Whether each fragment is on the very type of the set that applies it. Then it can apply, whatever types are possible.
fn all_are_on_their_types(fragments: &FragmentMap, reach: &Reach<'_>) -> bool
    ensures { result ≡ all_are_on_their_types (meant_fragments fragments.now) (reached_members reach.now) }
{
    for (parent, selection) in &reach.selections {
        if !is_on_its_type(fragments, parent, selection) {
            return false;
        }
    }
    true
}

/// Where the type of that name is defined.
fn type_location(schema: &Schema, name: &Name) -> Option<SourceSpan>
    ensures { result ≡ place_at (schema_tree schema.now) (TypeAt name.now.text) }
{
    match schema.type_named(name) {
        None => None,
        Some(ty) => ty.location(),
    }
}

/// InvalidFragmentSpread: a fragment is valid only if it can apply where it stands (section 5.5.2.3). There the type is
/// `parent`.
fn invalid_fragment_spread(
    schema: &Schema,
    possible: &mut PossibleTypes,
    parent: &Name,
    application: &Application<'_>,
    faults: &mut Vec<Fault>,
) -> Result<(), AllocError>
    ensures told { OnOk result (AddsThese faults.old faults.new (invalid_spread (schema_tree schema.now) possible.old parent.now application.now)) }
    ensures same { possible.new ≡ possible.old }
{
    if possible.may_apply(parent, application.condition)? {
        return Ok(());
    }
    let data = DiagnosticData::InvalidFragmentSpread {
        name: copied_name(application.name)?,
        type_name: parent.clone()?,
        type_condition: application.condition.clone()?,
        fragment_location: application.fragment_location,
        type_location: type_location(schema, parent),
    };
    let location = application.location;
    tell(faults, Some(Fault { location, data }))
}

/// Adds InvalidFragmentSpread for each selection that applies a fragment.
fn check_fragment_spreads<'doc>(
    schema: &Schema,
    possible: &mut PossibleTypes,
    fragments: &'doc FragmentMap,
    reach: &Reach<'doc>,
    faults: &mut Vec<Fault>,
) -> Result<(), AllocError>
    ensures told { OnOk result (AddsThese faults.old faults.new (invalid_spreads (schema_tree schema.now) possible.old fragments.now reach.now)) }
    ensures same { OnOk result (possible.new ≡ possible.old) }
{
    for (parent, selection) in &reach.selections {
        if let Some(application) = application_of(selection, fragments) {
            invalid_fragment_spread(schema, possible, parent, &application, faults)?;
        }
    }
    Ok(())
}

/// The possible types that were found, or those of the schema.
pub(crate) fn found_or_new(
    alloc: Global,
    schema: &Schema,
    found: Option<PossibleTypes>,
) -> Result<PossibleTypes, AllocError>
    ensures right { IfOk result (λ p. ArePossibleIfFound (judged (schema_tree schema.now)) found → ArePossible (judged (schema_tree schema.now)) p) }
    ensures once { IfOk result (λ p. IfSome found (λ q. p ≡ q)) }
{
    match found {
        Some(possible) => Ok(possible),
        None => PossibleTypes::new(alloc, schema),
    }
}

/// Adds the faults of the types of fragments that an operation reaches: InvalidFragmentTarget, of a fragment on a type that is
/// not composite, and InvalidFragmentSpread, of one that cannot apply where it is. `possible` has the possible types of the
/// schema, once they are found. If they are not found yet, and some fragment is on another type than the set that applies it,
/// they are found here and kept for the next operation. Fails if memory is refused.
pub fn check_applications(
    schema: &Schema,
    possible: &mut Option<PossibleTypes>,
    fragments: &FragmentMap,
    reach: &Reach<'_>,
    faults: &mut Vec<Fault>,
) -> Result<(), AllocError>
    ensures told { OnOk result ((d : MeantDocument Place) (o : MeantOperation Place) → IsReachOf d o reach.now → d.fragments ≡ meant_fragments fragments.now → ArePossibleIfFound (judged (schema_tree schema.now)) possible.old → Adds faults.old faults.new (λ f. InvalidFragmentTargetAt (judged (schema_tree schema.now)) d o f ⊎ InvalidFragmentSpreadAt (judged (schema_tree schema.now)) d o f (places_in (schema_tree schema.now)))) }
    ensures right { OnOk result (ArePossibleIfFound (judged (schema_tree schema.now)) possible.old → ArePossibleIfFound (judged (schema_tree schema.now)) possible.new) }
    ensures once { OnOk result (IfSome possible.old (λ p. possible.new ≡ Some p)) }
    ensures unneeded { OnOk result (all_are_on_their_types (meant_fragments fragments.now) (reached_members reach.now) ≡ true → possible.new ≡ possible.old) }
{
    check_targets(schema, reach, faults)?;
    if all_are_on_their_types(fragments, reach) {
        return Ok(());
    }
    let mut types = found_or_new(*faults.allocator(), schema, possible.take())?;
    check_fragment_spreads(schema, &mut types, fragments, reach, faults)?;
    *possible = Some(types);
    Ok(())
}
