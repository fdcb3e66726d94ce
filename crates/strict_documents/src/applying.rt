//! Fragments that no object of their set's type can be of.
ghost use Rattle.std.specs.Prelude.{◌≡◌, OnOk};
ghost use Rattle.std.specs.Option.{option_map};
ghost use Rattle.graphql_schema.specs.SchemaOf.{schema_tree};
ghost use Rattle.document_typed_selections.specs.TypedTree.{typed_selection_tree};
ghost use Rattle.document_typed_selections.specs.TypedParts.{typed_spread_node};
ghost use Rattle.spec_document.specs.MeantTree.{meant};
ghost use Rattle.rule_document_definitions.specs.Selected.{selection_place};
ghost use Rattle.rule_reach.specs.Reach.{meant_fragments};
ghost use Rattle.strict_documents.specs.Departing.{departure_if};
ghost use Rattle.strict_documents.specs.DepartureViews.{Tells};
ghost use Rattle.strict_documents.specs.Applying.{condition_of, does_fragment_type_apply, root_departures, spread_departures};

use crate::departure::{Departure, DepartureKind};
use crate::objects::StrictSchema;
use crate::telling::tell;
use document_typed_operations::FragmentMap;
use document_typed_selections::{FragmentSpread, Selection};
use graphql_names::{Name, Node};
use graphql_schema::Schema;
use std::alloc::AllocError;

/// The type that the fragment is on that is spread, if it is defined.
fn spread_condition<'doc>(
    fragments: &'doc FragmentMap,
    spread: &'doc Node<FragmentSpread>,
) -> Option<&'doc Name>
    ensures { option_map (λ n. n.now.text) result ≡ condition_of (meant_fragments fragments.now) (meant (typed_spread_node spread.now)) }
{
    match fragments.get(&spread.content().fragment_name) {
        None => None,
        Some(fragment) => Some(fragment.content().type_condition()),
    }
}

/// The type that a fragment is on: of one that is spread, if it is defined, or of an inline fragment with a condition.
#[tactic(auto, using(document_typed_selections::proofs::TypedTrees::typed_tree_rules))]
pub fn condition_of<'doc>(
    fragments: &'doc FragmentMap,
    selection: &'doc Selection,
) -> Option<&'doc Name>
    ensures { option_map (λ n. n.now.text) result ≡ condition_of (meant_fragments fragments.now) (meant (typed_selection_tree selection.now)) }
{
    match selection {
        Selection::Field(_) => None,
        Selection::FragmentSpread(spread) => spread_condition(fragments, spread),
        Selection::InlineFragment(inline) => inline.content().type_condition.as_ref(),
    }
}

/// DoesFragmentTypeApply (section 6.3.2): whether the object is of the type that a fragment is on.
pub fn does_fragment_type_apply(schema: &Schema, object: &Name, fragment: &Name) -> bool
    ensures { result ≡ does_fragment_type_apply (schema_tree schema.now) object.now.text fragment.now.text }
{
    *object == *fragment || schema.is_subtype(fragment, object)
}

/// Adds a departure at the selection that mentions the name, if there is one.
fn tell_if(
    is: bool,
    selection: &Selection,
    kind: DepartureKind,
    name: &Name,
    departures: &mut Vec<Departure>,
) -> Result<(), AllocError>
    ensures { OnOk result (Tells departures.old departures.new (departure_if is (selection_place (meant (typed_selection_tree selection.now))) kind name.now.text)) }
{
    if !is {
        return Ok(());
    }
    let name = Some(name.clone()?);
    let location = selection.location();
    let departure = Departure {
        location,
        kind,
        name,
    };
    tell(departures, Some(departure))
}

/// Adds SpreadWithoutObject, if the selection is a fragment on the type of its own set, which is `parent`, and no object is of it
/// (section 5.5.2.3). Fails if memory is refused.
pub fn tell_spread(
    schema: &StrictSchema<'_>,
    fragments: &FragmentMap,
    parent: &Name,
    selection: &Selection,
    departures: &mut Vec<Departure>,
) -> Result<(), AllocError>
    ensures { OnOk result (Tells departures.old departures.new (spread_departures (schema_tree schema.now) (meant_fragments fragments.now) parent.now.text (meant (typed_selection_tree selection.now)))) }
{
    match condition_of(fragments, selection) {
        None => Ok(()),
        Some(condition) => {
            let is = *condition == *parent && schema.is_without_object(condition);
            tell_if(
                is,
                selection,
                DepartureKind::SpreadWithoutObject,
                condition,
                departures,
            )
        }
    }
}

/// Adds SubscriptionOfNothing, if the selection, at the root of a subscription on that object, is a fragment that CollectFields
/// passes over, since its type does not apply (sections 5.2.3.1 and 6.3.2). Fails if memory is refused.
pub fn tell_root(
    schema: &Schema,
    fragments: &FragmentMap,
    object: &Name,
    selection: &Selection,
    departures: &mut Vec<Departure>,
) -> Result<(), AllocError>
    ensures { OnOk result (Tells departures.old departures.new (root_departures (schema_tree schema.now) (meant_fragments fragments.now) object.now.text (meant (typed_selection_tree selection.now)))) }
{
    match condition_of(fragments, selection) {
        None => Ok(()),
        Some(condition) => {
            let is = !does_fragment_type_apply(schema, object, condition);
            tell_if(
                is,
                selection,
                DepartureKind::SubscriptionOfNothing,
                condition,
                departures,
            )
        }
    }
}
