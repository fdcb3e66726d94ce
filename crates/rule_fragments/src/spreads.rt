//! Spreads of fragments that are not defined.
ghost use Rattle.std.specs.Prelude.{◌≡◌, OnOk};
ghost use Rattle.graphql_names.specs.Placed.{Place};
ghost use Rattle.spec_document.specs.MeantTree.{MeantOperation, MeantDocument};
ghost use Rattle.fault_data.specs.Adds.{Adds};
ghost use Rattle.rule_document_definitions.specs.Fragments.{UndefinedFragmentAt};
ghost use Rattle.rule_reach.specs.Reach.{IsReachOf, meant_fragments};
ghost use Rattle.rule_fragments.specs.Telling.{AddsThese, undefined_spread};

use document_typed_operations::FragmentMap;
use document_typed_selections::Selection;
use fault_data::{DiagnosticData, Fault, tell};
use rule_reach::Reach;
use std::alloc::AllocError;

/// UndefinedFragment: a fragment spread is valid only if the fragment is defined (section 5.5.2.1).
fn undefined_fragment(
    fragments: &FragmentMap,
    selection: &Selection,
    faults: &mut Vec<Fault>,
) -> Result<(), AllocError>
    ensures { OnOk result (AddsThese faults.old faults.new (undefined_spread fragments.now selection.now)) }
{
    let Some(spread) = selection.as_fragment_spread() else {
        return Ok(());
    };
    let name = &spread.content().fragment_name;
    if fragments.contains_key(name) {
        return Ok(());
    }
    let name = name.clone()?;
    let location = spread.location();
    let data = DiagnosticData::UndefinedFragment { name };
    tell(faults, Some(Fault { location, data }))
}

/// Adds UndefinedFragment for each spread that is reached and whose fragment is not defined. Fails if memory is refused.
pub fn check_spreads(
    fragments: &FragmentMap,
    reach: &Reach<'_>,
    faults: &mut Vec<Fault>,
) -> Result<(), AllocError>
    ensures { OnOk result ((d : MeantDocument Place) (o : MeantOperation Place) → IsReachOf d o reach.now → d.fragments ≡ meant_fragments fragments.now → Adds faults.old faults.new (λ f. UndefinedFragmentAt d f o)) }
{
    for (_, selection) in &reach.selections {
        undefined_fragment(fragments, selection, faults)?;
    }
    Ok(())
}
