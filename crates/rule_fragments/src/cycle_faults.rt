//! The faults of fragments that spread themselves (section 5.5.2.2).
ghost use Rattle.std.specs.Prelude.{◌≡◌, ◌++◌, map, reverse, IfOk, OnOk, option_to_list};
ghost use Rattle.graphql_names.specs.Places.{Recomposes};
ghost use Rattle.rule_fragments.specs.SpreadViews.{fragment_meant, spread_tree, spread_between};
ghost use Rattle.rule_fragments.specs.CycleFaults.{spread_trace, IsRecursiveFault, IsDeepFault, AddsOne};

use crate::spread_graph::SpreadReferences;
use document_typed_operations::Fragment;
use document_typed_selections::FragmentSpread;
use fault_data::{DiagnosticData, Fault, tell};
use graphql_names::{Node, SourceSpan};
use std::alloc::{AllocError, Global};

/// From the first token of a fragment's definition to its name.
fn head(fragment: &Node<Fragment>) -> Option<SourceSpan>
    ensures { Recomposes (fragment_meant fragment.now).place (fragment_meant fragment.now).name.place result }
{
    SourceSpan::recompose(fragment.location(), fragment.content().name.location())
}

/// Adds the spread by which a fragment first refers to another, if it does.
fn add_spread_between(
    references: &SpreadReferences,
    from: usize,
    to: usize,
    trace: &mut Vec<Node<FragmentSpread>>,
) -> Result<(), AllocError>
    ensures { OnOk result (map spread_tree trace.new.items ≡ map spread_tree trace.old.items ++ option_to_list (spread_between references.now from to)) }
{
    match references.first(from, to) {
        None => Ok(()),
        Some(spread) => {
            trace.push(spread.clone()?)?;
            Ok(())
        }
    }
}

/// The spreads along a path from the root, from the last to the first.
fn spread_trace(
    alloc: Global,
    references: &SpreadReferences,
    root: usize,
    path: &[usize],
) -> Result<Vec<Node<FragmentSpread>>, AllocError>
    ensures { IfOk result (λ r. map spread_tree r.items ≡ spread_trace references.now root path.now) }
{
    let mut trace = Vec::new(alloc);
    let mut from = root;
    for to in path {
        add_spread_between(references, from, *to, &mut trace)?;
        from = *to;
    }
    trace.reverse();
    Ok(trace)
}

/// RecursiveFragmentDefinition: a fragment definition is valid only if no spreads lead from it back to it
/// (section 5.5.2.2). The spreads along the path lead back to this one, whose number is `root`.
pub(crate) fn recursive_fragment_definition(
    fragment: &Node<Fragment>,
    references: &SpreadReferences,
    root: usize,
    path: &[usize],
    faults: &mut Vec<Fault>,
) -> Result<(), AllocError>
    ensures { OnOk result (AddsOne (IsRecursiveFault (spread_trace references.now root path.now)) (fragment_meant fragment.now) faults.old faults.new) }
{
    let trace = spread_trace(*faults.allocator(), references, root, path)?;
    let name = fragment.content().name.clone()?;
    let data = DiagnosticData::RecursiveFragmentDefinition {
        head_location: head(fragment),
        name,
        trace,
    };
    let location = fragment.location();
    tell(faults, Some(Fault { location, data }))
}

/// DeeplyNestedType: a fragment definition is valid only if no path of spreads from it holds more than 100 fragments. A
/// path from this one does.
pub(crate) fn deeply_nested_fragment(
    fragment: &Node<Fragment>,
    faults: &mut Vec<Fault>,
) -> Result<(), AllocError>
    ensures { OnOk result (AddsOne IsDeepFault (fragment_meant fragment.now) faults.old faults.new) }
{
    let name = fragment.content().name.clone()?;
    let data = DiagnosticData::DeeplyNestedType {
        name,
        describe_type: "fragment",
    };
    let location = head(fragment);
    tell(faults, Some(Fault { location, data }))
}
