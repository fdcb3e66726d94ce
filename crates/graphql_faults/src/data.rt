//! When the data of two faults are the same.
ghost use Rattle.std.specs.Prelude.{◌≡◌, ◌↔◌, ◌<◌, IsTrue, length, slice_index_or, None};
ghost use Rattle.fault_data.specs.DiagnosticView.{diagnostic_of};
ghost use Rattle.graphql_faults.specs.TracePlaces.{trace_places};

use fault_data::DiagnosticData;
use graphql_names::SourceSpan;

/// Whether two are the same, their places included: also those of the nodes of a trace, which `==` ignores.
pub fn is_same_data(one: &DiagnosticData, other: &DiagnosticData) -> bool
    ensures { IsTrue result ↔ (diagnostic_of one.now ≡ diagnostic_of other.now) }
{
    *one == *other && are_at_same_places(one, other)
}

/// Whether the nodes of two traces are at the same places. Data without a trace have no such places.
fn are_at_same_places(one: &DiagnosticData, other: &DiagnosticData) -> bool
    ensures { IsTrue result ↔ (trace_places one.now ≡ trace_places other.now) }
{
    let count = trace_len(one);
    if count != trace_len(other) {
        return false;
    }
    for index in 0..count {
        if trace_place(one, index) != trace_place(other, index) {
            return false;
        }
    }
    true
}

/// How many nodes the trace has.
fn trace_len(diagnostic: &DiagnosticData) -> usize
    ensures { result ≡ length (trace_places diagnostic.now) }
{
    match diagnostic {
        DiagnosticData::RecursiveInputObjectDefinition { trace, .. } => trace.len(),
        DiagnosticData::RecursiveDirectiveDefinition { trace, .. } => trace.len(),
        DiagnosticData::RecursiveFragmentDefinition { trace, .. } => trace.len(),
        _ => 0,
    }
}

/// The place of a node of the trace.
fn trace_place(diagnostic: &DiagnosticData, index: usize) -> Option<SourceSpan>
    requires { index < length (trace_places diagnostic.now) }
    ensures { result ≡ slice_index_or (trace_places diagnostic.now) index None }
{
    match diagnostic {
        DiagnosticData::RecursiveInputObjectDefinition { trace, .. } => trace[index].location(),
        DiagnosticData::RecursiveDirectiveDefinition { trace, .. } => trace[index].location(),
        DiagnosticData::RecursiveFragmentDefinition { trace, .. } => trace[index].location(),
        _ => None,
    }
}
