//! The faults of input objects that lead back to themselves (section 3.10).
ghost use Rattle.std.specs.Prelude.{◌≡◌, map, reverse, IfOk, OnOk};
ghost use Rattle.graphql_names.specs.Placed.{node_tree};
ghost use Rattle.tree_directives.specs.DirectiveTree.{input_value_tree};
ghost use Rattle.rule_cycles.specs.Trees.{schema_of};
ghost use Rattle.rule_cycles.specs.Adds.{AddsSuch};
ghost use Rattle.rule_cycles.specs.Labels.{along};
ghost use Rattle.rule_cycles.specs.ReferenceViews.{field_between, AddsField};
ghost use Rattle.rule_cycles.specs.InputGraph.{AreInputReferences};
ghost use Rattle.rule_cycles.specs.FaultLists.{TellsInput, TellsDeepInput};

use crate::inputs::InputReferences;
use crate::rule_context::RuleContext;
use fault_data::{DiagnosticData, Fault, tell};
use graphql_names::Node;
use std::alloc::{AllocError, Global};
use tree_directives::InputValueDefinition;

/// Adds the field by which an input object first refers to another, if there is one.
fn add_field_between(
    references: &InputReferences,
    from: usize,
    to: usize,
    trace: &mut Vec<Node<InputValueDefinition>>,
) -> Result<(), AllocError>
    ensures { OnOk result (AddsField trace.old trace.new (field_between references.now from to)) }
{
    match references.first(from, to) {
        None => Ok(()),
        Some(field) => {
            trace.push(field.clone()?)?;
            Ok(())
        }
    }
}

/// The fields by which a path from the root refers, from the last to the first.
fn input_trace(
    alloc: Global,
    references: &InputReferences,
    root: usize,
    path: &[usize],
) -> Result<Vec<Node<InputValueDefinition>>, AllocError>
    ensures { IfOk result (λ r. map (node_tree input_value_tree) r.items ≡ reverse (along (field_between references.now) root path.now)) }
{
    let mut trace = Vec::new(alloc);
    let mut from = root;
    for to in path {
        add_field_between(references, from, *to, &mut trace)?;
        from = *to;
    }
    trace.reverse();
    Ok(trace)
}

/// RecursiveInputObjectDefinition: an input object type is valid only if no fields of type `Name!` lead from it back to it
/// (section 3.10). Such fields lead from that of the number back to it, along the path.
pub(crate) fn recursive_input_object_definition(
    judging: &RuleContext<'_>,
    references: &InputReferences,
    root: usize,
    path: &[usize],
    faults: &mut Vec<Fault>,
) -> Result<(), AllocError>
    requires { AreInputReferences (schema_of judging.now) references.now }
    ensures { OnOk result (AddsSuch faults.old faults.new (TellsInput (schema_of judging.now) root path.now)) }
{
    match judging.schema.types.get_index(root) {
        None => Ok(()),
        Some((name, ty)) => {
            let trace = input_trace(judging.alloc, references, root, path)?;
            let name = name.clone()?;
            tell(
                faults,
                Some(Fault {
                    location: ty.location(),
                    data: DiagnosticData::RecursiveInputObjectDefinition { name, trace },
                }),
            )
        }
    }
}

/// DeeplyNestedType: an input object type is valid only if no path from it through fields of type `Name!` holds more than
/// 32 input objects. A path from that of the number does.
pub(crate) fn deeply_nested_input_object(
    judging: &RuleContext<'_>,
    root: usize,
    faults: &mut Vec<Fault>,
) -> Result<(), AllocError>
    ensures { OnOk result (AddsSuch faults.old faults.new (TellsDeepInput (schema_of judging.now) root)) }
{
    match judging.schema.types.get_index(root) {
        None => Ok(()),
        Some((name, ty)) => {
            let name = name.clone()?;
            tell(
                faults,
                Some(Fault {
                    location: ty.location(),
                    data: DiagnosticData::DeeplyNestedType {
                        name,
                        describe_type: "input object",
                    },
                }),
            )
        }
    }
}
