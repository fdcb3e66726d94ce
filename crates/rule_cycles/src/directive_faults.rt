//! The faults of directives that reach themselves (section 3.13).
ghost use Rattle.std.specs.Prelude.{◌≡◌, map, reverse, IfOk, OnOk};
ghost use Rattle.graphql_names.specs.Placed.{node_tree};
ghost use Rattle.graphql_names.specs.Places.{Recomposes};
ghost use Rattle.tree_directives.specs.DirectiveTree.{directive_tree, directive_definition_tree};
ghost use Rattle.rule_cycles.specs.Trees.{schema_of};
ghost use Rattle.rule_cycles.specs.Adds.{AddsSuch};
ghost use Rattle.rule_cycles.specs.Labels.{along};
ghost use Rattle.rule_cycles.specs.UseViews.{use_between, AddsDirective};
ghost use Rattle.rule_cycles.specs.UseGraph.{AreUseReferences};
ghost use Rattle.rule_cycles.specs.DirectiveFaults.{directives_of, TellsDirective, TellsDeepDirective};

use crate::rule_context::RuleContext;
use crate::uses::UseReferences;
use fault_data::{DiagnosticData, Fault, tell};
use graphql_names::{Node, SourceSpan};
use std::alloc::{AllocError, Global};
use tree_directives::{Directive, DirectiveDefinition};

/// From the first token of a directive's definition to its name.
fn head(definition: &Node<DirectiveDefinition>) -> Option<SourceSpan>
    ensures { Recomposes (node_tree directive_definition_tree definition.now).place (node_tree directive_definition_tree definition.now).it.name.place result }
{
    SourceSpan::recompose(definition.location(), definition.content().name.location())
}

/// Adds the directive that makes the first reference from one definition to another, if a directive makes it.
fn add_use_between(
    references: &UseReferences,
    from: usize,
    to: usize,
    trace: &mut Vec<Node<Directive>>,
) -> Result<(), AllocError>
    ensures { OnOk result (AddsDirective trace.old trace.new (use_between references.now from to)) }
{
    match references.first(from, to) {
        Some(Some(directive)) => {
            trace.push(directive.clone()?)?;
            Ok(())
        }
        _ => Ok(()),
    }
}

/// The directives by which a path from the root refers, from the last to the first.
fn use_trace(
    alloc: Global,
    references: &UseReferences,
    root: usize,
    path: &[usize],
) -> Result<Vec<Node<Directive>>, AllocError>
    ensures { IfOk result (λ r. map (node_tree directive_tree) r.items ≡ reverse (directives_of (along (use_between references.now) root path.now))) }
{
    let mut trace = Vec::new(alloc);
    let mut from = root;
    for to in path {
        add_use_between(references, from, *to, &mut trace)?;
        from = *to;
    }
    trace.reverse();
    Ok(trace)
}

/// RecursiveDirectiveDefinition: a directive definition is valid only if it does not lead back to itself (section 3.13).
/// That of the number does, along the path.
pub(crate) fn recursive_directive_definition(
    judging: &RuleContext<'_>,
    references: &UseReferences,
    root: usize,
    path: &[usize],
    faults: &mut Vec<Fault>,
) -> Result<(), AllocError>
    requires { AreUseReferences (schema_of judging.now) references.now }
    ensures { OnOk result (AddsSuch faults.old faults.new (TellsDirective (schema_of judging.now) root path.now)) }
{
    match judging.schema.directive_definitions.get_index(root) {
        None => Ok(()),
        Some((name, definition)) => {
            let trace = use_trace(judging.alloc, references, root, path)?;
            let name = name.clone()?;
            tell(
                faults,
                Some(Fault {
                    location: head(definition),
                    data: DiagnosticData::RecursiveDirectiveDefinition { name, trace },
                }),
            )
        }
    }
}

/// DeeplyNestedType: a directive definition is valid only if no path from it holds more than 32 directives or more than 32
/// types. A path from that of the number does.
pub(crate) fn deeply_nested_directive(
    judging: &RuleContext<'_>,
    root: usize,
    faults: &mut Vec<Fault>,
) -> Result<(), AllocError>
    ensures { OnOk result (AddsSuch faults.old faults.new (TellsDeepDirective (schema_of judging.now) root)) }
{
    match judging.schema.directive_definitions.get_index(root) {
        None => Ok(()),
        Some((name, definition)) => {
            let name = name.clone()?;
            tell(
                faults,
                Some(Fault {
                    location: head(definition),
                    data: DiagnosticData::DeeplyNestedType {
                        name,
                        describe_type: "directive",
                    },
                }),
            )
        }
    }
}
