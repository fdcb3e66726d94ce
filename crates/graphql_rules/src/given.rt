//! Rules on directives, and on arguments and variables by themselves.
ghost use Rattle.std.specs.Prelude.{◌≡◌, ◌↔◌, ⊤, List, IfOk, OnOk, OnErr, IsTrue};
ghost use Rattle.std.specs.Iterator.{DrainsIf};
ghost use Rattle.tree_directives.specs.Iterators.{CanBeDrained};
ghost use Rattle.rule_arguments.specs.Alone.{ArgumentsBreak};
ghost use Rattle.rule_arguments.specs.Trees.{arguments_of, directives_of};
ghost use Rattle.graphql_faults.specs.DetailsView.{diagnostics_of, BeginsAs};
ghost use Rattle.graphql_rules.specs.Appends.{Appends};
ghost use Rattle.graphql_rules.specs.Given.{Each, LeadsToDirective, UsesTold, UsageTold};

use graphql_faults::DiagnosticList;
use graphql_names::Node;
use rule_arguments::{DefinedVariables, check_arguments_alone, check_directives, usage_fault};
use rule_cycles::Schema;
use std::alloc::{AllocError, Global};
use std::ops::Deref;
use tree_directives::{Argument, Directive, DirectiveLocation, InputValueDefinition};
use tree_operations::VariableDefinition;

/// The nodes that the iterator gives, in order.
fn nodes_of<D: Deref<Target = Node<Directive>> + Drop, I: IntoIterator<Item = D>>(
    alloc: Global,
    directives: I,
) -> Result<Vec<Node<Directive>>, AllocError>
    requires { CanBeDrained I.into_iter_gives I.IntoIter.can_next I.IntoIter.remaining I.IntoIter.next_gives directives }
    ensures { IfOk result (λ nodes. (it : I.IntoIter) × (I.into_iter_gives directives it × ((all : List D) × (DrainsIf I.IntoIter.next_gives ⊤ it all × Each (LeadsToDirective D.deref_gives) all (directives_of nodes.items))))) }
{
    let mut nodes = Vec::new(alloc);
    for directive in directives {
        nodes.push(directive.deref().clone()?)?;
    }
    Ok(nodes)
}

/// Tells the faults of the directives that are used at one place of a schema or a document (section 5.7):
/// UniqueDirective, UndefinedDirective, UnsupportedLocation, and the rules on their arguments. `variables` are those of
/// the operation, or none. Any iterator gives the directives: its items are references to nodes, or lead to nodes.
/// Without a schema each directive is undefined. It tells the first 1,000 of them. After a refusal the list begins as before.
pub fn validate_directives<D: Deref<Target = Node<Directive>> + Drop, I: IntoIterator<Item = D>>(
    alloc: Global,
    list: &mut DiagnosticList,
    schema: Option<&Schema>,
    directives: I,
    location: DirectiveLocation,
    variables: &[Node<VariableDefinition>],
) -> Result<(), AllocError>
    requires { CanBeDrained I.into_iter_gives I.IntoIter.can_next I.IntoIter.remaining I.IntoIter.next_gives directives }
    ensures told { OnOk result (UsesTold I.into_iter_gives I.IntoIter.next_gives D.deref_gives directives schema.entry variables.now location list.old list.new) }
    ensures begins { OnErr result (BeginsAs (diagnostics_of list.old) (diagnostics_of list.new)) }
{
    // The rules take a slice, so the nodes that the iterator gives are collected. They are shared, not copied.
    let nodes = nodes_of(alloc, directives)?;
    let mut faults = Vec::new(alloc);
    let variables = DefinedVariables::new(alloc, variables)?;
    check_directives(schema, &nodes, location, &variables, &mut faults)?;
    list.append_faults(faults)
}

/// Tells each argument whose name an earlier one has (UniqueArgument, section 5.4.2). Tells each key that an object
/// inside an argument has before (UniqueInputValue, section 5.6.3). It tells the first 1,000 of these. After a refusal the
/// list begins as before.
pub fn validate_arguments(
    alloc: Global,
    list: &mut DiagnosticList,
    arguments: &[Node<Argument>],
) -> Result<(), AllocError>
    ensures told { OnOk result (Appends (diagnostics_of list.old) (diagnostics_of list.new) (ArgumentsBreak (arguments_of arguments.now))) }
    ensures begins { OnErr result (BeginsAs (diagnostics_of list.old) (diagnostics_of list.new)) }
{
    let mut faults = Vec::new(alloc);
    check_arguments_alone(arguments, &mut faults)?;
    list.append_faults(faults)
}

/// Whether what is given for an argument may be given there. It may not if it is one of `variables` whose type does not
/// fit (DisallowedVariableUsage, section 5.8.5): this is told, and the answer is false. After a refusal the list is as
/// before.
pub fn validate_variable_usage(
    list: &mut DiagnosticList,
    definition: &Node<InputValueDefinition>,
    variables: &[Node<VariableDefinition>],
    argument: &Node<Argument>,
) -> Result<bool, AllocError>
    ensures told { OnOk result (UsageTold variables.now definition.now argument.now (diagnostics_of list.old) (diagnostics_of list.new)) }
    ensures silent { IfOk result (λ b. IsTrue b ↔ (diagnostics_of list.new ≡ diagnostics_of list.old)) }
    ensures kept { OnErr result (diagnostics_of list.new ≡ diagnostics_of list.old) }
{
    let variables = DefinedVariables::listed(variables);
    let fault = usage_fault(argument, definition.content(), &variables)?;
    match fault {
        None => Ok(true),
        Some(fault) => {
            list.push_fault(fault)?;
            Ok(false)
        }
    }
}
