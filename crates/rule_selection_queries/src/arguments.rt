//! Arguments.
ghost use Rattle.std.specs.Prelude.{◌≡◌, map, IfOk, IfNone, IfSome};
ghost use Rattle.rule_document_definitions.specs.SameValues.{SameGiven, SameArguments, plain_given};
ghost use Rattle.rule_selection_queries.specs.Tests.{entry_pair, argument_pair, arguments_of};

use crate::values::differing_key;
use graphql_names::{Name, Node};
use std::alloc::{AllocError, Global};
use tree_directives::Argument;
use tree_literals::Value;

/// The arguments as entries, which share their names and values.
fn as_entries(
    alloc: Global,
    arguments: &[Node<Argument>],
) -> Result<Vec<(Name, Node<Value>)>, AllocError>
    ensures { IfOk result (λ es. map entry_pair es.items ≡ map argument_pair arguments.now) }
{
    let mut entries = Vec::new(alloc);
    for argument in arguments {
        let given = argument.content();
        let name = given.name.clone()?;
        entries.push((name, given.value.clone()?))?;
    }
    Ok(entries)
}

/// The name of an argument that is given on one side only or with different values, if there is one: of repeated arguments
/// the first counts (section 5.3.2).
pub fn differing_argument(
    alloc: Global,
    a: &[Node<Argument>],
    b: &[Node<Argument>],
) -> Result<Option<Name>, AllocError>
    ensures same { IfOk result (λ r. IfNone r (SameArguments (arguments_of a.now) (arguments_of b.now))) }
    ensures differs { IfOk result (λ r. IfSome r (λ n. SameGiven (plain_given n.text (arguments_of a.now)) (plain_given n.text (arguments_of b.now)) → ⊥)) }
{
    // As the entries of two objects, so that one function compares both.
    let a = as_entries(alloc, a)?;
    let b = as_entries(alloc, b)?;
    differing_key(alloc, &a, &b)
}
