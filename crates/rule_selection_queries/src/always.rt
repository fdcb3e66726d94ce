//! The selections that an operation always reaches: to each of them leads some path on which nothing may be left out.
ghost use Rattle.std.specs.Prelude.{◌≡◌, ◌++◌, true, option_to_list, IfOk, OnOk};
ghost use Rattle.std.specs.Option.{option_map};
ghost use Rattle.graphql_names.specs.Placed.{node_tree};
ghost use Rattle.tree_directives.specs.DirectiveTree.{directive_tree};
ghost use Rattle.rule_document_definitions.specs.DeferUses.{literal_if};
ghost use Rattle.spec_document.specs.MeantTree.{meant_of_set};
ghost use Rattle.document_typed_selections.specs.TypedTree.{typed_set_tree};
ghost use Rattle.document_typed_operations.specs.WalkView.{fragments_tree};
ghost use Rattle.rule_reach.specs.in_typed_operations.DocumentView.{document_meant, operation_meant};
ghost use Rattle.rule_reach.specs.NotedNames.{noted_names};
ghost use Rattle.rule_selection_queries.specs.Always.{always_in, AreAlways, to_enter};
ghost use Rattle.rule_selection_queries.specs.Inside.{contents_of};
ghost use Rattle.rule_selection_queries.specs.Stays.{leaves_out, stays};
ghost use Rattle.rule_selection_queries.specs.Lent.{lent, lent_all};

use document_typed_operations::{ExecutableDocument, FragmentMap, Operation};
use document_typed_selections::{Selection, SelectionSet};
use graphql_names::{Name, Node};
use indexmap::IndexSet;
use std::alloc::{AllocError, Global};
use tree_directives::Directive;

/// The literal that is given to a directive as `if`, if it is one.
fn literal_if(directive: &Node<Directive>) -> Option<bool>
    ensures { result ≡ literal_if (node_tree directive_tree directive.now) }
{
    let value = directive.content().specified_argument_by_name("if")?;
    value.content().to_bool()
}

/// Whether the directive may leave out what it is on: `@skip` if not literally `false`, `@include` if not literally
/// `true` (sections 3.13.1 and 3.13.2).
fn leaves_out(directive: &Node<Directive>) -> bool
    ensures { result ≡ leaves_out (node_tree directive_tree directive.now) }
{
    let name = directive.content().name.as_str();
    let literal = literal_if(directive);
    // The value of a variable is not known here, so it counts as one that leaves out.
    (name == "skip" && literal.unwrap_or(true)) || (name == "include" && !literal.unwrap_or(false))
}

/// Whether the selection is never left out by a directive of its own.
fn stays(selection: &Selection) -> bool
    ensures { result ≡ stays (lent selection.now) }
{
    let directives = selection.directives().as_slice();
    for directive in directives {
        if leaves_out(directive) {
            return false;
        }
    }
    true
}

/// Adds the selections of the set that stay, in the order of the text, those of each before those after it. Spreads are not
/// entered.
#[cycle(staying)]
fn push_staying(set: &SelectionSet, found: &mut Vec<Selection>) -> Result<(), AllocError>
    ensures { OnOk result (lent_all found.new.items ≡ lent_all found.old.items ++ always_in (meant_of_set (typed_set_tree set.now))) }
{
    for selection in &set.selections {
        push_if_staying(selection, found)?;
    }
    Ok(())
}

/// Adds the selection, if it stays, and those in it.
#[cycle(staying)]
fn push_if_staying(selection: &Selection, found: &mut Vec<Selection>) -> Result<(), AllocError>
    ensures { OnOk result (lent_all found.new.items ≡ lent_all found.old.items ++ contents_of true stays (lent selection.now)) }
{
    if !stays(selection) {
        return Ok(());
    }
    found.push(selection.clone()?)?;
    match selection {
        Selection::Field(field) => push_staying(&field.content().selection_set, found),
        Selection::FragmentSpread(_) => Ok(()),
        Selection::InlineFragment(inline) => push_staying(&inline.content().selection_set, found),
    }
}

/// Notes that the fragment which the selection spreads is entered, and returns its set, if there is one and it was not
/// entered yet.
fn enter<'doc>(
    selection: &Selection,
    fragments: &'doc FragmentMap,
    entered: &mut IndexSet<Name>,
) -> Result<Option<&'doc SelectionSet>, AllocError>
    ensures set { IfOk result (λ r. option_map (λ s. typed_set_tree s.now) r ≡ option_map (λ f. f.1) (to_enter (fragments_tree fragments.now) (noted_names entered.old) (lent selection.now))) }
    ensures noted { OnOk result (noted_names entered.new ≡ noted_names entered.old ++ option_to_list (option_map (λ f. f.0) (to_enter (fragments_tree fragments.now) (noted_names entered.old) (lent selection.now)))) }
{
    let Some(spread) = selection.as_fragment_spread() else {
        return Ok(None);
    };
    let name = &spread.content().fragment_name;
    let Some(fragment) = fragments.get(name) else {
        return Ok(None);
    };
    if entered.insert(name.clone()?)? {
        return Ok(Some(&fragment.content().selection_set));
    }
    Ok(None)
}

/// The selections that the operation always reaches: to each leads some path of selections of which none has a `@skip` or
/// `@include` that may leave it out. No fragment is entered twice. They are copies that share their contents. Fails if memory
/// is refused.
pub fn always_reached(
    alloc: Global,
    document: &ExecutableDocument,
    operation: &Node<Operation>,
) -> Result<Vec<Selection>, AllocError>
    ensures { IfOk result (λ found. AreAlways (document_meant document.now) (operation_meant operation.now) (lent_all found.items)) }
{
    let fragments = &document.fragments;
    let mut found = Vec::new(alloc);
    push_staying(&operation.content().selection_set, &mut found)?;
    let mut entered = IndexSet::new(alloc);
    let mut passed = 0;
    // Not `for`: the list grows during the walk.
    'walk: while passed < found.len() {
        if let Some(set) = enter(&found[passed], fragments, &mut entered)? {
            push_staying(set, &mut found)?;
        }
        passed += 1;
    }
    Ok(found)
}
