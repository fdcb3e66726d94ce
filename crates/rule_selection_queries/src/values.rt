//! Values.
ghost use Rattle.std.specs.Prelude.{◌≡◌, ◌↔◌, ◌||◌, [], not, IsTrue, IfOk, OnOk, bytes_eq, if◌then◌else◌, false, Some, None};
ghost use Rattle.std.specs.List.{list_any};
ghost use Rattle.std.specs.Option.{option_map, option_map_or, option_or};
ghost use Rattle.indexmap.specs.IndexSet.{insert_key};
ghost use Rattle.graphql_names.specs.Node.{content};
ghost use Rattle.tree_literals.specs.ValueTree.{value_tree, unplaced_value};
ghost use Rattle.rule_document_definitions.specs.SameValues.{SameValue};
ghost use Rattle.rule_selection_queries.specs.Tests.{plain, plain_items, plain_entries, noted_names, value_under, AreFirsts, unseen_key, same, same_items, differing_key};

use graphql_names::{Name, Node};
use graphql_values::laws::equal_values;
use indexmap::{IndexMap, IndexSet};
use std::alloc::{AllocError, Global};
use tree_literals::Value;

/// Whether the two values have the same text, wherever they are written: numbers are compared by their digits, strings by
/// their value, lists item by item, objects by the first value of each key (section 5.3.2).
pub fn same_value(alloc: Global, a: &Value, b: &Value) -> Result<bool, AllocError>
    ensures { IfOk result (λ r. IsTrue r ↔ SameValue (unplaced_value (value_tree a.now)) (unplaced_value (value_tree b.now))) }
{
    is_same(alloc, a, b)
}

/// Whether two values are the same.
#[cycle(same)]
#[tactic(auto, using(tree_literals::proofs::Trees::value_tree_rules))]
fn is_same(alloc: Global, a: &Value, b: &Value) -> Result<bool, AllocError>
    ensures { IfOk result (λ r. r ≡ same (plain a.now) (plain b.now)) }
{
    match a {
        Value::List(items) => match b {
            Value::List(others) => same_items(alloc, items, others),
            _ => Ok(false),
        },
        Value::Object(entries) => match b {
            Value::Object(others) => Ok(differing_key(alloc, entries, others)?.is_none()),
            _ => Ok(false),
        },
        // By kind and text: `1` and `1.0` differ, although they are the same Float.
        _ => Ok(equal_values(a, b)),
    }
}

/// Whether two lists have the same length and the same values, item by item.
#[cycle(same)]
fn same_items(alloc: Global, a: &[Node<Value>], b: &[Node<Value>]) -> Result<bool, AllocError>
    ensures { IfOk result (λ r. r ≡ same_items (plain_items a.now) (plain_items b.now)) }
{
    // Not `zip`, which ends with the shorter list.
    let mut others = b;
    for item in a {
        let Some((other, rest)) = others.split_first() else {
            return Ok(false);
        };
        if !is_same(alloc, item.content(), other.content())? {
            return Ok(false);
        }
        others = rest;
    }
    Ok(others.is_empty())
}

/// A key whose first value is missing in one of two objects or differs between them, if there is such a key.
#[cycle(same)]
pub(crate) fn differing_key(
    alloc: Global,
    a: &[(Name, Node<Value>)],
    b: &[(Name, Node<Value>)],
) -> Result<Option<Name>, AllocError>
    ensures { IfOk result (λ r. option_map (λ n. n.text) r ≡ differing_key [] (plain_entries a.now) (plain_entries b.now)) }
{
    // The map and the set are owned here and borrowed by the loop.
    let firsts = first_values(alloc, b)?;
    let mut seen = IndexSet::new(alloc);
    differing_among(alloc, a, b, &firsts, &mut seen)
}

/// The same, given the first values of the second object, ignoring the keys that were seen before.
#[cycle(same)]
fn differing_among(
    alloc: Global,
    a: &[(Name, Node<Value>)],
    b: &[(Name, Node<Value>)],
    firsts: &IndexMap<Name, Node<Value>>,
    seen: &mut IndexSet<Name>,
) -> Result<Option<Name>, AllocError>
    requires { AreFirsts firsts.now (plain_entries b.now) }
    ensures { IfOk result (λ r. option_map (λ n. n.text) r ≡ differing_key (noted_names seen.old) (plain_entries a.now) (plain_entries b.now)) }
{
    for entry in a {
        if !passes(alloc, &entry.0, entry.1.content(), firsts, seen)? {
            return Ok(Some(entry.0.clone()?));
        }
    }
    unseen_key(seen, b)
}

/// Notes a key. Returns whether it was seen before, or its value is the same as the first value under it.
#[cycle(same)]
fn passes(
    alloc: Global,
    key: &Name,
    value: &Value,
    firsts: &IndexMap<Name, Node<Value>>,
    seen: &mut IndexSet<Name>,
) -> Result<bool, AllocError>
    ensures passes { IfOk result (λ r. r ≡ (list_any (bytes_eq key.now.text) (noted_names seen.old) || option_map_or (same (plain value.now)) (value_under key.now firsts.now) false)) }
    ensures noted { OnOk result (noted_names seen.new ≡ insert_key bytes_eq (noted_names seen.old) key.now.text) }
{
    if !note(seen, key)? {
        return Ok(true);
    }
    match firsts.get(key) {
        Some(first) => is_same(alloc, value, first.content()),
        None => Ok(false),
    }
}

/// Notes a name. Returns whether it is new.
// Not inlined, so that its locals take no stack at each level of a nested value.
#[inline(never)]
fn note(names: &mut IndexSet<Name>, name: &Name) -> Result<bool, AllocError>
    ensures new { IfOk result (λ r. r ≡ not (list_any (bytes_eq name.now.text) (noted_names names.old))) }
    ensures noted { OnOk result (noted_names names.new ≡ insert_key bytes_eq (noted_names names.old) name.now.text) }
{
    let name = name.clone()?;
    Ok(names.insert(name)?)
}

/// The first key that is not among the names.
fn unseen_key(
    names: &IndexSet<Name>,
    entries: &[(Name, Node<Value>)],
) -> Result<Option<Name>, AllocError>
    ensures { IfOk result (λ r. option_map (λ n. n.text) r ≡ unseen_key (noted_names names.now) (plain_entries entries.now)) }
{
    for entry in entries {
        if !names.contains(&entry.0) {
            return Ok(Some(entry.0.clone()?));
        }
    }
    Ok(None)
}

/// The value of the first entry under each key.
// Not inlined, so that its locals take no stack at each level of a nested value.
#[inline(never)]
fn first_values(
    alloc: Global,
    entries: &[(Name, Node<Value>)],
) -> Result<IndexMap<Name, Node<Value>>, AllocError>
    ensures { IfOk result (λ firsts. AreFirsts firsts (plain_entries entries.now)) }
{
    let mut firsts = IndexMap::new(alloc);
    for entry in entries {
        note_value(&mut firsts, entry)?;
    }
    Ok(firsts)
}

/// Notes the value of an entry under its key, unless the key already has one.
fn note_value(
    firsts: &mut IndexMap<Name, Node<Value>>,
    entry: &(Name, Node<Value>),
) -> Result<(), AllocError>
    ensures { OnOk result ((n : _) → value_under n firsts.new ≡ option_or (value_under n firsts.old) (if bytes_eq entry.now.0.text n.text then Some (plain (content entry.now.1)) else None)) }
{
    if firsts.contains_key(&entry.0) {
        return Ok(());
    }
    let value = entry.1.clone()?;
    firsts.insert(entry.0.clone()?, value)?;
    Ok(())
}
