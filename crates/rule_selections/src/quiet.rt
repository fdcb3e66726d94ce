//! Whether no fault is told for a selection itself, whatever operation reaches it.
ghost use Rattle.std.specs.Prelude.{IfOk, IsTrue};
ghost use Rattle.rule_selections.specs.Settled.{EntersOnly, IsNoted, IsQuiet};
ghost use Rattle.rule_selections.specs.Telling.{member_there, terms_of, IsRight};

use crate::common::Common;
use crate::selections::check_selection;
use crate::used::uses_new;
use document_typed_selections::Selection;
use graphql_names::Name;
use indexmap::IndexSet;
use rule_reach::has_name;
use std::alloc::{AllocError, Global};
use tree_literals::NamedType;

/// Whether an inline fragment with that condition is known to apply in sets on that type.
fn applies(common: &Common<'_>, ty: &Name, condition: &Name) -> bool
    ensures { IsTrue result → IsNoted common.now.applying.now ty.now.text condition.now.text }
{
    match common.applying.get(ty) {
        None => false,
        Some(conditions) => has_name(conditions, condition),
    }
}

/// Whether the selection of a set on that type is a field, or an inline fragment without a condition or with one that
/// applies there.
fn enters_well(common: &Common<'_>, ty: &NamedType, selection: &Selection) -> bool
    ensures { IsTrue result → EntersOnly (IsNoted common.now.applying.now) (member_there ty.now selection.now) }
{
    match selection {
        Selection::Field(_) => true,
        Selection::FragmentSpread(_) => false,
        Selection::InlineFragment(node) => match &node.content().type_condition {
            None => true,
            Some(condition) => applies(common, ty, condition),
        },
    }
}

/// After so many faults in the selections of a fragment the others are not judged any more: they stay.
const MOST_JUDGED: usize = 4_000;

/// What was found in the selections of a fragment: variables used by those that stay, and how many faults were told.
#[derive(Drop)]
pub(crate) struct Met {
    used: IndexSet<Name>,
    told: usize,
}

impl Met {
    /// Nothing found yet.
    pub(crate) fn new(alloc: Global) -> Met {
        Met {
            used: IndexSet::new(alloc),
            told: 0,
        }
    }
}

/// Whether the selection itself, in a set on that type, breaks no rule under the common variables, and enters a fragment
/// only if that applies; what it selects is not judged. Then it breaks no rule in any operation.
fn is_quiet(
    alloc: Global,
    common: &Common<'_>,
    ty: &NamedType,
    selection: &Selection,
    told: &mut usize,
) -> Result<bool, AllocError>
    requires { IsRight common.now }
    ensures { IfOk result (λ b. IsTrue b → IsQuiet (terms_of common.now) (member_there ty.now selection.now)) }
{
    if !enters_well(common, ty, selection) {
        return Ok(false);
    }
    let mut faults = Vec::new(alloc);
    check_selection(common.schema, ty, selection, common.variables, &mut faults)?;
    *told = told.saturating_add(faults.len());
    Ok(faults.is_empty())
}

/// Whether a quiet selection may be left out: the variables that it uses itself are noted already. It notes them, so the
/// first selection that uses a variable stays.
pub(crate) fn may_go(
    alloc: Global,
    common: &Common<'_>,
    ty: &NamedType,
    selection: &Selection,
    met: &mut Met,
) -> Result<bool, AllocError>
    requires { IsRight common.now }
    ensures { IfOk result (λ b. IsTrue b → IsQuiet (terms_of common.now) (member_there ty.now selection.now)) }
{
    if met.told >= MOST_JUDGED || !is_quiet(alloc, common, ty, selection, &mut met.told)? {
        return Ok(false);
    }
    Ok(!uses_new(selection, &mut met.used)?)
}
