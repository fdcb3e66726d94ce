//! What lists of sets may cost. Sets whose list is not paid are examined in pairs: the members of lists of different sets
//! could be too many, and pairs are no more than sets times sets.
ghost use Rattle.std.specs.Prelude.{◌≡◌, ◌≤◌, ◌+◌, IsTrue, IfSome};
ghost use Rattle.rule_field_groups.specs.Paid.{most_members};

/// By how many steps each field that is met raises the budget.
pub(crate) const FOR_EACH_FIELD: usize = 4;

/// The budget in steps before any field is met.
const AT_FIRST: usize = 200;

/// How many steps are left of the budget of so many fields, once so many are taken.
pub(crate) fn left_of(spent: usize, fields: usize) -> usize {
    let all = fields
        .saturating_mul(FOR_EACH_FIELD)
        .saturating_add(AT_FIRST);
    all.saturating_sub(spent)
}

/// Whether so many steps are within the budget of so many fields.
fn is_within_budget(steps: usize, fields: usize) -> bool
    ensures { IsTrue result → steps ≤ most_members fields }
{
    let more = steps.saturating_sub(AT_FIRST);
    more <= fields.saturating_mul(FOR_EACH_FIELD)
}

/// The new total of steps, or `None` if it is over the budget of so many fields.
pub(crate) fn charge(spent: usize, more: usize, fields: usize) -> Option<usize>
    ensures { IfSome result (λ all. (all ≡ spent + more) × (all ≤ most_members fields)) }
{
    let all = spent.checked_add(more)?;
    if is_within_budget(all, fields) {
        Some(all)
    } else {
        None
    }
}
