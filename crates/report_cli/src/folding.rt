//! What is printed of many faults.

ghost use Rattle.std.specs.Prelude.{◌≡◌, ◌+◌, ◌++◌, ◌<◌, ◌^◌, ℕ, List, length, map, IfOk, OnOk, if◌then◌else◌};
ghost use Rattle.report_cli.specs.Folding.{repeats, causes_after, usage_after, cause_text, is_cause, count_of, before_of, printed_when, printed_up_to, IsFolded, noted};

use report_forms::{Entry, Position};
use std::alloc::{AllocError, Global};
use std::collections::HashMap;

/// How many faults with one message are printed.
const MOST: usize = 5;

/// An entry that is printed.
#[derive(Clone, Copy)]
pub struct Printed {
    /// Its index.
    pub index: usize,
    /// How many entries with its message come after it that are not printed.
    pub more: usize,
}

/// What is printed of these entries: of those with one message the first five, the last of them with the number of the
/// others; and no fault of a value that is a variable whose usage is told.
pub fn folded(alloc: Global, entries: &[Entry]) -> Result<Vec<Printed>, AllocError>
    ensures { IfOk result (λ printed. IsFolded (causes_after None entries.now) printed.items) }
{
    let causes = causes_of(alloc, entries)?;
    let printed = folded_causes(alloc, &causes)?;
    Ok(printed)
}

/// The message of each entry that is not left out, in order.
fn causes_of<'a>(alloc: Global, entries: &'a [Entry]) -> Result<Vec<Option<&'a str>>, AllocError>
    ensures { IfOk result (λ causes. map cause_text causes.items ≡ causes_after None entries.now) }
{
    let mut causes = Vec::new(alloc);
    let mut usage = None;
    for entry in entries {
        let cause = if repeats(usage, entry) {
            None
        } else {
            Some(entry.message.as_str())
        };
        causes.push(cause)?;
        usage = usage_after(usage, entry);
    }
    Ok(causes)
}

/// Whether the entry is a fault of a value that ends where the last usage does: an argument ends where its value does.
fn repeats(usage: Option<Position>, entry: &Entry) -> bool
    ensures { result ≡ repeats usage entry.now }
{
    match (usage, entry.place) {
        (Some(end), Some(place)) => entry.rule == "UnsupportedValueType" && place.end == end,
        _ => false,
    }
}

/// Where the last told usage of a variable ends, after this entry.
fn usage_after(usage: Option<Position>, entry: &Entry) -> Option<Position>
    ensures { result ≡ usage_after usage entry.now }
{
    match entry.place {
        Some(place) if entry.rule == "DisallowedVariableUsage" => Some(place.end),
        _ => usage,
    }
}

/// What is printed of entries with these messages; those that are left out have none.
fn folded_causes(alloc: Global, causes: &[Option<&str>]) -> Result<Vec<Printed>, AllocError>
    ensures { IfOk result (λ printed. printed.items ≡ printed_up_to (map cause_text causes.now) (length causes.now)) }
{
    let totals = totals(alloc, causes)?;
    let mut seen = HashMap::new(alloc);
    let mut printed = Vec::new(alloc);
    for (index, cause) in causes.iter().enumerate() {
        let before = note(&mut seen, *cause)?;
        push_printed(&mut printed, &totals, index, *cause, before)?;
    }
    Ok(printed)
}

/// Adds what is printed of the entry of this index, if so many before it have its message: the first five of all, and with
/// the last of these the number of the others.
fn push_printed(
    printed: &mut Vec<Printed>,
    totals: &HashMap<&str, usize>,
    index: usize,
    cause: Option<&str>,
    before: usize,
) -> Result<(), AllocError>
    ensures { OnOk result (printed.new.items ≡ printed.old.items ++ printed_when (noted totals.now) index before (cause_text cause.entry)) }
{
    let Some(message) = cause else {
        return Ok(());
    };
    if before >= MOST {
        return Ok(());
    }
    let total = totals.get(message).copied().unwrap_or(0);
    let more = if before == MOST - 1 {
        total.saturating_sub(MOST)
    } else {
        0
    };
    printed.push(Printed { index, more })?;
    Ok(())
}

/// How often each message occurs.
fn totals<'a>(
    alloc: Global,
    causes: &[Option<&'a str>],
) -> Result<HashMap<&'a str, usize>, AllocError>
    ensures { IfOk result (λ totals. (q : List ℕ) → noted totals q ≡ count_of q (map cause_text causes.now)) }
{
    let mut totals = HashMap::new(alloc);
    for cause in causes {
        note(&mut totals, *cause)?;
    }
    Ok(totals)
}

/// Notes a message, if there is one: how often it was noted before.
fn note<'a>(
    counts: &mut HashMap<&'a str, usize>,
    cause: Option<&'a str>,
) -> Result<usize, AllocError>
    requires { (q : List ℕ) → noted counts.old q + 1 < 2 ^ 64 }
    ensures before { IfOk result (λ before. before ≡ before_of (noted counts.old) (cause_text cause.entry)) }
    ensures after { OnOk result ((q : List ℕ) → noted counts.new q ≡ noted counts.old q + (if is_cause q (cause_text cause.entry) then 1 else 0)) }
{
    let Some(message) = cause else {
        return Ok(0);
    };
    let before = counts.get(message).copied().unwrap_or(0);
    counts.insert(message, before + 1)?;
    Ok(before)
}
