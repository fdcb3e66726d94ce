//! Telling what breaks the rules of documents that have no data of their own.
ghost use Rattle.std.specs.Prelude.{◌≡◌, ◌↔◌, ◌≤◌, ◌++◌, length, map, IsTrue, OnErr, OnOk, option_to_list};
ghost use Rattle.rule_definitions.specs.Room.{◌⊕◌, most_told};
ghost use Rattle.rule_reach.specs.Broken.{broken_of, brokens_of};

use fault_document_errors::BuildError;
use graphql_names::SourceSpan;
use std::alloc::AllocError;

/// How many of these breaches a call tells at most: as many as faults with data.
const MOST_TOLD: usize = 1_000;

/// Whether there are as many breaches as a call tells.
// A `&Vec` and not a slice: contracts see the breaches of a list.
fn is_full(breaches: &Vec<(Option<SourceSpan>, BuildError)>) -> bool
    ensures { IsTrue result ↔ (most_told ≤ length (brokens_of breaches.now)) }
{
    breaches.len() >= MOST_TOLD
}

/// Tells what a rule found with its place, if it found something and there is room. If memory is refused, the list is
/// unchanged.
#[tactic(auto, using(rule_definitions::proofs::Room::room_full))]
pub fn tell_breach(
    breaches: &mut Vec<(Option<SourceSpan>, BuildError)>,
    breach: Option<(Option<SourceSpan>, BuildError)>,
) -> Result<(), AllocError>
    ensures told { OnOk result (brokens_of breaches.new ≡ brokens_of breaches.old ⊕ map broken_of (option_to_list breach)) }
    ensures kept { OnErr result (brokens_of breaches.new ≡ brokens_of breaches.old) }
{
    match breach {
        None => Ok(()),
        Some(breach) => {
            if is_full(breaches) {
                return Ok(());
            }
            breaches.push(breach)?;
            Ok(())
        }
    }
}

/// Appends what does not merge, if there is something, however long the list is. If memory is refused, the list is
/// unchanged.
pub fn push_breach(
    breaches: &mut Vec<(Option<SourceSpan>, BuildError)>,
    breach: Option<(Option<SourceSpan>, BuildError)>,
) -> Result<(), AllocError>
    ensures told { OnOk result (brokens_of breaches.new ≡ brokens_of breaches.old ++ map broken_of (option_to_list breach)) }
    ensures kept { OnErr result (brokens_of breaches.new ≡ brokens_of breaches.old) }
{
    match breach {
        None => Ok(()),
        Some(breach) => {
            breaches.push(breach)?;
            Ok(())
        }
    }
}
