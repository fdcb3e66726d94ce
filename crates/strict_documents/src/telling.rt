//! One departure is told.
ghost use Rattle.std.specs.Prelude.{◌++◌, map, OnOk, option_to_list};
ghost use Rattle.strict_documents.specs.DepartureViews.{Tells, departure_tree};

use crate::departure::Departure;
use std::alloc::AllocError;

/// How many departures a call tells at most.
const MOST_TOLD: usize = 1_000;

/// Adds the departure, if there is one and fewer than 1,000 are told.
pub fn tell(departures: &mut Vec<Departure>, departure: Option<Departure>) -> Result<(), AllocError>
    ensures { OnOk result (Tells departures.old departures.new (map departure_tree (option_to_list departure))) }
{
    let Some(departure) = departure else {
        return Ok(());
    };
    if departures.len() >= MOST_TOLD {
        return Ok(());
    }
    departures.push(departure)?;
    Ok(())
}
