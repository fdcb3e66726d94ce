//! A list that has each fault once.
ghost use Rattle.std.specs.Prelude.{map, IfOk};
ghost use Rattle.graphql_faults.specs.Once.{KeepsOnce};

use crate::add::add_new;
use crate::told::Told;
use fault_data::MOST_TOLD;
use std::alloc::AllocError;

/// The faults of the list, each once; a list of [`MOST_TOLD`] or more is unchanged.
pub fn each_once<T: Told + Drop>(list: Vec<T>) -> Result<Vec<T>, AllocError>
    ensures { IfOk result (λ kept. KeepsOnce (map T.plain list.items) (map T.plain kept.items)) }
{
    if list.len() >= MOST_TOLD {
        return Ok(list);
    }
    let mut kept = Vec::new(*list.allocator());
    add_new(&mut kept, list)?;
    Ok(kept)
}
