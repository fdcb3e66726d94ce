//! What a caller that is not Rattle holds and lends: a value in a box as its pointer, texts one after the other with their
//! ends, room for an answer, and stack.
//!
//! For the layer above: a pointer owns the value that its ghost field names (`box_pointer.rt`), texts are cut where they end
//! (`texts.rt`), bytes are put into room that they fit into (`room.rt`), and a nesting is compared with the stack that there is
//! (`stack.rt`).
//!
//! Begin with `specs/Cut.antt`, `specs/Room.antt` and `specs/Stack.antt`.
#![tactic(auto)]

mod box_pointer;
mod room;
mod stack;
mod texts;

pub use box_pointer::BoxPointer;
pub use room::put;
pub use stack::suffices;
pub use texts::{TextsFault, texts_at};
