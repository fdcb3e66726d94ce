//! What is known of the arguments and input fields that a schema defines, if they are many (sections 3.6.1, 3.10 and 3.13): the
//! index of each name, and which of them are required. Each definition is read once, so that the cost of a use depends on what it
//! gives and what it has to give, and not on all that is defined.
//!
//! For the layers above: `SchemaInputs` is made from a schema (`AreInputsOf` of `specs/Inputs.antt`), and finds what is known by
//! name; `DefinedArguments` and `FoundType` are what is defined, with what is known of it.
//!
//! Begin with `inputs.rt`, then `known.rt`.
#![tactic(auto)]

mod arguments;
mod firsts;
mod found;
mod inputs;
mod known;

pub use arguments::DefinedArguments;
pub use firsts::note_first;
pub use found::FoundType;
pub use inputs::SchemaInputs;
pub use known::{FEW, KnownArguments, definition_numbers};
