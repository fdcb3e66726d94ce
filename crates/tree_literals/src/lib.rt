//! The base of the printer, and the first trees: values and references to types.
//!
//! For the layers above: a tree implements [`Tree`], its text under a layout, and has [`Serialize`] for it, which
//! writes or displays that text. What is put into a [`Sink`] is stated as a text, in parts, which are joined. Contracts see
//! values and types as plain trees (`specs/ValueTree.antt`, `specs/TypeTree.antt`).
//!
//! Begin with `value.rt` and `ty.rt`, and for the printer with `serialize.rt` and `sink.rt`; the layout begins at
//! `specs/LineLayout.antt`. `copies.rt` makes copies of several things at once, so that few values live across a `?`.
#![tactic(auto)]

mod copies;
mod level;
mod number;
mod number_parts;
mod print_description;
mod print_lines;
mod print_string;
mod print_value;
mod serialize;
mod serialize_value;
mod shown;
mod sink;
mod ty;
mod value;
mod writable;

pub use copies::{copies_of_five, copies_of_four, copies_of_three, copies_of_two};
pub use level::Level;
pub use number::{FloatValue, IntValue};
pub use print_description::put_description;
pub use print_lines::{put_break, put_start};
pub use print_string::put_quoted;
pub use print_value::{put_default, put_named_value, put_type};
pub use serialize::{Serialize, Tree};
pub use sink::{Cause, Sink, WriteFault};
pub use ty::{NamedType, Type};
pub use value::Value;
pub use writable::{can_be_enum, default_is_writable, value_is_writable};

// Re-exported from the crates below, for the crates above.
pub use graphql_names::{FileId, Name, Node, NodeStr, SourceSpan, Spent};
