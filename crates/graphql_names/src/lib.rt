//! The ground of the GraphQL crates: files and places in them, names, shared nodes, and devices.
//!
//! For the layer above: equality and hash of a [`Name`], a [`Node`] and a [`NodeStr`] ignore places;
//! the text of every [`Name`] is a Name token, and its place, where it has one, is as long as its text;
//! a [`Device`] keeps whether it failed.
//!
//! Begin with `name.rt` and its definition `specs/NameSyntax.antt`; `node.rt` has the shared values of
//! which trees are built, and `device.rt` what texts are read from and written to. `name!` makes a
//! [`Name`] of a literal, and [`Cut`] is a device for tests that stops on purpose.
#![tactic(auto)]

mod cut;
mod cut_calls;
mod device;
mod files;
mod name;
mod name_laws;
mod name_macro;
mod name_text;
mod node;
mod node_laws;
mod node_str;
mod places;
mod span;
mod text_hash;
mod text_part;
mod text_part_calls;

pub use cut::{Cut, Ending};
pub use device::Device;
pub use files::{Files, Spent};
pub use name::{InvalidNameError, Name, NameError};
pub use node::Node;
pub use node_str::NodeStr;
pub use span::{FileId, SourceSpan};
pub use text_hash::hash_text;
pub use text_part::TextPart;
