//! What schemas are made of: nodes and names with the definition or extension that gave them.
//!
//! For the layer above: a component's equality and hash are those of its node or name, whatever its origin
//! and place; contracts see it as a `Given` (`specs/Given.antt`).
//!
//! Begin with `component.rt` and `specs/Given.antt`.
#![tactic(auto)]

mod component;
mod component_name;
mod directive_list;
mod extension;
pub mod laws;

pub use component::{Component, ComponentOrigin};
pub use component_name::ComponentName;
pub use directive_list::{DirectiveList, NamedComponents};
pub use extension::{ExtensionId, Extensions};
pub use tree_operations::{Directive, InputValueDefinition, OperationType};

// Of the crates below, for the crates above.
