//! The rules on types of schemas (section 3): on roots, on names, on the types that are named, on what a type must have, and
//! on types that implement interfaces.
//!
//! For the layer above: `check_interfaces` tells each fault of the rules on types that implement interfaces, `check_types`
//! each fault of the others, with its place and data, and nothing else, as far as the list has room. Each rule is a function
//! named after the variant of the fault that it tells; `rule_definitions` says what they mean, and `specs/FaultLists.antt`
//! and `specs/InterfaceFaults.antt` what each tells of one place.
//!
//! Begin with `check.rt`, and for interfaces with `interface_check.rt`.
#![tactic(auto)]

mod arguments;
mod check;
mod copies;
mod empty;
mod find_subtype;
mod implementation;
mod interface_arguments;
mod interface_check;
mod interface_fields;
mod interface_judging;
mod interface_look_ups;
mod interfaces;
mod look_ups;
mod members;
mod reserved;
mod roots;
mod rule_context;
mod types_used;
mod valid_types;

pub use check::check_types;
pub use interface_check::check_interfaces;
pub use valid_types::is_valid_implementation_field_type;
