//! What the specification does not allow in values, texts and documents, and the checker lets pass: departures.
//!
//! For the layers above: `StrictSchema` is made once for a schema; `document_departures` tells the departures of a document under
//! it (`TellsDepartures` of `specs/Views.antt`): those of values at each selection that an operation reaches; fragments on the
//! type of their own set, of which no object is (section 5.5.2.3); and fragments at the root of a subscription that its type is
//! not of (5.2.3.1). Each operation is walked once, with all that it reaches. What a document without departures has is in
//! `laws.rt`.
//!
//! `tell_given`, `tell_directives` and `tell_selection` add the departures of arguments and directives, in order and at any depth
//! of values (`specs/Departing.antt`): numbers that no finite 64-bit float is nearest to (section 3.5.2), items that are no lists
//! where lists are expected (3.11), and variables whose usage the specification does not allow (5.8.5). `source_characters` and
//! `tell_characters` tell the characters of a text that no source text may have (2.1).
//!
//! Begin with `specs/ValueLetter.antt` and `parts.rt`, then `specs/DepartsIn.antt` and `document.rt`.
#![tactic(auto)]

mod applying;
mod arguments;
mod characters;
mod departure;
mod document;
pub mod laws;
mod location;
mod lookups;
mod numbers;
mod objects;
mod operation;
mod parts;
mod reached;
mod roots;
mod telling;
mod usages;
mod values;
mod variables;

pub use applying::{condition_of, does_fragment_type_apply, tell_root, tell_spread};
pub use arguments::{tell_directives, tell_given, tell_selection};
pub use characters::{source_characters, tell_characters};
pub use departure::{Departure, DepartureKind};
pub use document::document_departures;
pub use location::{Location, Strictness};
pub use numbers::is_finite_number;
pub use objects::StrictSchema;
pub use telling::tell;
pub use usages::is_usage_allowed;
pub use values::tell_value;
