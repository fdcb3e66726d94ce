//! Questions about selections: whether two values, and two lists of arguments, are the same in merging (section 5.3.2); and
//! which selections an operation always reaches: on some way to each nothing may be left out by `@skip` or `@include`.
//!
//! For the layers above: `same_value` and `differing_argument` decide `SameValue` and `SameArguments` of
//! `rule_document_definitions` (`specs/SameValues.antt`), in time linear in what is compared. That these are equivalences is in
//! `proofs/Equivalences.antt`. For the rules on `@defer` and on subscriptions `always_reached` gives what is always reached
//! (`AreAlways` of `specs/Always.antt`, which leads to `ReachedAlways`); the lemmas on what is inside a set and in the fragments
//! of a document serve the other rules on these too.
//!
//! Begin with `values.rt` and `always.rt`; what the functions on values compute is `specs/Tests.antt`, which
//! `proofs/Deciding.antt` leads to the definitions.
#![tactic(auto)]

mod always;
mod arguments;
mod values;

pub use always::always_reached;
pub use arguments::differing_argument;
pub use values::same_value;

// Re-exported from the crates below, for the crates above.
pub use rule_reach::tell_breach;
