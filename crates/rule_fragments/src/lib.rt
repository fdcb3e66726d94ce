//! The rules on fragments (section 5.5), on the root of a subscription (5.2.3) and on `@defer`, and the bounds on paths of
//! spreads and on how deep selections nest.
//!
//! Of the fragments that an operation reaches: each that is spread is defined, each is on a composite type, and each can apply
//! where it is. Of the fragments of a document: each is reached by an operation, and none spreads itself. A subscription
//! has one root field, which is no meta-field and under no condition; `@defer` and its labels are judged by the proposal on
//! incremental delivery.
//!
//! For the layers above: each check adds, as far as there is room, exactly the faults by which the rules of its name break
//! (`Fragments.antt` and `Limits.antt` of `rule_document_definitions`). `PossibleTypes` has, under each type's name, the
//! objects that values of the type can be (`ArePossible` of `Possible.antt`). It is made once for a schema, and `for_document`
//! shares it with each document; or at most once for a document: `check_applications` makes it if a fragment is on another
//! type than the set that applies it, and keeps it for the operations that follow. For a document it remembers of pairs of
//! types whether they have an object in common. `applying_conditions` gives conditions with which inline fragments may apply
//! in their sets (`specs/Applying.antt`). `check_unused` tells each fragment that no operation reaches; `check_cycles` tells
//! each fragment that an operation reaches and that spreads itself, or that the bound is passed (`specs/FragmentCycles.antt`). Both take
//! the names of the fragments that the operations reach. In `check_cycles` fragments are numbers, and `rule_cycle_search` finds
//! a cycle of spreads through each, if there is one.
//!
//! `document_breaches` gives what breaks the rules on subscriptions and on `@defer` in a typed document, each with its place,
//! and `deferred_breaches` what breaks those on `@defer` alone, each all of it or 1,000 (`specs/Documents.antt`). Once 1,000 are
//! told, no further operation is walked. If several operations are judged, the selections of fragments at which the rules find
//! nothing are first left out (`thinned.rt`), and not visited for each operation. The definitions of these rules are in
//! `Subscriptions.antt`, `Defer.antt` and `Limits.antt` of `rule_document_definitions`.
//!
//! For fragments, begin with `spreads.rt`, then `targets.rt`, `possible_types.rt` and `applications.rt`; and with `unused.rt` and
//! `cycles.rt`. For subscriptions and `@defer`, begin with `documents.rt`, then `subscriptions.rt`, `defer.rt` and `labels.rt`.
#![tactic(auto)]

mod applications;
mod breach;
mod conditions;
mod cycle_faults;
mod cycles;
mod defer;
mod documents;
mod labels;
mod names;
mod path_bound;
mod possible_types;
mod roots;
mod spread_graph;
mod spreads;
mod subscriptions;
mod targets;
mod thinned;
mod unused;

pub use applications::check_applications;
pub use conditions::applying_conditions;
pub use cycles::check_cycles;
pub use documents::{deferred_breaches, document_breaches};
pub use path_bound::passes_path_bound;
pub use possible_types::{PossibleTypes, for_document};
pub use spreads::check_spreads;
pub use unused::check_unused;

// Of the crates below, for those above.
pub use rule_cycles::Schema;
pub use rule_reach::{FieldSelection, Reach, laws, note_name, reach};
