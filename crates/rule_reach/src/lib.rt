//! What a selection set reaches, found once for all rules on documents; and fields where they are selected.
//!
//! For the layers above:
//! - `reach` gives two lists, the selections with the types of their sets and the fragments that are spread, which are all
//!   that is reached and no more (`IsReach` of `specs/Reach.antt`), in every document with these fragments: for an operation
//!   that is `IsReachOf`, and a field set has a document without fragments (`proofs/OfDocuments.antt`). What holds of the
//!   members of the lists holds of all that is reached, and conversely (`proofs/AtReaches.antt`).
//! - Contracts see a field that is selected as `field_of`, and its contents as `content_of` (`specs/Fields.antt`): equality
//!   and hash are those of the contents, so that equal fields in different places of a document count as one.
//! - What a check adds to a list of breaches of documents is `AddsBroken` of `specs/Broken.antt`, with its lemmas in
//!   `proofs/AddingBroken.antt`; those on lists of any faults are in `Listing` of `rule_definitions`, which is re-exported.
//! - The names in a set are `noted_names` of `specs/NotedNames.antt`; `has_name` asks for one, `note_name` adds one.
//!   `note_in_selection` and `note_in_directives` add the names of the variables in a selection or in directives
//!   (`specs/UsedNames.antt`, with its lemmas in `proofs/UsedNames.antt`).
//! - `keys_differ` asks whether the fields of each selection set of an operation have different response keys: it looks at
//!   the set of the operation, and level by level at the sets of the fields that it selects, through fragments, and answers
//!   yes only if each of these sets has each key once (`AreKeysLone` of `specs/LoneKeys.antt`; then the fields merge,
//!   section 5.3.2: `proofs/Merging.antt`). It takes few steps: if a set has many fields or a document many levels, it
//!   answers no, which tells nothing about the keys.
//!
//! Begin with `specs/Reach.antt` and `reaching.rt`; and with `field_selection.rt`.
#![tactic(auto)]

mod breaches;
mod field_selection;
pub mod laws;
mod lists;
mod lone_keys;
mod noted_names;
mod reaching;
mod used_names;

pub use breaches::{push_breach, tell_breach};
pub use field_selection::FieldSelection;
pub use lists::Reach;
pub use lone_keys::keys_differ;
pub use noted_names::{has_name, note_name};
pub use reaching::reach;
pub use used_names::{note_in_directives, note_in_selection};
