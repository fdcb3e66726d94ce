//! Fields that go together, list by list: those of one response key in a list, where they conflict, and their sets (section
//! 5.3.2, "Field Selection Merging"). Also what was compared and looked at, each once.
//!
//! For the layer above: `merged_list` gives what sets select, each content once (`IsMerged` of `specs/Below.antt`), by one walk over all
//! of them in which no fragment is walked twice (`node_walk.rt`). Two passes compare the fields of such a list (`Pass`): fields of one
//! response key in shape, and fields that one object may have in name and arguments. `groups_of` splits the fields of one key once by
//! the types that they are selected on (`KeyGroup` of `groups.rt`). `check_key_group` compares those on abstract types with
//! their first, and those on an object type with that one too, or else with their own first (`conflicts.rt`).
//! `push_lists_below` adds the sets of a group's fields as lists of sets for the next level (`AreListsBelow` of
//! `specs/Under.antt`). A few fields that are known to go together need no index: `check_group` compares them, and
//! `push_below` gives the list of their sets.
//!
//! A `MergeState` has what was compared and looked at (`specs/MergeState.antt`): lists of fields, lists of sets and pairs of
//! sets, each once, whatever their order. A list is compared if fields that are new pay for it (`budget.rt`,
//! `specs/Paid.antt`). Whether many fields are all in one list that was examined is found without a comparison
//! (`stand_together`).
//!
//! Begin with `groups.rt`, `conflicts.rt` and `below.rt`, then `node_walk.rt` and `merge_state.rt`.
#![tactic(auto)]

mod below;
mod budget;
mod conflicts;
mod groups;
mod kinds;
mod merge_state;
mod node_walk;
mod nodes;
mod pairs;
mod pass;
mod shapes;

pub use below::{push_below, push_lists_below};
pub use conflicts::{Breach, check_group, check_key_group};
pub use groups::{KeyGroup, groups_of};
pub use merge_state::{MergeState, Pair};
pub use node_walk::{MergedList, Toll, merged_list};
pub use nodes::{node_of, starts_of};
pub use pass::Pass;

// Of the crates below, for those above.
pub use document_typed_selections::SelectionSet;
pub use list_interner::{NumberLists, NumberRows, NumberSet};
pub use rule_field_sets::{FieldSets, Member, Schema};
