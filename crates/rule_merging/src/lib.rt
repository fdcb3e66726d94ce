//! Merging of fields: those with one response key must agree (section 5.3.2, "Field Selection Merging").
//!
//! Numbers are compared, not contents: `rule_field_sets` has the selection sets of a document as nodes, in which equal
//! numbers mean equal contents of fields and of sets. So nothing that is nested is read here. How the fields of one list are
//! compared is in `rule_field_groups`.
//!
//! Fields are examined in lists: what the set of an operation selects, and then what the sets of each group of a list
//! select, level by level, in two passes. Sets that were looked at together are not looked at again, nor is a list whose
//! contents were examined before. If a list is not paid by fields that are new, and has few fields for its many sets, its
//! fields are compared two by two. Otherwise its sets are looked at in pairs (`twos.rt`), each pair once: fields of the two
//! are compared, and a spread is a step in one of the two only. A set is looked at with those before it, and the pairs that
//! result are examined before the next set is looked at, so few wait. Whether two fields go together is known from their
//! numbers, so two are compared without an index. Many fields that are all in one list that was examined are not compared
//! again. If fields go together, lists of their sets are left for the next level.
//!
//! In most operations nothing is examined: no two of their fields have one response key, in any selection set, so there is
//! nothing to merge (`rule_reach::keys_differ`). This is checked for each operation up to the first that has such
//! fields; from there on all are examined (`examine_operation` of `operation.rt`).
//!
//! For the layers above: a `FieldsInSetCanMerge` tells a list of faults what does not merge in an operation (`MergerTold` of
//! `specs/Merger.antt`, over `specs/Merged.antt`), and is clean if the fields of all operations merge so far. It calls
//! `examine_operation`, which adds what does not merge in an operation, and keeps in an `Examined` what was examined
//! (`ExaminesOperation` of `specs/Verdict.antt`) and how often shapes were compared (`IsCounted` of `specs/Counted.antt`).
//! `append_breaches` adds breaches to a list of faults.
//!
//! Begin with `merging.rt`, then `operation.rt` and `examination.rt`.
#![tactic(auto)]

mod examination;
mod merging;
mod operation;
mod told;
mod twos;

pub use merging::FieldsInSetCanMerge;
pub use operation::{Examined, examine_operation};
pub use told::append_breaches;

// Of the crates below, for those above.
pub use graphql_faults::{Details, DiagnosticList};
pub use rule_field_groups::Breach;
