//! The level of what is printed, for the crates above.

// An alias, since a recursive type that `use` re-exports has no name in a crate that does not list its crate.
/// As `tree_literals` has it.
pub type Level<'a> = tree_literals::Level<'a>;
