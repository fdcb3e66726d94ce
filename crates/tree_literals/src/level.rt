//! The level of a line.

/// How many prefixes a line has. The number cannot overflow, since each level inside is a call.
#[derive(Clone, Copy)]
pub enum Level<'a> {
    /// This many, from the start.
    Outer(usize),
    /// One more than the level around it.
    In(&'a Level<'a>),
}
