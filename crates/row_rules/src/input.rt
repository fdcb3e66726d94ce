//! Texts that a row gives to be judged.

/// A text, and how many brackets may be open in it at once.
#[derive(Clone, Copy)]
pub(crate) struct Input<'a> {
    pub(crate) text: &'a str,
    pub(crate) nesting: usize,
}
