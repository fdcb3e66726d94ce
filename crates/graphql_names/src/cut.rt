//! Readers and writers that stop on purpose, for tests.
ghost use Rattle.std.specs.Prelude.{◌<◌};

use std::io::ErrorKind;

/// What a [`Cut`] does once its bytes are used up.
#[derive(Clone, Copy, Debug, PartialEq, Eq)]
pub enum Ending {
    /// Each call fails, with an error of this kind.
    Fails(ErrorKind),
    /// One call fails, with an error of this kind; the calls after it pass bytes on again.
    FailsOnce(ErrorKind),
    /// A write takes nothing, and a read fails with an error of the kind `Other`.
    TakesNothing,
}

/// A reader or a writer that passes on at most a set number of bytes a call, and a set number in all. Then it ends as
/// its [`Ending`] says. It counts its calls of `read` and `write`.
#[derive(Drop)]
pub struct Cut<D> {
    pub(crate) inner: D,
    pub(crate) most: usize,
    pub(crate) left: usize,
    pub(crate) ending: Ending,
    pub(crate) calls: usize,
    ghost moves: { 0 < most },
}
