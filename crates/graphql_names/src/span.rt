//! Files by number, and places in them.
ghost use Rattle.std.specs.Prelude.{◌+◌, ◌<◌, ◌^◌};

/// The number of a file.
#[derive(Clone, Copy, PartialEq, Eq, PartialOrd, Ord, Hash, Debug)]
pub struct FileId(pub u64);

impl FileId {
    /// The file of the built-in definitions, which belongs to no text.
    pub const BUILT_IN: FileId = FileId(0);
}

/// A place in a file: where it begins and how long it is, both in bytes. Its end is at most the largest `usize`.
#[derive(Clone, Copy, PartialEq, Eq, Hash, Debug)]
pub struct SourceSpan {
    /// The file.
    pub file_id: FileId,
    /// How many bytes of the file come before the place.
    pub offset: usize,
    /// How many bytes long it is.
    pub length: usize,
    ghost fits: { offset + length < 2 ^ 64 },
}
