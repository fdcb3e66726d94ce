//! What is written of a schema, folded and written again.

ghost use Rattle.verdict_laws.specs.Twice.{WrittenTwice, WrittenTwiceBesideTheTable, WrittenIsWritable, NestsNoDeeper, FoldsToEqual, AcceptedAgain};

/// A list that is written out twice is as it was after the first time.
pub fn written_twice()
    ensures { WrittenTwice }
{}

/// The same for the repository's table of what is built in.
pub fn written_twice_beside_the_table()
    ensures { WrittenTwiceBesideTheTable }
{}

/// What is written nests no deeper than what was folded.
pub fn nests_no_deeper()
    ensures { NestsNoDeeper }
{}

/// What is written folds to an equal schema.
pub fn folds_to_equal()
    ensures { FoldsToEqual }
{}

/// What is written breaks no folding rule.
pub fn accepted_again()
    ensures { AcceptedAgain }
{}

/// What is written is a document that can be written.
pub fn written_is_writable()
    ensures { WrittenIsWritable }
{}
