//! Laws of the verdict.

ghost use Rattle.verdict_laws.specs.Written.{AcceptedSchemasCanBeWritten, TypedDocumentsCanBeWritten};
ghost use Rattle.verdict_laws.specs.AnyNumber.{TextsHaveOneTree, TextsAreReadAlike, DocumentsAreWrittenAlike, EqualSchemasJudgeAlike, EqualSchemasAcceptAlike, EqualSchemasAcceptForSureAlike};
ghost use Rattle.verdict_laws.specs.Rearranged.{LawOfRearranging, LawOfCutting};

/// What is written of accepted schema texts, and of a document of which no rule of typing is broken, is a document that the
/// grammar can write.
pub fn accepted_texts_can_be_written()
    ensures schemas { AcceptedSchemasCanBeWritten }
    ensures documents { TypedDocumentsCanBeWritten }
{}

/// A text has one tree under each number, under any two the same apart from places; and the same is written of it as a
/// document.
pub fn texts_are_read_alike_under_each_number()
    ensures one { TextsHaveOneTree }
    ensures alike { TextsAreReadAlike }
    ensures written { DocumentsAreWrittenAlike }
{}

/// Over schemas that are equal, with the same built in, a document gets the same verdict, whatever its number, and is accepted
/// over both or over neither.
pub fn equal_schemas_judge_alike()
    ensures verdict { EqualSchemasJudgeAlike }
    ensures accepted { EqualSchemasAcceptAlike }
    ensures certain { EqualSchemasAcceptForSureAlike }
{}

/// Schema texts that are read, with the same definitions in an order that is the same for each sort, get the same verdict, and so
/// does each document over them; and the same definitions are written of both, in some order.
pub fn rearranged_texts_get_the_same_verdict()
    ensures { LawOfRearranging }
{}

/// So do schema texts that are one list of definitions, cut in two ways; and the same texts are written of both.
pub fn cut_texts_get_the_same_verdict()
    ensures { LawOfCutting }
{}
