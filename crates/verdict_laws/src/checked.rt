//! The laws of the other files, over what the calls of the checker answer.
//!
//! Neither the verdict nor the written schema depends on how schema texts are cut, or in which order unrelated definitions
//! come (`specs/Alike.antt`). What is written of an accepted pair is a canonical text: checked again it is accepted, equal,
//! and written unchanged, in every layout; and `run` over what it put out puts out the same (`specs/Again.antt`). So what is
//! written determines what was checked (`specs/Equal.antt`).
//!
//! The laws are about all that `check_texts`, `Checker::finish`, `CheckedSchema::check` and `run` may answer by their contracts,
//! which `specs/Answers.antt` puts together, call by call; those of `run` are about devices that tell their bytes.

ghost use Rattle.verdict_laws.specs.Alike.{VerdictsOfRearranged, SchemasOfRearranged, VerdictsOfCut, SchemasOfCut, DocumentsOverEqual};
ghost use Rattle.verdict_laws.specs.Again.{SchemaAgain, DocumentAgain, PairAgain, RunAgain};
ghost use Rattle.verdict_laws.specs.Equal.{SchemasOfOneText, DocumentsOfOneText};

/// Schema texts that are rearranged get the same verdict with every document, and equal schemas; and the same definitions are
/// written of these, in some order.
pub fn rearranged_texts_are_checked_alike()
    ensures verdicts { VerdictsOfRearranged }
    ensures schemas { SchemasOfRearranged }
{}

/// So do schema texts that are one list of definitions, cut in two ways; and the same is written of their schemas.
pub fn cut_texts_are_checked_alike()
    ensures verdicts { VerdictsOfCut }
    ensures schemas { SchemasOfCut }
{}

/// Over checked schemas that are equal, with the same things built in, each document is accepted by both or by neither.
pub fn equal_schemas_check_alike()
    ensures { DocumentsOverEqual }
{}

/// What is written of a checked schema, of a checked document, and of a pair that is accepted, is accepted again, equal, and
/// written unchanged. If `run` reads the two texts that it put out, it puts out the same bytes.
pub fn what_is_written_is_checked_alike()
    ensures schema { SchemaAgain }
    ensures document { DocumentAgain }
    ensures pair { PairAgain }
    ensures run { RunAgain }
{}

/// Checked schemas with the same written text, under a plain layout, are equal, with the same things built in; and so are
/// checked documents with the same written text, over equal schemas.
pub fn checked_of_one_text_are_equal()
    ensures schemas { SchemasOfOneText }
    ensures documents { DocumentsOfOneText }
{}
