//! The road back from written texts.

ghost use Rattle.verdict_laws.specs.EqualTexts.{EqualSchemaTexts, EqualDocumentTexts};
ghost use Rattle.verdict_laws.specs.RoadBack.{SchemaRoadBack, DocumentRoadBack, PairRoadBack, AnswerRoadBack};

/// What is written of accepted schema texts is read back, accepted, equal, and written unchanged.
pub fn schemas_lead_back()
    ensures { SchemaRoadBack }
{}

/// What is written of a document that is accepted over a schema is, over each equal one, read back, accepted, equal, and
/// written unchanged.
pub fn documents_lead_back()
    ensures { DocumentRoadBack }
{}

/// What is written of an accepted pair is accepted on the same terms, certain if the pair was, and the same bytes are output
/// for it; and so they are if that output is given as input again.
pub fn pairs_lead_back()
    ensures pairs { PairRoadBack }
    ensures answers { AnswerRoadBack }
{}

/// Under a plain layout one text is written of two accepted lists of schema texts, or of two accepted documents, exactly when
/// the same definitions are written, apart from places; and then the schemas are equal, and over equal schemas the documents.
pub fn equal_written_texts_are_of_equal_trees()
    ensures schemas { EqualSchemaTexts }
    ensures documents { EqualDocumentTexts }
{}
