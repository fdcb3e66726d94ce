//! Laws of the book, each the contract of a function that does nothing.

ghost use Rattle.book_validity.specs.Laws.{RulesHoldByTheBook, SetRulesHoldByTheBook, RulesAloneHoldByTheBook, SchemaRulesHoldByTheBook, TypedByTheBook, SetsTypedByTheBook, FoldedByTheBook, SchemasAcceptedByTheBook, DocumentsAcceptedByTheBook, AcceptedByTheBook};
ghost use Rattle.book_validity.specs.Yes.{TypedIsKeptWhole};
ghost use Rattle.book_validity.specs.Exceptions.{UsagesAllowed, SpreadsPossible};
ghost use Rattle.book_validity.specs.Refused.{UnusedVariableIsInvalid, ConflictingFieldsDoNotMerge, MissingFieldIsInvalid};
ghost use Rattle.book_validity.specs.MergingLaws.{AcceptedMergesAsSpecified, TypedMergesAsSpecified, EverySetCanMerge, EitherReading, OneDepthDecides};

/// Texts are accepted exactly when the book says yes: schema texts, a document over the schema of accepted ones, and both.
pub fn accepted_by_the_book()
    ensures schemas { SchemasAcceptedByTheBook }
    ensures documents { DocumentsAcceptedByTheBook }
    ensures texts { AcceptedByTheBook }
{}

/// Definitions are foldable by the book exactly when no folding rule is broken.
pub fn folded_by_the_book()
    ensures { FoldedByTheBook }
{}

/// A schema is valid by the book exactly when no rule on schemas is broken.
pub fn schema_rules_hold_by_the_book()
    ensures { SchemaRulesHoldByTheBook }
{}

/// A document is typed by the book exactly when no rule of typing is broken.
pub fn typed_by_the_book()
    ensures { TypedByTheBook }
{}

/// The selections of a set are typed by the book exactly when no rule of typing is broken in it.
pub fn sets_typed_by_the_book()
    ensures { SetsTypedByTheBook }
{}

/// What a typed document means has all of it: the rules are about each operation, fragment and selection that was read.
pub fn typed_is_kept_whole()
    ensures { TypedIsKeptWhole }
{}

/// A document, a field set, a document without a schema is valid by the book exactly when no rule on it is broken.
pub fn rules_hold_by_the_book()
    ensures documents { RulesHoldByTheBook }
    ensures field_sets { SetRulesHoldByTheBook }
    ensures alone { RulesAloneHoldByTheBook }
{}

/// IsVariableUsageAllowed and GetPossibleTypes are as specified (GraphQL, October 2021, sections 5.8.5 and 5.5.2.3), but for a
/// default that is null, and for a fragment on the parent type itself.
pub fn two_algorithms_but_for_exceptions()
    ensures usages { UsagesAllowed }
    ensures spreads { SpreadsPossible }
{}

/// With a variable that is not used a document is not valid, with two conflicting fields it does not merge, and with a type
/// that lacks a field of its interface a schema is not valid.
pub fn what_breaks_a_rule_is_invalid()
    ensures variables { UnusedVariableIsInvalid }
    ensures merging { ConflictingFieldsDoNotMerge }
    ensures schemas { MissingFieldIsInvalid }
{}

/// Over a schema that keeps the rules a document keeps the rule on merging exactly if FieldsInSetCanMerge holds of each
/// selection set that its operations reach (GraphQL, October 2021, section 5.3.2). For each operation this holds of any
/// schema and document whose fields are typed.
pub fn merging_is_as_specified()
    ensures accepted { AcceptedMergesAsSpecified }
    ensures typed { TypedMergesAsSpecified }
{}

/// FieldsInSetCanMerge holds of the operation's selection set exactly if it does of each that the operation reaches.
pub fn every_set_can_merge()
    ensures { EverySetCanMerge }
{}

/// FieldsInSetCanMerge holds of each selection set that the operation reaches exactly if it does where pairs are of different
/// fields: the text may be read either way.
pub fn either_reading_answers_the_same()
    ensures { EitherReading }
{}

/// Where fields are nested to some depth and no deeper, one more is deep enough to decide: so it does not matter
/// what deeper calls are taken to return.
pub fn one_depth_decides()
    ensures { OneDepthDecides }
{}
