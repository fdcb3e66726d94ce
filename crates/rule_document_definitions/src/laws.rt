//! Laws of the rules, and of merging by groups of fields, each the contract of a function that does nothing.

ghost use Rattle.rule_document_definitions.specs.Laws.{SameDocumentVerdict, SameBounds, SameFieldSetVerdict, SameVerdictAlone, MergesByContents, RulesWithoutPlaces, MergingWithoutPlaces, SetRulesWithoutPlaces, RulesAloneWithoutPlaces, BoundsWithoutPlaces, SetBoundsWithoutPlaces, ValidWhereNothingIsTold, MergesWhereNothingIsTold, SetValidWhereNothingIsTold, ValidAloneWhereNothingIsTold, WithinBoundsWhereNothingIsTold, SetWithinBoundsWhereNothingIsTold};
ghost use Rattle.rule_document_definitions.specs.Equivalences.{ShapesAgreeAsEquals, SelectionsAgreeAsEquals};
ghost use Rattle.rule_document_definitions.specs.MergingLaws.{SettledFieldsMerge, StandingFieldsMerge, GoingAgrees, GoingBreaks, LongChainsPassTheBound};
ghost use Rattle.rule_document_definitions.specs.ReadFields.{ReadFieldsMerge};

/// Documents that are equal, with their operations and fragments in the same order, get the same verdict under schemas that
/// are equal with the same built in, and pass the same bounds, whatever the rules are. So do field sets and documents
/// without a schema.
pub fn equal_documents_same_verdict()
    ensures verdict { SameDocumentVerdict }
    ensures bounds { SameBounds }
    ensures field_sets { SameFieldSetVerdict }
    ensures alone { SameVerdictAlone }
{}

/// The fields of an operation merge exactly when the contents of fields do, in the document without places.
pub fn merging_is_of_contents()
    ensures { MergesByContents }
{}

/// The broken rules and passed bounds that are told at places are exactly those that are told without them. For rules
/// about all fragments this needs that each fragment is stored under its own name.
pub fn told_without_places()
    ensures rules { RulesWithoutPlaces }
    ensures merging { MergingWithoutPlaces }
    ensures field_sets { SetRulesWithoutPlaces }
    ensures alone { RulesAloneWithoutPlaces }
    ensures bounds { BoundsWithoutPlaces }
    ensures field_set_bounds { SetBoundsWithoutPlaces }
{}

/// What is valid is exactly what breaks no rule at any place, and what is within the bounds exactly what passes none at
/// any place.
pub fn valid_where_nothing_is_told()
    ensures documents { ValidWhereNothingIsTold }
    ensures merging { MergesWhereNothingIsTold }
    ensures field_sets { SetValidWhereNothingIsTold }
    ensures alone { ValidAloneWhereNothingIsTold }
    ensures bounds { WithinBoundsWhereNothingIsTold }
    ensures field_set_bounds { SetWithinBoundsWhereNothingIsTold }
{}

/// If lists of contents are settled, those by keys in shape and those by keys and parents in name and arguments, and
/// one list of each kind has all root fields, the fields of an operation merge (GraphQL, October 2021, section 5.3.2).
pub fn settled_fields_merge()
    ensures { SettledFieldsMerge }
{}

/// If fields that go together and are in one list are settled, those by keys in shape and those by keys and parents in
/// name and arguments, and any two root fields that go together are in one list, the fields of an operation merge.
pub fn standing_fields_merge()
    ensures { StandingFieldsMerge }
{}

/// The same for lists that have only what merging reads of fields.
pub fn read_fields_merge()
    ensures { ReadFieldsMerge }
{}

/// Two fields of a list that chains lead to agree if the fields of the operation merge; and what is told of two that do not
/// agree breaks a rule on merging.
pub fn fields_of_lists_meet()
    ensures agree { GoingAgrees }
    ensures breaks { GoingBreaks }
{}

/// If a field is at the end of a chain that is longer than the bound, its operation passes the bound.
pub fn long_chains_pass_the_bound()
    ensures { LongChainsPassTheBound }
{}

/// Having one shape, and having one name and the same arguments, are equivalences: so fields that agree with one field agree.
pub fn agreeing_is_an_equivalence()
    ensures shapes { ShapesAgreeAsEquals }
    ensures selections { SelectionsAgreeAsEquals }
{}
