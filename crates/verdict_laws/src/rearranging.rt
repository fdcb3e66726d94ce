//! Lists of definitions that differ only in order and places.

ghost use Rattle.verdict_laws.specs.Permuting.{PermutedIsRearranged, RearrangedIsPermuted, RearrangingIsAnEquivalence};
ghost use Rattle.verdict_laws.specs.Adopting.{SettledIsRearranged, CutSettlesAlike, SettledStandElsewhere};
ghost use Rattle.verdict_laws.specs.Folding.{RearrangedFoldsAlike, RearrangedFailAlike, RearrangedKeepTheRules};
ghost use Rattle.verdict_laws.specs.Judging.{RearrangedAreEqual, RearrangedSameVerdict, RearrangedLeaveEqual, RearrangedJudgeAlike, EqualAfterValidation, FoldsAreDistinct};
ghost use Rattle.verdict_laws.specs.Cutting.{CutIsRearranged, CutKeepsTypes, CutWritesAlike, NumbersAreNotWritten};
ghost use Rattle.verdict_laws.specs.ReadTexts.{ReadTextsStandElsewhere, ElsewhereIsOwn, LawOfRearrangingReadTexts, LawOfCuttingReadTexts};
ghost use Rattle.verdict_laws.specs.Writing.{RearrangedWritesAlike, RearrangedWritesPermuted};

/// Lists that are rearranged fold to equal schemas, and break the same folding rules.
pub fn rearranged_lists_fold_alike()
    ensures schemas { RearrangedFoldsAlike }
    ensures faults { RearrangedFailAlike }
    ensures rules { RearrangedKeepTheRules }
{}

/// Lists that are rearranged fold to equal schemas with the same things built in: the same rules hold, and documents are judged alike.
pub fn rearranged_lists_judge_alike()
    ensures equal { RearrangedAreEqual }
    ensures verdict { RearrangedSameVerdict }
    ensures left { RearrangedLeaveEqual }
    ensures judged { RearrangedJudgeAlike }
{}

/// Schemas that are equal, with the same things built in, are equal after validation too.
pub fn equal_schemas_stay_equal()
    ensures { EqualAfterValidation }
{}

/// No two things in a fold have one name.
pub fn folds_are_distinct()
    ensures { FoldsAreDistinct }
{}

/// One list from texts that are cut in two ways is rearranged, folds to the same types in order, and is written alike.
pub fn cut_lists_are_alike()
    ensures rearranged { CutIsRearranged }
    ensures types { CutKeepsTypes }
    ensures written { CutWritesAlike }
{}

/// The numbers of extensions do not change what is written.
pub fn numbers_are_not_written()
    ensures { NumbersAreNotWritten }
{}

/// What is written of lists that are rearranged is rearranged, and so the same definitions in some order.
pub fn rearranged_lists_write_alike()
    ensures rearranged { RearrangedWritesAlike }
    ensures permuted { RearrangedWritesPermuted }
{}

/// Lists are rearranged by the permutations that keep the order of definitions, and of extensions, of the same thing; and
/// rearranging is an equivalence.
pub fn permuted_lists_are_rearranged()
    ensures rearranged { PermutedIsRearranged }
    ensures permuted { RearrangedIsPermuted }
    ensures equivalence { RearrangingIsAnEquivalence }
{}

/// What the settings of a builder make of lists that are rearranged is rearranged, of lists that are cut in two ways it is the
/// same, and nothing that is adopted is built in.
pub fn settings_keep_the_order()
    ensures rearranged { SettledIsRearranged }
    ensures cut { CutSettlesAlike }
    ensures elsewhere { SettledStandElsewhere }
{}

/// What is read under other numbers than that of what is built in is not in its file, so that no type or directive in it is built
/// in: the premises of the laws.
pub fn read_texts_stand_elsewhere()
    ensures elsewhere { ReadTextsStandElsewhere }
    ensures own { ElsewhereIsOwn }
{}

/// Of texts that are read, with the same definitions in an order that is the same for each sort, a builder makes the same; and
/// of one list that is cut in two ways the same is written.
pub fn builders_make_the_same()
    ensures rearranged { LawOfRearrangingReadTexts }
    ensures cut { LawOfCuttingReadTexts }
{}
