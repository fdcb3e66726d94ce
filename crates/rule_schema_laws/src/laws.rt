//! Laws of schemas that keep the rules, each the contract of a function that does nothing.

ghost use Rattle.rule_schema_laws.specs.Laws.{OrderedWhereRulesHold, OrderedAfterValidation, LiteralsAfterValidation, OtherScalarsHaveNone};
ghost use Rattle.rule_schema_laws.specs.ReadTexts.{ReadTextsHaveTheFiveAlone, ReadTextsHaveNoKeywordValue};
ghost use Rattle.rule_schema_laws.specs.Small.{IsWithout};

/// If the rules hold, implementing is a strict order on interfaces (sections 3.6 and 3.7), in the schema as it is and
/// in what validation leaves of it.
pub fn implementing_is_an_order()
    ensures given { OrderedWhereRulesHold }
    ensures left { OrderedAfterValidation }
{}

/// If the rules hold, the built-in scalars are among the five and no enum value is a keyword, then each input type of
/// the schema that validation leaves has a literal (sections 2.9, 3.4.2 and 5.6).
pub fn input_types_have_literals()
    ensures { LiteralsAfterValidation }
{}

/// Texts that are read under other numbers than that of what is built in fold, after what is built in and with any
/// settings of a builder, to a schema in which the built-in scalars are among the five (section 3.5) and no enum has a
/// value `true`, `false` or `null` (section 2.9.6): the premises under which each input type has a literal.
pub fn read_texts_meet_the_premises()
    ensures five { ReadTextsHaveTheFiveAlone }
    ensures keywords { ReadTextsHaveNoKeywordValue }
{}

/// The premise on built-in scalars is needed: a built-in scalar with another name than the five has no literal where it
/// is non-null, and there is a schema that keeps every rule and has such a scalar.
pub fn other_scalars_have_no_literal()
    ensures none { OtherScalarsHaveNone }
    ensures example { IsWithout }
{}
