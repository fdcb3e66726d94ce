//! Which faults are due for tokens: laws, each the contract of a function.
ghost use Rattle.std.specs.Prelude.{◌≡◌, ◌≢◌, ℕ, true, List, Err};
ghost use Rattle.graphql_names.specs.Placed.{Place};
ghost use Rattle.read_tokens.specs.Input.{Token, Input, Ending};
ghost use Rattle.read_grammar.specs.declared.parse_error.ParseError.{ParseError};
ghost use Rattle.read_grammar.specs.declared.parse_error.ParseError.TheVariants.{Memory};
ghost use Rattle.read_grammar.specs.Meaning.{Meaning};
ghost use Rattle.read_grammar.specs.Grammar.{Derives, DerivesType, DerivesSelections};
ghost use Rattle.read_grammar.specs.Faults.{Fault, Says, is_syntax};
ghost use Rattle.read_grammar.specs.Stops.{fault_of};
ghost use Rattle.read_grammar.specs.Reading.{whole};
ghost use Rattle.read_grammar.specs.ValueReading as values;
ghost use Rattle.read_grammar.specs.OperationReading as operations;
ghost use Rattle.read_grammar.specs.DocumentReading as documents;

/// The fault at the point where the reading of a document stops is due.
pub fn document_fault_is_due()
    ensures { (m : Meaning Place) → (nesting : ℕ) → (i : Input) → i.last ≡ 0 → (stop : ParseError) → (z : Input)
        → (stop ≢ Memory → whole (documents.document m) nesting i ≡ Err (stop, z)) → Says (Derives m) i.ahead i.ending nesting (fault_of stop z) }
{}

/// The fault at the point where the reading of a type stops is due.
pub fn type_fault_is_due()
    ensures { (m : Meaning Place) → (nesting : ℕ) → (i : Input) → i.last ≡ 0 → (stop : ParseError) → (z : Input)
        → (stop ≢ Memory → whole (values.type m) nesting i ≡ Err (stop, z)) → Says (DerivesType m) i.ahead i.ending nesting (fault_of stop z) }
{}

/// The fault at the point where the reading of selections stops is due.
pub fn selections_fault_is_due()
    ensures { (m : Meaning Place) → (nesting : ℕ) → (i : Input) → i.last ≡ 0 → (stop : ParseError) → (z : Input)
        → (stop ≢ Memory → whole (operations.selections m) nesting i ≡ Err (stop, z)) → Says (DerivesSelections m) i.ahead i.ending nesting (fault_of stop z) }
{}

/// At most one syntax fault is due for tokens that are read as a document.
pub fn one_document_fault()
    ensures { (m : Meaning Place) → (tokens : List Token) → (ending : Ending) → (nesting : ℕ) → (fault : Fault) → (other : Fault)
        → is_syntax fault ≡ true → is_syntax other ≡ true → Says (Derives m) tokens ending nesting fault → Says (Derives m) tokens ending nesting other → fault ≡ other }
{}

/// At most one syntax fault is due for tokens that are read as a type.
pub fn one_type_fault()
    ensures { (m : Meaning Place) → (tokens : List Token) → (ending : Ending) → (nesting : ℕ) → (fault : Fault) → (other : Fault)
        → is_syntax fault ≡ true → is_syntax other ≡ true → Says (DerivesType m) tokens ending nesting fault → Says (DerivesType m) tokens ending nesting other → fault ≡ other }
{}

/// At most one syntax fault is due for tokens that are read as selections.
pub fn one_selections_fault()
    ensures { (m : Meaning Place) → (tokens : List Token) → (ending : Ending) → (nesting : ℕ) → (fault : Fault) → (other : Fault)
        → is_syntax fault ≡ true → is_syntax other ≡ true → Says (DerivesSelections m) tokens ending nesting fault → Says (DerivesSelections m) tokens ending nesting other → fault ≡ other }
{}
