//! What is printed is read as the tree that was printed.

ghost use Rattle.std.specs.Prelude.{◌≡◌, ◌↔◌, ℕ, Bool, true, List, ◌∷◌, map, codes, Option};
ghost use Rattle.std.specs.List.{list_all};
ghost use Rattle.std.specs.Option.{option_map};
ghost use Rattle.graphql_names.specs.declared.span.FileId.{FileId};
ghost use Rattle.round_trip.specs.in_literals.LineLayout.{Prefix, set_text, texts_of};
ghost use Rattle.read_operations.specs.in_literals.ValueLayout.{type_text, value_text, default_text};
ghost use Rattle.read_operations.specs.in_directives.DirectiveLayout.{argument_text, arguments_text, directive_text, directives_text, directive_list_text};
ghost use Rattle.read_operations.specs.in_directives.InputLayout.{input_value_text, argument_definitions_text};
ghost use Rattle.read_operations.specs.in_type_members.TypeSystemLayout.{names_text, field_definition_text, enum_value_text, root_text};
ghost use Rattle.read_operations.specs.in_operations.OperationLayout.{operation_text, fragment_text, selection_text, variable_text, variables_text};
ghost use Rattle.graphql_names.specs.Placed.{Place, Placed, Text, unplaced_text, unplaced_node};
ghost use Rattle.read_operations.specs.in_values.Writable.{value_writable, has_selection, selections_writable, operation_writable, fragment_writable, default_writable, arguments_writable, directive_writable, directives_writable, selection_writable, variable_writable, variables_writable, input_value_writable, input_values_writable};
ghost use Rattle.read_operations.specs.in_type_members.PartsWritable.{field_definition_writable, field_definitions_writable, enum_value_writable, enum_values_writable};
ghost use Rattle.read_operations.specs.in_literals.TypeTree.{TypeTree, unplaced_type};
ghost use Rattle.read_operations.specs.in_literals.ValueTree.{ValueTree, unplaced_value};
ghost use Rattle.read_operations.specs.in_directives.DirectiveTree.{ArgumentTree, Arguments, DirectiveTree, Directives, InputValueTree, InputValues, unplaced_argument, unplaced_arguments, unplaced_directive, unplaced_directives, unplaced_input_value};
ghost use Rattle.read_operations.specs.in_operations.SelectionTree.{SelectionTrees, unplaced_selections, SelectionTree, unplaced_selection};
ghost use Rattle.read_operations.specs.in_operations.OperationTree.{OperationTree, FragmentTree, unplaced_operation, unplaced_fragment, VariableDefinitionTree, unplaced_variable_definition};
ghost use Rattle.read_operations.specs.in_type_members.TypeSystemTree.{FieldDefinitionTree, EnumValueTree, RootOperationTree, unplaced_field_definition, unplaced_enum_value, unplaced_root};
ghost use Rattle.read_operations.specs.in_definitions.DefinitionTree.{DefinitionTree, unplaced_document, unplaced_definition};
ghost use Rattle.read_operations.specs.in_definitions.DocumentLayout.{document_text, definition_text};
ghost use Rattle.read_operations.specs.in_definitions.Writable.{definition_writable};
ghost use Rattle.read_operations.specs.in_grammar.Meaning.{Meaning};
ghost use Rattle.read_operations.specs.in_grammar.Grammar.{DerivesAs, Derives, DerivesType, DerivesSelections};
ghost use Rattle.read_operations.specs.in_grammar.ValueGrammar.{Const, value};
ghost use Rattle.read_operations.specs.in_grammar.OperationGrammar.{operation_definition, fragment_definition};
ghost use Rattle.read_operations.specs.Meanings.{in_file};
ghost use Rattle.round_trip.specs.WellFormed.{is_white_prefix, type_well_formed, value_well_formed, selections_well_formed, operation_well_formed, fragment_well_formed, default_well_formed, names_well_formed, argument_well_formed, arguments_well_formed, directive_well_formed, directives_well_formed, selection_well_formed, variable_well_formed, variables_well_formed, input_value_well_formed, input_values_well_formed, field_definition_well_formed, enum_value_well_formed, root_well_formed};
ghost use Rattle.round_trip.specs.Definitions.{definition_well_formed};
ghost use Rattle.round_trip.specs.SelectionsLayout.{selections_text};
ghost use Rattle.round_trip.specs.ReadsAlone.{ReadsAlone, TextTells, NodeTextTells};

/// The text of a type whose names are names reads as it alone, apart from places.
pub fn printed_type_reads()
    ensures { (m : Meaning Place) → (tree : TypeTree Place) → type_well_formed tree ≡ true
        → ReadsAlone (DerivesType m) unplaced_type (type_text tree) (unplaced_type tree) }
{}

/// The text of a value that is well-formed and writable reads as it alone, apart from places.
pub fn printed_value_reads()
    ensures { (file : FileId) → (const : Const) → (tree : ValueTree Place) → value_well_formed tree ≡ true
        → value_writable const tree ≡ true
        → ReadsAlone (DerivesAs (value (in_file file) const)) unplaced_value (value_text tree) (unplaced_value tree) }
{}

/// The text of an operation or a fragment that is well-formed and writable, on one line or on lines that white space
/// begins, at any level, reads as it alone, apart from places.
pub fn printed_operations_read()
    ensures operation { (file : FileId) → (at_start : Bool) → (prefix : Prefix) → (level : ℕ) → (tree : OperationTree Place)
        → is_white_prefix prefix ≡ true → operation_well_formed tree ≡ true → operation_writable tree ≡ true
        → ReadsAlone (DerivesAs (operation_definition (in_file file))) unplaced_operation (operation_text at_start prefix tree level) (unplaced_operation tree) }
    ensures fragment { (file : FileId) → (prefix : Prefix) → (level : ℕ) → (tree : FragmentTree Place)
        → is_white_prefix prefix ≡ true → fragment_well_formed tree ≡ true → fragment_writable tree ≡ true
        → ReadsAlone (DerivesAs (fragment_definition (in_file file))) unplaced_fragment (fragment_text prefix tree level) (unplaced_fragment tree) }
{}

/// The text of selections without braces, of one at least, that are well-formed and writable, reads as them alone, apart
/// from places; under the same layouts.
pub fn printed_selections_read()
    ensures { (file : FileId) → (prefix : Prefix) → (level : ℕ) → (tree : SelectionTrees Place)
        → is_white_prefix prefix ≡ true → has_selection tree ≡ true → selections_well_formed tree ≡ true → selections_writable tree ≡ true
        → ReadsAlone (DerivesSelections (in_file file)) unplaced_selections (selections_text prefix tree level) (unplaced_selections tree) }
{}

/// The text of a document, of one definition at least, each well-formed and writable, reads as it alone, apart from places;
/// under the same layouts.
pub fn printed_document_reads()
    ensures { (file : FileId) → (prefix : Prefix) → (level : ℕ) → (tree : DefinitionTree Place) → (trees : List (DefinitionTree Place))
        → is_white_prefix prefix ≡ true → list_all definition_well_formed (tree ∷ trees) ≡ true → list_all definition_writable (tree ∷ trees) ≡ true
        → ReadsAlone (Derives (in_file file)) unplaced_document (document_text prefix level (tree ∷ trees)) (unplaced_document (tree ∷ trees)) }
{}

/// Two trees of one kind that are well-formed and writable have one text under a layout, on one line or on lines that white
/// space begins, exactly when they are equal, apart from places. Lists are printed with what is around
/// them in a text (parentheses, braces, a space, a word or a sign), and empty ones are no text; those of `directive_list` are alone.
pub fn equal_texts_are_of_equal_trees()
    ensures types { (a : TypeTree Place) → (b : TypeTree Place) → type_well_formed a ≡ true → type_well_formed b ≡ true
        → (type_text a ≡ type_text b) ↔ (unplaced_type a ≡ unplaced_type b) }
    ensures values { (const : Const) → (a : ValueTree Place) → (b : ValueTree Place) → value_well_formed a ≡ true → value_well_formed b ≡ true
        → value_writable const a ≡ true → value_writable const b ≡ true
        → (value_text a ≡ value_text b) ↔ (unplaced_value a ≡ unplaced_value b) }
    ensures operations { (prefix : Prefix) → (level : ℕ) → (at_start : Bool) → (a : OperationTree Place) → (b : OperationTree Place) → is_white_prefix prefix ≡ true
        → operation_well_formed a ≡ true → operation_well_formed b ≡ true → operation_writable a ≡ true → operation_writable b ≡ true
        → (operation_text at_start prefix a level ≡ operation_text at_start prefix b level) ↔ (unplaced_operation a ≡ unplaced_operation b) }
    ensures fragments { (prefix : Prefix) → (level : ℕ) → (a : FragmentTree Place) → (b : FragmentTree Place) → is_white_prefix prefix ≡ true
        → fragment_well_formed a ≡ true → fragment_well_formed b ≡ true → fragment_writable a ≡ true → fragment_writable b ≡ true
        → (fragment_text prefix a level ≡ fragment_text prefix b level) ↔ (unplaced_fragment a ≡ unplaced_fragment b) }
    ensures selections { (prefix : Prefix) → (level : ℕ) → (a : SelectionTrees Place) → (b : SelectionTrees Place) → is_white_prefix prefix ≡ true
        → has_selection a ≡ true → has_selection b ≡ true → selections_well_formed a ≡ true → selections_well_formed b ≡ true → selections_writable a ≡ true → selections_writable b ≡ true
        → (selections_text prefix a level ≡ selections_text prefix b level) ↔ (unplaced_selections a ≡ unplaced_selections b) }
    ensures documents { (prefix : Prefix) → (level : ℕ) → (a : DefinitionTree Place) → (b : DefinitionTree Place) → (as' : List (DefinitionTree Place)) → (bs : List (DefinitionTree Place)) → is_white_prefix prefix ≡ true
        → list_all definition_well_formed (a ∷ as') ≡ true → list_all definition_well_formed (b ∷ bs) ≡ true → list_all definition_writable (a ∷ as') ≡ true → list_all definition_writable (b ∷ bs) ≡ true
        → (document_text prefix level (a ∷ as') ≡ document_text prefix level (b ∷ bs)) ↔ (unplaced_document (a ∷ as') ≡ unplaced_document (b ∷ bs)) }
    ensures argument { (const : Const) → NodeTextTells (ArgumentTree Place) argument_well_formed (λ a. value_writable const a.value.it) argument_text unplaced_argument }
    ensures arguments { (const : Const) → TextTells (Arguments Place) arguments_well_formed (arguments_writable const) arguments_text unplaced_arguments }
    ensures directive { (const : Const) → NodeTextTells (DirectiveTree Place) directive_well_formed (directive_writable const) directive_text unplaced_directive }
    ensures directives { (const : Const) → TextTells (Directives Place) directives_well_formed (directives_writable const) directives_text unplaced_directives }
    ensures directive_list { (const : Const) → TextTells (Directives Place) directives_well_formed (directives_writable const) directive_list_text unplaced_directives }
    ensures default_value { TextTells (Option (Placed Place (ValueTree Place))) default_well_formed default_writable default_text (option_map (unplaced_node unplaced_value)) }
    ensures variable { NodeTextTells (VariableDefinitionTree Place) variable_well_formed variable_writable variable_text unplaced_variable_definition }
    ensures variables { TextTells (List (Placed Place (VariableDefinitionTree Place))) variables_well_formed variables_writable variables_text (map (unplaced_node unplaced_variable_definition)) }
    ensures selection { (prefix : Prefix) → (level : ℕ) → is_white_prefix prefix ≡ true
        → TextTells (SelectionTree Place) selection_well_formed selection_writable (λ t. selection_text prefix t level) unplaced_selection }
    ensures input_value { (prefix : Prefix) → (level : ℕ) → is_white_prefix prefix ≡ true
        → NodeTextTells (InputValueTree Place) input_value_well_formed input_value_writable (λ v. input_value_text prefix v level) unplaced_input_value }
    ensures argument_definitions { (prefix : Prefix) → (level : ℕ) → is_white_prefix prefix ≡ true
        → TextTells (InputValues Place) input_values_well_formed input_values_writable (λ vs. argument_definitions_text prefix vs level) (map (unplaced_node unplaced_input_value)) }
    ensures field_definition { (prefix : Prefix) → (level : ℕ) → is_white_prefix prefix ≡ true
        → NodeTextTells (FieldDefinitionTree Place) field_definition_well_formed field_definition_writable (λ f. field_definition_text prefix f level) unplaced_field_definition }
    ensures enum_value { (prefix : Prefix) → (level : ℕ) → is_white_prefix prefix ≡ true
        → NodeTextTells (EnumValueTree Place) enum_value_well_formed enum_value_writable (λ v. enum_value_text prefix v level) unplaced_enum_value }
    ensures root { (level : ℕ) → NodeTextTells (RootOperationTree Place) root_well_formed (λ r. true) (λ r. root_text r level) unplaced_root }
    ensures fields { (prefix : Prefix) → (level : ℕ) → is_white_prefix prefix ≡ true
        → TextTells (List (Placed Place (FieldDefinitionTree Place))) (list_all field_definition_well_formed) field_definitions_writable (λ fs. set_text prefix level (texts_of (field_definition_text prefix) fs)) (map (unplaced_node unplaced_field_definition)) }
    ensures enum_values { (prefix : Prefix) → (level : ℕ) → is_white_prefix prefix ≡ true
        → TextTells (List (Placed Place (EnumValueTree Place))) (list_all enum_value_well_formed) enum_values_writable (λ vs. set_text prefix level (texts_of (enum_value_text prefix) vs)) (map (unplaced_node unplaced_enum_value)) }
    ensures input_fields { (prefix : Prefix) → (level : ℕ) → is_white_prefix prefix ≡ true
        → TextTells (InputValues Place) input_values_well_formed input_values_writable (λ vs. set_text prefix level (texts_of (input_value_text prefix) vs)) (map (unplaced_node unplaced_input_value)) }
    ensures roots { (prefix : Prefix) → (level : ℕ) → is_white_prefix prefix ≡ true
        → TextTells (List (Placed Place (RootOperationTree Place))) (list_all root_well_formed) (λ rs. true) (λ rs. set_text prefix level (texts_of root_text rs)) (map (unplaced_node unplaced_root)) }
    ensures interfaces { TextTells (List (Text Place)) names_well_formed (λ ns. true) (names_text (codes " implements ") (codes " & ")) (map unplaced_text) }
    ensures members { TextTells (List (Text Place)) names_well_formed (λ ns. true) (names_text (codes " = ") (codes " | ")) (map unplaced_text) }
    ensures definition { (prefix : Prefix) → (level : ℕ) → is_white_prefix prefix ≡ true → (at_start : Bool)
        → TextTells (DefinitionTree Place) definition_well_formed definition_writable (λ d. definition_text at_start prefix d level) unplaced_definition }
{}
