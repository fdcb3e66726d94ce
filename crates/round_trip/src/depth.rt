//! How deep the brackets of a text nest is told by its tree.

ghost use Rattle.std.specs.Prelude.{◌≡◌, ℕ, true, List};
ghost use Rattle.std.specs.List.{list_all};
ghost use Rattle.graphql_names.specs.Placed.{Place};
ghost use Rattle.tree_literals.specs.LineLayout.{Prefix};
ghost use Rattle.read_operations.specs.in_literals.TypeTree.{TypeTree, unplaced_type};
ghost use Rattle.read_operations.specs.in_literals.ValueLayout.{type_text};
ghost use Rattle.read_operations.specs.in_operations.SelectionTree.{SelectionTrees, unplaced_selections};
ghost use Rattle.read_operations.specs.in_values.Writable.{has_selection, selections_writable};
ghost use Rattle.read_operations.specs.in_definitions.DefinitionTree.{DefinitionTree, unplaced_document};
ghost use Rattle.read_operations.specs.in_definitions.DocumentLayout.{document_text};
ghost use Rattle.read_operations.specs.in_definitions.Writable.{document_writable};
ghost use Rattle.read_operations.specs.in_grammar.Meaning.{Meaning};
ghost use Rattle.read_operations.specs.in_grammar.Grammar.{Derives, DerivesType, DerivesSelections};
ghost use Rattle.round_trip.specs.WellFormed.{is_white_prefix, type_well_formed, selections_well_formed};
ghost use Rattle.round_trip.specs.Definitions.{definition_well_formed};
ghost use Rattle.round_trip.specs.SelectionsLayout.{selections_text};
ghost use Rattle.round_trip.specs.TreeDepth.{type_depth, selections_depth, document_depth};
ghost use Rattle.round_trip.specs.NestsAlike.{NestAsTrees, NestAlike, HasDepth};

/// The brackets of tokens nest as deep as the tree of the tokens.
pub fn tokens_nest_as_their_tree()
    ensures documents { (m : Meaning Place) → NestAsTrees (Derives m) document_depth }
    ensures types { (m : Meaning Place) → NestAsTrees (DerivesType m) type_depth }
    ensures selections { (m : Meaning Place) → NestAsTrees (DerivesSelections m) selections_depth }
{}

/// How deep a tree is does not depend on places.
pub fn depths_count_no_places()
    ensures documents { (trees : List (DefinitionTree Place)) → document_depth (unplaced_document trees) ≡ document_depth trees }
    ensures types { (tree : TypeTree Place) → type_depth (unplaced_type tree) ≡ type_depth tree }
    ensures selections { (trees : SelectionTrees Place) → selections_depth (unplaced_selections trees) ≡ selections_depth trees }
{}

/// Tokens whose trees are equal, apart from places, nest equally deep.
pub fn texts_of_equal_trees_nest_alike()
    ensures documents { (m : Meaning Place) → (other : Meaning Place) → NestAlike unplaced_document (Derives m) (Derives other) }
    ensures types { (m : Meaning Place) → (other : Meaning Place) → NestAlike unplaced_type (DerivesType m) (DerivesType other) }
    ensures selections { (m : Meaning Place) → (other : Meaning Place) → NestAlike unplaced_selections (DerivesSelections m) (DerivesSelections other) }
{}

/// What is printed of a tree that is well-formed and writable nests as deep as the tree; a document and selections on one line
/// or on lines that white space begins, at any level.
pub fn printed_texts_nest_as_their_tree()
    ensures documents { (prefix : Prefix) → (level : ℕ) → (trees : List (DefinitionTree Place))
        → is_white_prefix prefix ≡ true → list_all definition_well_formed trees ≡ true → document_writable trees ≡ true
        → HasDepth (document_text prefix level trees) (document_depth trees) }
    ensures types { (tree : TypeTree Place) → type_well_formed tree ≡ true → HasDepth (type_text tree) (type_depth tree) }
    ensures selections { (prefix : Prefix) → (level : ℕ) → (tree : SelectionTrees Place)
        → is_white_prefix prefix ≡ true → has_selection tree ≡ true → selections_well_formed tree ≡ true → selections_writable tree ≡ true
        → HasDepth (selections_text prefix tree level) (selections_depth tree) }
{}
