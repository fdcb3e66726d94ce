//! Laws of the grammar, each the contract of a function.
ghost use Rattle.std.specs.Prelude.{◌≡◌, List};
ghost use Rattle.graphql_names.specs.Placed.{Place};
ghost use Rattle.graphql_ast.specs.in_literals.TypeTree.{TypeTree};
ghost use Rattle.graphql_ast.specs.in_operations.SelectionTree.{SelectionTrees};
ghost use Rattle.graphql_ast.specs.in_definitions.DefinitionTree.{DefinitionTree};
ghost use Rattle.read_tokens.specs.Input.{Token};
ghost use Rattle.read_grammar.specs.Meaning.{Meaning};
ghost use Rattle.read_grammar.specs.Grammar.{Derives, DerivesType, DerivesSelections};

/// Tokens are a document with at most one tree.
pub fn one_document_tree()
    ensures { (m : Meaning Place) → (tokens : List Token) → (tree : List (DefinitionTree Place)) → (other : List (DefinitionTree Place))
        → Derives m tokens tree → Derives m tokens other → tree ≡ other }
{}

/// Tokens are a type with at most one tree.
pub fn one_type_tree()
    ensures { (m : Meaning Place) → (tokens : List Token) → (tree : TypeTree Place) → (other : TypeTree Place)
        → DerivesType m tokens tree → DerivesType m tokens other → tree ≡ other }
{}

/// Tokens are selections with at most one tree.
pub fn one_selections_tree()
    ensures { (m : Meaning Place) → (tokens : List Token) → (tree : SelectionTrees Place) → (other : SelectionTrees Place)
        → DerivesSelections m tokens tree → DerivesSelections m tokens other → tree ≡ other }
{}
