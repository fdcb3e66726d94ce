//! Laws of the definitions, each the contract of a function.
ghost use Rattle.std.specs.Prelude.{◌≡◌, ℕ, List};
ghost use Rattle.read_tokens.specs.Input.{Token};
ghost use Rattle.read_tokens.specs.Lex.{Lex};

/// A text has at most one list of tokens.
#[tactic(auto, using(crate::proofs::Lexed::lex_unique))]
pub fn one_list_of_tokens()
    ensures { (text : List ℕ) → (tokens : List Token) → (others : List Token) → Lex text tokens → Lex text others → tokens ≡ others }
{}
