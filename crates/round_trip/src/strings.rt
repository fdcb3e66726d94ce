//! What is printed of a string is read as it was. In all laws `following` is what follows the printed string.
ghost use Rattle.std.specs.Prelude.{◌≡◌, ◌⊎◌, ℕ, true, List, [], ◌++◌};
ghost use Rattle.read_tokens.specs.Strings.{string_value};
ghost use Rattle.read_tokens.specs.Blocks.{block_value};
ghost use Rattle.read_tokens.specs.declared.token.TokenKind.TheVariants as k;
ghost use Rattle.tree_literals.specs.LineLayout.{Prefix, break_text};
ghost use Rattle.tree_literals.specs.StringLayout.{quoted_text, can_be_block_string, block_text, description_string};
ghost use Rattle.round_trip.specs.Readings.{IsToken, IsReadAs, MayFollow, IsWhite, IsWhitePrefix};

/// Whatever bytes the text has, what is printed of it within quotation marks is one token, and stands for the text.
pub fn quoted_strings_are_read()
    ensures token { (text : List ℕ) → (following : List ℕ) → MayFollow text following → IsToken k.String (quoted_text text) following }
    ensures value { (text : List ℕ) → string_value (quoted_text text) ≡ text }
{}

/// Whatever lines the text has, what is printed of it as a block string is one token. It stands for the text where the
/// text can be a block string, and, but for the empty text, nowhere else.
pub fn block_strings_are_read()
    ensures token { (prefix : List ℕ) → (level : ℕ) → (text : List ℕ) → (following : List ℕ)
        → IsWhite prefix → IsToken k.BlockString (block_text prefix level text) following }
    ensures value { (prefix : List ℕ) → (level : ℕ) → (text : List ℕ)
        → IsWhite prefix → can_be_block_string text ≡ true → block_value (block_text prefix level text) ≡ text }
    ensures exact { (prefix : List ℕ) → (level : ℕ) → (text : List ℕ)
        → IsWhite prefix → block_value (block_text prefix level text) ≡ text → (text ≡ []) ⊎ (can_be_block_string text ≡ true) }
{}

/// What is printed of a description is one token and stands for its text, also with the end of its line after it.
pub fn descriptions_are_read()
    ensures alone { (prefix : Prefix) → (level : ℕ) → (text : List ℕ) → (following : List ℕ)
        → IsWhitePrefix prefix → MayFollow text following → IsReadAs (description_string prefix level text) text following }
    ensures in_place { (prefix : Prefix) → (level : ℕ) → (text : List ℕ) → (following : List ℕ)
        → IsWhitePrefix prefix → IsReadAs (description_string prefix level text) text (break_text prefix level ++ following) }
{}
