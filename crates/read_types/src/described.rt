//! Names with descriptions.
ghost use Rattle.std.specs.Prelude.{◌≡◌};
ghost use Rattle.std.specs.Option.{option_map};
ghost use Rattle.read_tokens.specs.Input as input;
ghost use Rattle.graphql_names.specs.Placed.{name_tree, text_tree};
ghost use Rattle.read_grammar.specs.Begins as begins;
ghost use Rattle.read_grammar.specs.Kinds as kinds;
ghost use Rattle.read_grammar.specs.Reading.{Reads};
ghost use Rattle.read_operations.specs.Meanings.{in_file};
ghost use Rattle.read_types.specs.MemberSteps as steps;

use graphql_names::{FileId, Name, NodeStr};
use read_operations::{ParseError, name, next_is_name, next_is_string, optional_description};
use read_tokens::TokenCursor;
use std::alloc::Global;

/// Whether a definition within brackets may begin with the next token: a description, or a name.
pub fn begins_described_name(tokens: &TokenCursor<'_>) -> bool
    ensures { result ≡ kinds.next_is begins.begins_described_name (input.next tokens.now) }
{
    next_is_string(tokens) || next_is_name(tokens)
}

/// `Description? Name`.
pub fn described_name(
    alloc: Global,
    tokens: &mut TokenCursor<'_>,
    file: FileId,
) -> Result<(Option<NodeStr>, Name), ParseError>
    ensures { Reads (λ x. (option_map text_tree x.0, name_tree x.1)) (steps.described_name (in_file file) tokens.old) result tokens.new }
{
    let description = optional_description(alloc, tokens, file)?;
    let name = name(tokens, file)?;
    Ok((description, name))
}
