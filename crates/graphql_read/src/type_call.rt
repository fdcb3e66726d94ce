//! References to types, from texts (section 2.11).
ghost use Rattle.std.specs.Prelude.{IfOk, IfErr};
ghost use Rattle.tree_literals.specs.TypeTree.{type_tree};
ghost use Rattle.read_grammar.specs.ValueReading as values;
ghost use Rattle.read_grammar.specs.Reading as read;
ghost use Rattle.read_grammar.specs.Grammar.{DerivesType};
ghost use Rattle.read_types.specs.in_read_operations.Meanings.{in_file};
ghost use Rattle.graphql_read.specs.Calls.{all_of};
ghost use Rattle.graphql_read.specs.ReadFaults.{fault_view, IsEachTreeUnlessMemory, LiesIn, KeepsToBound};
ghost use Rattle.graphql_read.specs.Reads.{ReadsWithin, IsDue};
ghost use Rattle.graphql_read.specs.Sound.{IsSoundType};

use crate::fault::ReadFault;
use crate::finish::{end_of_text, fault};
use graphql_names::FileId;
use read_tokens::TokenCursor;
use read_types::{ParseError, ty};
use std::alloc::Global;
use std::rc::RcStr;
use tree_literals::Type;

/// Type, and nothing after it.
fn whole_type(
    alloc: Global,
    tokens: &mut TokenCursor<'_>,
    file: FileId,
    nesting: usize,
) -> Result<Type, ParseError>
    ensures { read.Reads type_tree (all_of (values.type (in_file file) nesting) tokens.old) result tokens.new }
{
    let found = ty(alloc, tokens, file, nesting)?;
    end_of_text(tokens)?;
    Ok(found)
}

/// The type that is written in a text, with at most `nesting` brackets open at once.
pub fn parse_type(
    alloc: Global,
    text: &str,
    file: FileId,
    nesting: usize,
) -> Result<Type, ReadFault>
    ensures found { IfOk result (λ x. ReadsWithin (DerivesType (in_file file)) nesting text.now (type_tree x)) }
    ensures sound { IfOk result (λ x. IsSoundType file.0 (type_tree x)) }
    ensures only { IsEachTreeUnlessMemory type_tree (DerivesType (in_file file)) nesting text.now result }
    ensures fault { IfErr result (λ e. IsDue (DerivesType (in_file file)) nesting text.now (fault_view e)) }
    ensures within { IfErr result (λ e. LiesIn text.now (fault_view e)) }
    ensures bound { KeepsToBound nesting text.now result }
{
    // The text is copied once, so that names can be parts of the copy.
    let shared = RcStr::from_str(alloc, text)?;
    let mut tokens = TokenCursor::new(&shared);
    match whole_type(alloc, &mut tokens, file, nesting) {
        Ok(found) => Ok(found),
        Err(stop) => Err(fault(&tokens, stop)),
    }
}
