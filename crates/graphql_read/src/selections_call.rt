//! Selections, from texts (section 2.4).
ghost use Rattle.std.specs.Prelude.{IfOk, IfErr};
ghost use Rattle.read_grammar.specs.OperationReading as operations;
ghost use Rattle.read_grammar.specs.Reading as read;
ghost use Rattle.read_grammar.specs.Grammar.{DerivesSelections};
ghost use Rattle.read_types.specs.in_read_operations.Meanings.{in_file};
ghost use Rattle.graphql_read.specs.Calls.{all_of};
ghost use Rattle.graphql_read.specs.ReadFaults.{fault_view, selections_tree, IsEachTreeUnlessMemory, LiesIn, KeepsToBound};
ghost use Rattle.graphql_read.specs.Reads.{ReadsWithin, IsDue};
ghost use Rattle.graphql_read.specs.Sound.{AreSound};

use crate::fault::ReadFault;
use crate::finish::{end_of_text, fault};
use graphql_names::FileId;
use read_tokens::TokenCursor;
use read_types::{ParseError, selections};
use std::alloc::Global;
use std::rc::RcStr;
use tree_operations::Selection;

/// `Selection+`, and nothing after it.
fn whole_selections(
    alloc: Global,
    tokens: &mut TokenCursor<'_>,
    file: FileId,
    nesting: usize,
) -> Result<Vec<Selection>, ParseError>
    ensures { read.Reads selections_tree (all_of (operations.selections (in_file file) nesting) tokens.old) result tokens.new }
{
    let found = selections(alloc, tokens, file, nesting)?;
    end_of_text(tokens)?;
    Ok(found)
}

/// The selections that are written in a text: one or more, without braces around them, with at most `nesting` brackets
/// open at once.
pub fn parse_selections(
    alloc: Global,
    text: &str,
    file: FileId,
    nesting: usize,
) -> Result<Vec<Selection>, ReadFault>
    ensures found { IfOk result (λ x. ReadsWithin (DerivesSelections (in_file file)) nesting text.now (selections_tree x)) }
    ensures sound { IfOk result (λ x. AreSound file.0 (selections_tree x)) }
    ensures only { IsEachTreeUnlessMemory selections_tree (DerivesSelections (in_file file)) nesting text.now result }
    ensures fault { IfErr result (λ e. IsDue (DerivesSelections (in_file file)) nesting text.now (fault_view e)) }
    ensures within { IfErr result (λ e. LiesIn text.now (fault_view e)) }
    ensures bound { KeepsToBound nesting text.now result }
{
    // The text is copied once, so that names can be parts of the copy.
    let shared = RcStr::from_str(alloc, text)?;
    let mut tokens = TokenCursor::new(&shared);
    match whole_selections(alloc, &mut tokens, file, nesting) {
        Ok(found) => Ok(found),
        Err(stop) => Err(fault(&tokens, stop)),
    }
}
