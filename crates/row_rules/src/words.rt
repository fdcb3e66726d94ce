//! Items and names in words.

use graphql_faults::{CommaSeparated, NameOrAnon};
use row_files::Answer;
use std::alloc::{AllocError, Global};

/// Adds the lines of the text as a list, and the first of them as the name of an operation, which is anonymous if there is
/// none.
pub(crate) fn push_words(alloc: Global, text: &str, answer: &mut Answer) -> Result<(), AllocError> {
    let mut items = Vec::new(alloc);
    for line in text.lines() {
        items.push(line)?;
    }
    let name = NameOrAnon {
        name: items.first(),
        if_some_prefix: "operation",
        if_none: "an anonymous operation",
    };
    answer
        .text
        .show_between("", &CommaSeparated(items.as_slice()), "\n");
    answer.text.show_between("", &name, "\n");
    answer.status.put("0");
    Ok(())
}
