//! Layouts, and the texts of documents under them.

ghost use Rattle.std.specs.Prelude.{◌≡◌, ◌++◌, OnOk, IfOk, string_bytes};
ghost use Rattle.tree_definitions.specs.DefinitionTree.{document_tree};
ghost use Rattle.tree_definitions.specs.DocumentLayout.{document_text};
ghost use Rattle.tree_literals.specs.StringLayout.{is_blank};
ghost use Rattle.checker_calls.specs.Layouts.{prefix_of};

use std::alloc::{AllocError, Global};
use tree_definitions::Document;
use tree_literals::Tree;

/// How a text is laid out.
#[derive(Clone, Copy, Debug, PartialEq, Eq)]
pub enum Layout<'p> {
    /// All on one line, without a line feed at its end.
    OneLine,
    /// What is between braces one a line, each level indented by the prefix: only spaces and tabs ([`Layout::is_prefix`]),
    /// so that it may be read again. The text ends with a line feed.
    Indented(&'p str),
}

impl Layout<'_> {
    /// Whether lines may begin with it: it has only spaces and tabs. The empty one may, too.
    pub fn is_prefix(prefix: &str) -> bool
        ensures { result ≡ is_blank prefix.now }
    {
        prefix.bytes().all(|byte| byte == b' ' || byte == b'\t')
    }
}

/// The text of a document under a layout.
pub fn written(alloc: Global, document: &Document, layout: Layout<'_>) -> Result<String, AllocError>
    ensures { IfOk result (λ text. string_bytes text ≡ document_text (prefix_of layout.entry) 0 (document_tree document.now)) }
{
    let mut text = String::new(alloc);
    push_written(&mut text, document, layout)?;
    Ok(text)
}

/// Adds the text of a document under a layout, which may be long, without a copy of it.
pub(crate) fn push_written(
    text: &mut String,
    document: &Document,
    layout: Layout<'_>,
) -> Result<(), AllocError>
    ensures { OnOk result (string_bytes text.new ≡ string_bytes text.old ++ document_text (prefix_of layout.entry) 0 (document_tree document.now)) }
{
    let laid_out = match layout {
        Layout::OneLine => document.serialize().no_indent(),
        Layout::Indented(prefix) => document.serialize().indent_prefix(prefix),
    };
    write!(text, "{laid_out}")
}
