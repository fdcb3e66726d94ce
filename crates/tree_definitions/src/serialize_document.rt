//! The texts of documents and of definitions in general by themselves.
ghost use Rattle.std.specs.Prelude.{Some};
ghost use Rattle.spec_tree.specs.in_operations.LineLayout.{default_prefix, standing};
ghost use Rattle.spec_tree.specs.in_operations.OperationLayout.{begins_output};
ghost use Rattle.tree_definitions.specs.DefinitionTree.{definition_tree, document_tree};
ghost use Rattle.tree_definitions.specs.DocumentLayout.{definition_text, document_text};

use crate::definition::Definition;
use crate::document::Document;
use crate::print_document::{put_definition, put_document};
use spec_tree::begins_output;
use std::fmt;
use tree_literals::{Level, Sink, Tree, put_start};

impl Tree for Definition {
    ghost text = { λ t prefix level. standing prefix level (definition_text (begins_output prefix level) prefix (definition_tree t) level) };

    fn put<S: Sink>(&self, sink: &mut S, prefix: Option<&str>, level: &Level) {
        put_start(sink, prefix, level);
        let at_start = begins_output(prefix, level);
        put_definition(sink, prefix, level, at_start, self);
    }
}

impl fmt::Display for Definition {
    ghost output = { λ t. Some (standing default_prefix 0 (definition_text (begins_output default_prefix 0) default_prefix (definition_tree t) 0)) };

    fn fmt<W: fmt::Write>(&self, f: &mut fmt::Formatter<W>) -> fmt::Result {
        self.serialize().fmt(f)
    }
}

impl Tree for Document {
    ghost text = { λ t prefix level. document_text prefix level (document_tree t) };

    fn put<S: Sink>(&self, sink: &mut S, prefix: Option<&str>, level: &Level) {
        put_document(sink, prefix, level, &self.definitions);
    }
}

impl fmt::Display for Document {
    ghost output = { λ t. Some (document_text default_prefix 0 (document_tree t)) };

    fn fmt<W: fmt::Write>(&self, f: &mut fmt::Formatter<W>) -> fmt::Result {
        self.serialize().fmt(f)
    }
}
