//! The texts of unions by themselves.
ghost use Rattle.std.specs.Prelude.{Some};
ghost use Rattle.std.specs.Option.{option_map};
ghost use Rattle.tree_literals.specs.in_names.Placed.{text_tree};
ghost use Rattle.tree_literals.specs.LineLayout.{default_prefix, standing};
ghost use Rattle.tree_literals.specs.StringLayout.{description_text};
ghost use Rattle.tree_type_members.specs.TypeSystemLayout.{extend, union_text};
ghost use Rattle.tree_composite_types.specs.CompositeTree.{union_parts, union_extension_parts};

use crate::print_composite::{put_union_definition, put_union_extension};
use crate::union_type::{UnionTypeDefinition, UnionTypeExtension};
use std::fmt;
use tree_literals::{Level, Sink, Tree, put_start};

impl Tree for UnionTypeDefinition {
    ghost text = { λ t prefix level. standing prefix level (union_text (description_text prefix level (option_map text_tree t.description)) (union_parts t)) };

    fn put<S: Sink>(&self, sink: &mut S, prefix: Option<&str>, level: &Level) {
        put_start(sink, prefix, level);
        put_union_definition(sink, prefix, level, self);
    }
}

impl fmt::Display for UnionTypeDefinition {
    ghost output = { λ t. Some (standing default_prefix 0 (union_text (description_text default_prefix 0 (option_map text_tree t.description)) (union_parts t))) };

    fn fmt<W: fmt::Write>(&self, f: &mut fmt::Formatter<W>) -> fmt::Result {
        self.serialize().fmt(f)
    }
}

impl Tree for UnionTypeExtension {
    ghost text = { λ t prefix level. standing prefix level (union_text extend (union_extension_parts t)) };

    fn put<S: Sink>(&self, sink: &mut S, prefix: Option<&str>, level: &Level) {
        put_start(sink, prefix, level);
        put_union_extension(sink, prefix, level, self);
    }
}

impl fmt::Display for UnionTypeExtension {
    ghost output = { λ t. Some (standing default_prefix 0 (union_text extend (union_extension_parts t))) };

    fn fmt<W: fmt::Write>(&self, f: &mut fmt::Formatter<W>) -> fmt::Result {
        self.serialize().fmt(f)
    }
}
