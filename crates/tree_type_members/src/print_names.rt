//! Names, and the heads of definitions.
ghost use Rattle.std.specs.Prelude.{map};
ghost use Rattle.tree_literals.specs.in_names.Placed.{name_tree};
ghost use Rattle.tree_directives.specs.DirectiveTree.{directives_tree};
ghost use Rattle.tree_literals.specs.Joined.{after, further_text};
ghost use Rattle.tree_type_members.specs.TypeSystemLayout.{name_text, names_text, head_text};

use tree_directives::{DirectiveList, put_directives};
use tree_literals::{Name, NamedType, Sink};

fn put_next_name<S: Sink>(sink: &mut S, sign: &str, name: &Name)
    ensures { S.puts sink.old (after sign.now (name_text (name_tree name.now))) sink.new }
{
    sink.put(sign);
    sink.put(name.as_str());
}

fn put_further_names<S: Sink>(sink: &mut S, sign: &str, names: &[Name])
    ensures { S.puts sink.old (further_text sign.now (map name_text (map name_tree names.now))) sink.new }
{
    for name in names {
        put_next_name(sink, sign, name);
    }
}

/// Names after a keyword, with a sign between each two. For the crates of definitions above.
pub fn put_names<S: Sink>(sink: &mut S, keyword: &str, sign: &str, names: &[Name])
    ensures { S.puts sink.old (names_text keyword.now sign.now (map name_tree names.now)) sink.new }
{
    match names {
        [] => {}
        [first, further @ ..] => {
            sink.put(keyword);
            sink.put(first.as_str());
            put_further_names(sink, sign, further);
        }
    }
}

/// Keyword, name, interfaces and directives of a type. For the crates of definitions above.
pub fn put_head<S: Sink>(
    sink: &mut S,
    keyword: &str,
    name: &Name,
    interfaces: &[NamedType],
    directives: &DirectiveList,
)
    ensures { S.puts sink.old (head_text keyword.now (name_tree name.now) (map name_tree interfaces.now) (directives_tree directives.now)) sink.new }
{
    sink.put(keyword);
    sink.put(name.as_str());
    put_names(sink, " implements ", " & ", interfaces);
    put_directives(sink, directives);
}
