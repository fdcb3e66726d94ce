//! Arguments and directives.
ghost use Rattle.std.specs.Prelude.{◌≡◌, ◌∷◌, ℕ, List, [], map, codes};
ghost use Rattle.std.specs.Option.{option_copied};
ghost use Rattle.tree_literals.specs.in_names.Placed.{node_tree, Place};
ghost use Rattle.tree_literals.specs.Levels.{level_depth};
ghost use Rattle.tree_literals.specs.Joined.{joined, after, further_text};
ghost use Rattle.tree_literals.specs.LineLayout.{texts_of};
ghost use Rattle.tree_directives.specs.DirectiveTree.{argument_tree, directive_tree, directives_tree};
ghost use Rattle.tree_directives.specs.DirectiveLayout.{argument_text, arguments_text, directive_text, directives_text, directive_list_text, directives_alone};

use crate::directive::{Argument, Directive, DirectiveList};
use tree_literals::{Level, Node, Sink, put_named_value, put_start};

pub fn put_argument<S: Sink>(sink: &mut S, argument: &Argument)
    ensures { S.puts sink.old (argument_text (argument_tree argument.now)) sink.new }
{
    put_named_value(sink, &argument.name, argument.value.content());
}

fn put_next_argument<S: Sink>(sink: &mut S, argument: &Argument)
    ensures { S.puts sink.old (after (codes ", ") (argument_text (argument_tree argument.now))) sink.new }
{
    sink.put(", ");
    put_argument(sink, argument);
}

fn put_further_arguments<S: Sink>(sink: &mut S, arguments: &[Node<Argument>])
    ensures { S.puts sink.old (further_text (codes ", ") (texts_of argument_text (map (node_tree argument_tree) arguments.now))) sink.new }
{
    for argument in arguments {
        put_next_argument(sink, argument.content());
    }
}

/// Arguments within parentheses. Public for the printers of the crates above.
pub fn put_arguments<S: Sink>(sink: &mut S, arguments: &[Node<Argument>])
    ensures { S.puts sink.old (arguments_text (map (node_tree argument_tree) arguments.now)) sink.new }
{
    match arguments {
        [] => {}
        [first, further @ ..] => {
            sink.put("(");
            put_argument(sink, first.content());
            put_further_arguments(sink, further);
            sink.put(")");
        }
    }
}

pub fn put_directive<S: Sink>(sink: &mut S, directive: &Directive)
    ensures { S.puts sink.old (directive_text (directive_tree directive.now)) sink.new }
{
    sink.put("@");
    sink.put(directive.name.as_str());
    put_arguments(sink, &directive.arguments);
}

fn put_next_directive<S: Sink>(sink: &mut S, directive: &Directive)
    ensures { S.puts sink.old (after (codes " ") (directive_text (directive_tree directive.now))) sink.new }
{
    sink.put(" ");
    put_directive(sink, directive);
}

fn put_further_directives<S: Sink>(sink: &mut S, directives: &[Node<Directive>])
    ensures { S.puts sink.old (directives_text (map (node_tree directive_tree) directives.now)) sink.new }
{
    for directive in directives {
        put_next_directive(sink, directive.content());
    }
}

/// Directives after something else. Public for the printers of the crates above.
pub fn put_directives<S: Sink>(sink: &mut S, directives: &DirectiveList)
    ensures { S.puts sink.old (directives_text (directives_tree directives.now)) sink.new }
{
    put_further_directives(sink, &directives.0);
}

fn put_directive_row<S: Sink>(sink: &mut S, directives: &[Node<Directive>])
    ensures { S.puts sink.old (directive_list_text (map (node_tree directive_tree) directives.now)) sink.new }
{
    match directives {
        [] => {}
        [first, further @ ..] => {
            put_directive(sink, first.content());
            put_further_directives(sink, further);
        }
    }
}

/// Directives by themselves.
pub fn put_directive_list<S: Sink>(
    sink: &mut S,
    prefix: Option<&str>,
    level: &Level,
    directives: &[Node<Directive>],
)
    ensures { S.puts sink.old (directives_alone (option_copied prefix.entry) (level_depth level.now) (map (node_tree directive_tree) directives.now)) sink.new }
{
    match directives {
        [] => {}
        [_, ..] => {
            put_start(sink, prefix, level);
            put_directive_row(sink, directives);
        }
    }
}
