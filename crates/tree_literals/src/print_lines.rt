//! What begins, parts and ends the lines of a text.
ghost use Rattle.std.specs.Prelude.{◌≡◌, ◌∷◌, codes, ℕ, List, [], replicate};
ghost use Rattle.std.specs.Option.{option_copied};
ghost use Rattle.tree_literals.specs.Joined.{joined};
ghost use Rattle.tree_literals.specs.Levels.{level_depth};
ghost use Rattle.tree_literals.specs.LineLayout.{line_start, start_text, break_text};

use crate::level::Level;
use crate::sink::Sink;

fn put_times<S: Sink>(sink: &mut S, text: &str, times: usize)
    ensures { S.puts sink.old (joined (replicate times text.now)) sink.new }
{
    // A caller may ask for any number of empty prefixes.
    if text.is_empty() {
        return;
    }
    for _ in 0..times {
        // A level may be large: once the sink has failed, the rest of the prefixes is skipped.
        if sink.is_stopped() {
            return;
        }
        sink.put(text);
    }
}

/// What begins a line.
pub fn put_line_start<S: Sink>(sink: &mut S, prefix: &str, level: &Level)
    ensures { S.puts sink.old (line_start prefix.now (level_depth level.now)) sink.new }
{
    match level {
        Level::Outer(times) => put_times(sink, prefix, *times),
        Level::In(outer) => {
            sink.put(prefix);
            put_line_start(sink, prefix, outer);
        }
    }
}

/// What begins the first line of a whole text. Public for the printers of the crates above.
pub fn put_start<S: Sink>(sink: &mut S, prefix: Option<&str>, level: &Level)
    ensures { S.puts sink.old (start_text (option_copied prefix.entry) (level_depth level.now)) sink.new }
{
    match prefix {
        None => {}
        Some(prefix) => put_line_start(sink, prefix, level),
    }
}

/// A new line, or a space where the layout is one line. Public for the printers of the crates above.
pub fn put_break<S: Sink>(sink: &mut S, prefix: Option<&str>, level: &Level)
    ensures { S.puts sink.old (break_text (option_copied prefix.entry) (level_depth level.now)) sink.new }
{
    match prefix {
        None => sink.put(" "),
        Some(prefix) => {
            sink.put("\n");
            put_line_start(sink, prefix, level);
        }
    }
}
