//! Descriptions, as quoted strings and as block strings.
ghost use Rattle.std.specs.Prelude.{◌≡◌, ◌∷◌, ◌&&◌, codes, ℕ, List, [], Bool, true, false, not, map, MatchOption, Some, None};
ghost use Rattle.std.specs.List.{list_any, list_all};
ghost use Rattle.std.specs.Option.{option_copied, option_map};
ghost use Rattle.graphql_names.specs.Placed.{text_tree, Place};
ghost use Rattle.tree_literals.specs.Joined.{joined};
ghost use Rattle.tree_literals.specs.Levels.{level_depth};
ghost use Rattle.tree_literals.specs.StringLayout.{is_tab_or_space, is_blank, is_at_margin, has_byte, text_lines, first_is_blank, last_is_blank, can_be_block_string, block_escaped, block_line, block_text, description_string, description_text};
ghost use Rattle.tree_literals.specs.EscapeRuns.{begins_with_quotes, FirstQuotes};

use crate::level::Level;
use crate::print_lines::{put_break, put_line_start};
use crate::print_string::put_quoted;
use crate::sink::Sink;
use graphql_names::NodeStr;

fn is_tab_or_space(byte: u8) -> bool
    ensures { result ≡ is_tab_or_space byte }
{
    byte == b'\t' || byte == b' '
}

fn is_blank(line: &[u8]) -> bool
    ensures { result ≡ is_blank line.now }
{
    for byte in line {
        if !is_tab_or_space(*byte) {
            return false;
        }
    }
    true
}

fn is_at_margin(line: &[u8]) -> bool
    ensures { result ≡ is_at_margin line.now }
{
    match line {
        [] => false,
        [first, ..] => !is_tab_or_space(*first),
    }
}

fn has_byte(wanted: u8, text: &[u8]) -> bool
    ensures { result ≡ has_byte wanted text.now }
{
    for byte in text {
        if *byte == wanted {
            return true;
        }
    }
    false
}

fn first_line_is_blank(text: &str) -> bool
    ensures { result ≡ first_is_blank (text_lines text.now) }
{
    match text.split_once('\n') {
        None => is_blank(text.as_bytes()),
        Some((line, _)) => is_blank(line.as_bytes()),
    }
}

/// Whether the last line is not blank, and some line begins at the margin.
fn lines_end_well(text: &str) -> bool
    ensures { result ≡ (not (last_is_blank (text_lines text.now)) && list_any is_at_margin (text_lines text.now)) }
{
    let mut last_is_blank = true;
    let mut one_at_margin = false;
    for line in text.split('\n') {
        last_is_blank = is_blank(line.as_bytes());
        one_at_margin = one_at_margin | is_at_margin(line.as_bytes());
    }
    !last_is_blank && one_at_margin
}

/// Whether the text's lines, set as a block string, are read back as they are.
// Reading drops blank lines at both ends and the common indent, and takes `\r` as the end of a line (section 2.9.4).
fn can_be_block_string(text: &str) -> bool
    ensures { result ≡ can_be_block_string text.now }
{
    !has_byte(b'\r', text.as_bytes()) && !first_line_is_blank(text) && lines_end_well(text)
}

fn begins_with_quotes(bytes: &[u8]) -> bool
    ensures { result ≡ begins_with_quotes bytes.now }
{
    match bytes {
        [a, b, c, ..] => *a == b'"' && *b == b'"' && *c == b'"',
        _ => false,
    }
}

/// Where the first `"""` is.
fn first_quotes(bytes: &[u8]) -> Option<usize>
    ensures { MatchOption result (block_escaped bytes.now ≡ bytes.now) (λ i. FirstQuotes bytes.now i) }
{
    for i in 0..bytes.len() {
        if begins_with_quotes(&bytes[i..]) {
            return Some(i);
        }
    }
    None
}

fn put_block_escaped<S: Sink>(sink: &mut S, line: &str)
    ensures { S.puts sink.old (block_escaped line.now) sink.new }
{
    let mut rest = line;
    while let Some(i) = first_quotes(rest.as_bytes()) {
        sink.put(&rest[..i]);
        sink.put("\\\"\"\"");
        rest = &rest[i + 3..];
    }
    sink.put(rest);
}

fn put_block_line<S: Sink>(sink: &mut S, prefix: &str, level: &Level, line: &str)
    ensures { S.puts sink.old (block_line prefix.now (level_depth level.now) line.now) sink.new }
{
    if line.is_empty() {
        sink.put("\n");
    } else {
        sink.put("\n");
        put_line_start(sink, prefix, level);
        put_block_escaped(sink, line);
    }
}

fn put_block_lines<S: Sink>(sink: &mut S, prefix: &str, level: &Level, text: &str)
    ensures { S.puts sink.old (joined (map (block_line prefix.now (level_depth level.now)) (text_lines text.now))) sink.new }
{
    for line in text.split('\n') {
        put_block_line(sink, prefix, level, line);
    }
}

fn put_block<S: Sink>(sink: &mut S, prefix: &str, level: &Level, text: &str)
    ensures { S.puts sink.old (block_text prefix.now (level_depth level.now) text.now) sink.new }
{
    sink.put("\"\"\"");
    put_block_lines(sink, prefix, level, text);
    put_break(sink, Some(prefix), level);
    sink.put("\"\"\"");
}

fn put_string_on_lines<S: Sink>(sink: &mut S, prefix: &str, level: &Level, text: &str)
    ensures { S.puts sink.old (description_string (Some prefix.now) (level_depth level.now) text.now) sink.new }
{
    if has_byte(b'\n', text.as_bytes()) && can_be_block_string(text) {
        put_block(sink, prefix, level, text);
    } else {
        put_quoted(sink, text);
    }
}

fn put_description_string<S: Sink>(sink: &mut S, prefix: Option<&str>, level: &Level, text: &str)
    ensures { S.puts sink.old (description_string (option_copied prefix.entry) (level_depth level.now) text.now) sink.new }
{
    match prefix {
        None => put_quoted(sink, text),
        Some(prefix) => put_string_on_lines(sink, prefix, level, text),
    }
}

/// A description, before what it describes. Public for the printers of the crates above.
pub fn put_description<S: Sink>(
    sink: &mut S,
    prefix: Option<&str>,
    level: &Level,
    description: &Option<NodeStr>,
)
    ensures { S.puts sink.old (description_text (option_copied prefix.entry) (level_depth level.now) (option_map text_tree description.now)) sink.new }
{
    match description {
        None => {}
        Some(text) => {
            put_description_string(sink, prefix, level, text.as_str());
            put_break(sink, prefix, level);
        }
    }
}
