//! Strings and descriptions.
ghost use Rattle.std.specs.Prelude.{◌≡◌, ◌∷◌, ◌<◌, ◌≤◌, ◌+◌, codes, ℕ, List, [], length, slice_index, true, false, take, drop, IsTrue, IfSome, MatchOption, Bool, map};
ghost use Rattle.std.specs.Fmt.{digit_glyph};
ghost use Rattle.std.specs.Option.{option_copied};
ghost use Rattle.std.specs.List.{position_or_len, list_any};
ghost use Rattle.tree_literals.specs.Joined.{joined};
ghost use Rattle.tree_literals.specs.StringLayout.{control_text, escaped_byte, escaped_text, quoted_text};
ghost use Rattle.tree_literals.specs.EscapeRuns.{must_escape, FirstEscape};

use crate::sink::Sink;

// `|` and not `||`: without branches the compiler can test many bytes at a time.
fn must_escape(byte: u8) -> bool
    ensures { result ≡ must_escape byte }
{
    (byte < 32) | (byte == b'"') | (byte == b'\\') | (byte == 127)
}

fn hex_digit(n: u8) -> &'static str
    requires { n < 16 }
    ensures { result.now ≡ digit_glyph true n ∷ [] }
{
    match n {
        0 => "0",
        1 => "1",
        2 => "2",
        3 => "3",
        4 => "4",
        5 => "5",
        6 => "6",
        7 => "7",
        8 => "8",
        9 => "9",
        10 => "A",
        11 => "B",
        12 => "C",
        13 => "D",
        14 => "E",
        _ => "F",
    }
}

fn put_control<S: Sink>(sink: &mut S, byte: u8)
    ensures { S.puts sink.old (control_text byte) sink.new }
{
    sink.put("\\u00");
    sink.put(hex_digit(byte / 16));
    sink.put(hex_digit(byte % 16));
}

fn put_escape<S: Sink>(sink: &mut S, byte: u8)
    requires { IsTrue (must_escape byte) }
    ensures { S.puts sink.old (escaped_byte byte) sink.new }
{
    match byte {
        b'"' => sink.put("\\\""),
        b'\\' => sink.put("\\\\"),
        b'\n' => sink.put("\\n"),
        b'\r' => sink.put("\\r"),
        b'\t' => sink.put("\\t"),
        8 => sink.put("\\b"),
        12 => sink.put("\\f"),
        _ => put_control(sink, byte),
    }
}

/// Whether one of the bytes is escaped. All are looked at, so that the compiler can take many at a time.
#[inline(always)]
fn some_escape(bytes: &[u8]) -> bool
    ensures { result ≡ list_any must_escape bytes.now }
{
    let mut found = false;
    for byte in bytes {
        found = found | must_escape(*byte);
    }
    found
}

/// How many bytes at the front are sixteens without one that is escaped.
fn plain_front(bytes: &[u8]) -> usize
    ensures within { result ≤ length bytes.now }
    ensures plain { (k : ℕ) → k < result → must_escape (slice_index bytes.now k) ≡ false }
{
    let mut front = 0;
    'sixteens: while 16 <= bytes.len() - front {
        if some_escape(&bytes[front..front + 16]) {
            return front;
        }
        front += 16;
    }
    front
}

/// Where the first byte is that is escaped.
fn first_escape(bytes: &[u8]) -> Option<usize>
    ensures { MatchOption result (escaped_text bytes.now ≡ bytes.now) (λ i. FirstEscape bytes.now i) }
{
    for i in plain_front(bytes)..bytes.len() {
        if must_escape(bytes[i]) {
            return Some(i);
        }
    }
    None
}

/// A text within quotes. What needs no escape goes out in runs.
fn put_escaped<S: Sink>(sink: &mut S, text: &str)
    ensures { S.puts sink.old (escaped_text text.now) sink.new }
{
    let mut rest = text;
    while let Some(i) = first_escape(rest.as_bytes()) {
        sink.put(&rest[..i]);
        put_escape(sink, rest.as_bytes()[i]);
        rest = &rest[i + 1..];
    }
    sink.put(rest);
}

/// A text in quotes. Public for the printers of the crates above.
pub fn put_quoted<S: Sink>(sink: &mut S, text: &str)
    ensures { S.puts sink.old (quoted_text text.now) sink.new }
{
    sink.put("\"");
    put_escaped(sink, text);
    sink.put("\"");
}
