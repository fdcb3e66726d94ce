//! What block strings stand for: BlockStringValue (section 2.9.4).
ghost use Rattle.std.specs.Prelude.{◌≡◌, ◌≤◌, ◌<◌, ◌++◌, ◌∷◌, ◌+◌, ◌⊎◌, [], length, take, drop, OnOk, false, if◌then◌else◌};
ghost use Rattle.std.specs.List.{prefix_len};
ghost use Rattle.std.specs.String.{string_bytes};
ghost use Rattle.read_tokens.specs.Tokens.{is_in_line};
ghost use Rattle.read_tokens.specs.Blocks as blocks;
ghost use Rattle.read_tokens.specs.Values as spec;

use crate::lex::line_len;
use std::alloc::AllocError;

/// The length of the line terminator that begins the bytes; 0 if none does (section 2.1.3).
fn terminator_len(bytes: &[u8]) -> usize
    ensures value { result ≡ spec.terminator_len bytes.now }
    ensures within { result ≤ length bytes.now }
{
    match bytes {
        [b'\r', b'\n', ..] => 2,
        [b'\r' | b'\n', ..] => 1,
        _ => 0,
    }
}

/// The first line of a text, and what follows its terminator.
#[tactic(auto, using(crate::proofs::Lines::line_cut))]
fn cut_bytes(bytes: &[u8]) -> (&[u8], &[u8])
    ensures cut { spec.Cut bytes.now result.0.now result.1.now }
    ensures shorter { 0 < length bytes.now → length result.1.now < length bytes.now }
{
    let (line, rest) = bytes.split_at(line_len(bytes));
    let (_, following) = rest.split_at(terminator_len(rest));
    (line, following)
}

/// The first line of a text.
#[tactic(auto, using(crate::proofs::Lines::line_boundary))]
fn first_line(text: &str) -> &str
    ensures line { result.now ≡ spec.line_in text.now }
    ensures length { length result.now ≡ prefix_len is_in_line text.now }
{
    let (line, _) = text.split_at(line_len(text.as_bytes()));
    line
}

/// What follows the terminator of the first line, which has this length.
#[tactic(auto, using(crate::proofs::Lines::line_cut, crate::proofs::Lines::line_boundary, crate::proofs::Lines::terminator_boundary))]
fn after_line(text: &str, line: usize) -> &str
    requires { line ≡ prefix_len is_in_line text.now }
    ensures cut { spec.Cut text.now (spec.line_in text.now) result.now }
    ensures shorter { 0 < length text.now → length result.now < length text.now }
{
    let (_, rest) = text.split_at(line);
    let (_, following) = rest.split_at(terminator_len(rest.as_bytes()));
    following
}

fn is_white_space(byte: u8) -> bool
    ensures { result ≡ blocks.is_white_space byte }
{
    byte == b'\t' || byte == b' '
}

/// How many tabs and spaces begin the line.
fn indent_of(line: &[u8]) -> usize
    ensures count { result ≡ blocks.indent_of line.now }
    ensures within { result ≤ length line.now }
{
    line.iter()
        .take_while(|byte| is_white_space(**byte))
        .count()
}

/// Whether the line is only tabs and spaces.
pub(crate) fn is_blank(line: &[u8]) -> bool
    ensures { result ≡ blocks.is_blank line.now }
{
    line.iter().all(|byte| is_white_space(*byte))
}

/// The lesser of the line's indent, unless it is blank, and that of others.
fn least_indent(line: &[u8], others: Option<usize>) -> Option<usize>
    ensures { result ≡ spec.least_indent line.now others }
{
    if is_blank(line) {
        return others;
    }
    let indent = indent_of(line);
    match others {
        Some(other) if other < indent => Some(other),
        _ => Some(indent),
    }
}

/// The common indent of the lines of a text.
fn common_indent(bytes: &[u8]) -> Option<usize>
    ensures { result ≡ blocks.common_indent (blocks.lines_of bytes.now) }
{
    let mut left = bytes;
    let mut common = None;
    'lines: while !left.is_empty() {
        let (line, following) = cut_bytes(left);
        common = least_indent(line, common);
        left = following;
    }
    common
}

fn or_zero(indent: Option<usize>) -> usize
    ensures { result ≡ blocks.or_zero indent }
{
    match indent {
        None => 0,
        Some(indent) => indent,
    }
}

/// How many lines are kept up to this one, the last of `count`; the number kept before it, if it is blank.
fn kept_with(line: &[u8], count: usize, kept: usize) -> usize
    ensures { result ≡ (if blocks.is_blank line.now then kept else count) }
{
    let is_kept = !is_blank(line);
    if is_kept { count } else { kept }
}

/// How many lines a text has, without the blank ones at its end.
fn kept_lines(bytes: &[u8]) -> usize
    ensures { result ≡ length (blocks.without_blank_back (blocks.lines_of bytes.now)) }
{
    let mut left = bytes;
    let mut count = 0;
    let mut kept = 0;
    'lines: while !left.is_empty() {
        let (line, following) = cut_bytes(left);
        count += 1;
        kept = kept_with(line, count, kept);
        left = following;
    }
    kept
}

/// A line without an indent. A blank line may be shorter than that.
#[tactic(auto, using(crate::proofs::Lines::indent_boundary, crate::proofs::Lines::indent_removed))]
fn without_indent(line: &str, indent: usize) -> &str
    requires { blocks.is_blank line.now ≡ false → indent ≤ blocks.indent_of line.now }
    ensures { result.now ≡ drop indent line.now }
{
    let (_, rest) = line.split_at(indent.min(indent_of(line.as_bytes())));
    rest
}

/// Adds a line feed and a line without an indent.
fn push_line(out: &mut String, line: &str, indent: usize) -> Result<(), AllocError>
    requires { blocks.is_blank line.now ≡ false → indent ≤ blocks.indent_of line.now }
    ensures { OnOk result (string_bytes out.new ≡ string_bytes out.old ++ 10 ∷ drop indent line.now) }
{
    out.push('\n')?;
    out.push_str(without_indent(line, indent))
}

/// Adds the lines of a text without an indent, each after a line feed, but for blank ones at the end.
fn push_kept(out: &mut String, text: &str, indent: usize) -> Result<(), AllocError>
    requires { spec.AtMost indent (blocks.common_indent (blocks.lines_of text.now)) }
    ensures { OnOk result (string_bytes out.new ≡ string_bytes out.old ++ spec.further_lines indent (blocks.without_blank_back (blocks.lines_of text.now))) }
{
    let mut left = text;
    let mut more = kept_lines(text.as_bytes());
    'lines: while more > 0 {
        let line = first_line(left);
        let following = after_line(left, line.len());
        push_line(out, line, indent)?;
        left = following;
        more -= 1;
    }
    Ok(())
}

/// Adds the lines of a text without an indent, but for blank ones at the front and at the end.
fn push_from(out: &mut String, text: &str, indent: usize) -> Result<(), AllocError>
    requires { spec.AtMost indent (blocks.common_indent (blocks.lines_of text.now)) }
    ensures { OnOk result (string_bytes out.new ≡ string_bytes out.old ++ spec.kept_from indent (blocks.without_blank_front (blocks.lines_of text.now))) }
{
    let mut left = text;
    'lines: while !left.is_empty() {
        let line = first_line(left);
        let following = after_line(left, line.len());
        if !is_blank(line.as_bytes()) {
            out.push_str(without_indent(line, indent))?;
            return push_kept(out, following, indent);
        }
        left = following;
    }
    Ok(())
}

/// Adds what a block string of this raw value stands for.
pub(crate) fn push_block(out: &mut String, raw: &str) -> Result<(), AllocError>
    ensures { OnOk result (string_bytes out.new ≡ string_bytes out.old ++ blocks.block_string_value raw.now) }
{
    let line = first_line(raw);
    let following = after_line(raw, line.len());
    // The lines are scanned several times, for the indent, the end and the text: this way no list of them is made.
    let indent = or_zero(common_indent(following.as_bytes()));
    if is_blank(line.as_bytes()) {
        return push_from(out, following, indent);
    }
    out.push_str(line)?;
    push_kept(out, following, indent)
}
