//! Where the text of a string token has its value as it is, if it does (section 2.9.4).
ghost use Rattle.std.specs.Prelude.{◌≡◌, ◌≤◌, ◌∷◌, [], length, IfSome, true, false};
ghost use Rattle.std.specs.List.{prefix_len, list_all};
ghost use Rattle.read_tokens.specs.Tokens.{is_in_line};
ghost use Rattle.read_tokens.specs.Strings as strings;
ghost use Rattle.read_tokens.specs.Blocks as blocks;
ghost use Rattle.read_tokens.specs.Values.{line_in};
ghost use Rattle.read_tokens.specs.Forms.{Enclosed};
ghost use Rattle.read_tokens.specs.PlainTexts.{is_space, IsPiece};

use crate::block_lines::is_blank;
use crate::lex::line_len;
use crate::search::has;
use crate::strings::between;

/// From which byte of a String token up to which its text is what the token stands for, byte for byte: between its
/// marks, if it has no escape.
#[tactic(auto, using(crate::proofs::Forms::one_mark, crate::proofs::PlainTexts::string_piece))]
pub fn plain_string(token: &str) -> Option<(usize, usize)>
    requires { Enclosed (34 ∷ []) token.now }
    ensures { IfSome result (λ place. IsPiece token.now place.0 place.1 (strings.string_value token.now)) }
{
    let text = between(token, 1);
    if has(b'\\', text.as_bytes()) {
        return None;
    }
    Some((1, token.len() - 1))
}

/// Whether the byte is white space, or of a line terminator.
fn is_space(byte: u8) -> bool
    ensures { result ≡ is_space byte }
{
    byte == b'\t' || byte == b' ' || byte == b'\n' || byte == b'\r'
}

/// How many bytes of white space and line terminators begin the bytes.
fn space_len(bytes: &[u8]) -> usize
    ensures count { result ≡ prefix_len is_space bytes.now }
    ensures within { result ≤ length bytes.now }
{
    bytes.iter().take_while(|byte| is_space(**byte)).count()
}

/// Whether the bytes are white space and line terminators alone.
fn is_space_alone(bytes: &[u8]) -> bool
    ensures { result ≡ list_all is_space bytes.now }
{
    bytes.iter().all(|byte| is_space(*byte))
}

/// Where in a raw value its value stands, if the first line is not blank, and the others are. That line, which has this
/// length, keeps its indent.
fn first_line_alone(raw: &str, length: usize) -> Option<(usize, usize)>
    requires length { length ≡ prefix_len is_in_line raw.now }
    requires full { blocks.is_blank (line_in raw.now) ≡ false }
    ensures { IfSome result (λ place. IsPiece raw.now place.0 place.1 (blocks.block_string_value raw.now)) }
{
    let (_, following) = raw.as_bytes().split_at(length);
    if is_space_alone(following) {
        Some((0, length))
    } else {
        None
    }
}

/// Where in a raw value its value stands, if the first line is blank, and just one other is not: that line without its
/// indent, which is the common one.
fn later_line_alone(raw: &str) -> Option<(usize, usize)>
    requires { blocks.is_blank (line_in raw.now) ≡ true }
    ensures { IfSome result (λ place. IsPiece raw.now place.0 place.1 (blocks.block_string_value raw.now)) }
{
    let start = space_len(raw.as_bytes());
    let (_, rest) = raw.as_bytes().split_at(start);
    let length = line_len(rest);
    let (_, following) = rest.split_at(length);
    if start < raw.len() && is_space_alone(following) {
        Some((start, start + length))
    } else {
        None
    }
}

/// Where in a raw value its value stands, if just one of its lines is not blank.
fn line_alone(raw: &str) -> Option<(usize, usize)>
    ensures { IfSome result (λ place. IsPiece raw.now place.0 place.1 (blocks.block_string_value raw.now)) }
{
    let length = line_len(raw.as_bytes());
    let (line, _) = raw.as_bytes().split_at(length);
    if is_blank(line) {
        later_line_alone(raw)
    } else {
        first_line_alone(raw, length)
    }
}

/// From which byte of a BlockString token up to which its text is what the token stands for, byte for byte: one line, if
/// the token has no `\`, and just one of its lines is not blank. The first line keeps its indent, any other loses it.
#[tactic(auto, using(crate::proofs::Forms::three_marks))]
pub fn plain_block(token: &str) -> Option<(usize, usize)>
    requires { Enclosed blocks.quotes token.now }
    ensures { IfSome result (λ place. IsPiece token.now place.0 place.1 (blocks.block_value token.now)) }
{
    let text = between(token, 3);
    if has(b'\\', text.as_bytes()) {
        return None;
    }
    let (start, end) = line_alone(text)?;
    Some((3 + start, 3 + end))
}
