//! How far strings reach (section 2.9.4).
ghost use Rattle.std.specs.Prelude.{◌≡◌, ◌≤◌, ◌<◌, ◌+◌, length, drop, IfSome, ◌∷◌, [], true};
ghost use Rattle.std.specs.List.{prefix_len};
ghost use Rattle.read_tokens.specs.Bytes.{begins_with, run_len};
ghost use Rattle.read_tokens.specs.Strings as spec;
ghost use Rattle.read_tokens.specs.Blocks as blocks;
ghost use Rattle.read_tokens.specs.Runs as runs;

use crate::search::len_before_two;

/// What the byte after `\` stands for.
fn escaped(byte: u8) -> Option<char>
    ensures { result ≡ spec.escaped byte }
{
    match byte {
        b'"' => Some('"'),
        b'\\' => Some('\\'),
        b'/' => Some('/'),
        b'b' => Some('\u{8}'),
        b'f' => Some('\u{C}'),
        b'n' => Some('\n'),
        b'r' => Some('\r'),
        b't' => Some('\t'),
        _ => None,
    }
}

/// The value of a hexadecimal digit.
fn hexadecimal(byte: u8) -> Option<u32>
    ensures value { result ≡ spec.hexadecimal byte }
    ensures below { IfSome result (λ n. n < 16) }
{
    match byte {
        b'0'..=b'9' => Some((byte - b'0') as u32),
        b'A'..=b'F' => Some((byte - b'A') as u32 + 10),
        b'a'..=b'f' => Some((byte - b'a') as u32 + 10),
        _ => None,
    }
}

fn hexadecimal_at(i: usize, bytes: &[u8]) -> Option<u32>
    ensures value { result ≡ spec.hexadecimal_at i bytes.now }
    ensures below { IfSome result (λ n. n < 16) }
{
    let byte = *bytes.get(i)?;
    hexadecimal(byte)
}

/// The character whose code point four hexadecimal digits write. A surrogate is not a character.
// `\u{..}` and pairs of surrogates for one character came after October 2021.
#[tactic(auto, unfolding(crate::specs::Strings::unicode_at))]
fn unicode_at(bytes: &[u8]) -> Option<char>
    ensures value { result ≡ spec.unicode_at bytes.now }
    ensures within { IfSome result (λ _. 4 ≤ length bytes.now) }
{
    let a = hexadecimal_at(0, bytes)?;
    let b = hexadecimal_at(1, bytes)?;
    let c = hexadecimal_at(2, bytes)?;
    let d = hexadecimal_at(3, bytes)?;
    char::from_u32(a * 4096 + b * 256 + c * 16 + d)
}

/// The character that an escape stands for, and how many bytes it takes after its `\`.
#[tactic(auto, unfolding(crate::specs::Strings::escape_at))]
pub(crate) fn escape_at(bytes: &[u8]) -> Option<(char, usize)>
    ensures value { result ≡ spec.escape_at bytes.now }
    ensures within { IfSome result (λ e. (0 < e.1) × (e.1 ≤ length bytes.now)) }
{
    match bytes {
        [] => None,
        [b'u', digits @ ..] => {
            let character = unicode_at(digits)?;
            Some((character, 5))
        }
        [letter, ..] => {
            let character = escaped(*letter)?;
            Some((character, 1))
        }
    }
}

/// The length of the string character that begins the bytes.
#[tactic(auto, unfolding(crate::specs::Strings::part_len))]
fn part_len(bytes: &[u8]) -> Option<usize>
    ensures value { result ≡ spec.part_len bytes.now }
    ensures within { IfSome result (λ n. (0 < n) × (n ≤ length bytes.now)) }
{
    match bytes {
        [] | [b'"' | b'\n' | b'\r', ..] => None,
        [b'\\', escape @ ..] => {
            let (_, length) = escape_at(escape)?;
            Some(1 + length)
        }
        _ => Some(1),
    }
}

/// Whether the byte is a string character by itself.
fn is_plain_part(byte: u8) -> bool
    ensures { result ≡ runs.is_plain_part byte }
{
    !(byte == b'"' || byte == b'\\' || byte == b'\n' || byte == b'\r')
}

/// How many bytes at the front are string characters by themselves.
fn count_plain_parts(bytes: &[u8]) -> usize
    ensures count { result ≡ prefix_len runs.is_plain_part bytes.now }
    ensures within { result ≤ length bytes.now }
{
    bytes
        .iter()
        .take_while(|byte| is_plain_part(**byte))
        .count()
}

/// How many bytes string characters of one byte take at the front.
// The count of `count_plain_parts`, with a contract about the parts of `part_len`.
fn plain_parts_len(bytes: &[u8]) -> usize
    ensures run { run_len spec.part_len 0 bytes.now ≡ result + run_len spec.part_len 0 (drop result bytes.now) }
    ensures within { result ≤ length bytes.now }
{
    count_plain_parts(bytes)
}

/// How many bytes string characters take at the front.
#[tactic(auto, using(crate::proofs::Bytes::run_step, crate::proofs::Bytes::run_end))]
fn parts_len(bytes: &[u8]) -> usize
    ensures value { result ≡ run_len spec.part_len 0 bytes.now }
    ensures within { result ≤ length bytes.now }
{
    let mut length = plain_parts_len(bytes);
    let (_, mut rest) = bytes.split_at(length);
    'parts: while let Some(part) = part_len(rest) {
        let (_, following) = rest.split_at(part);
        let plain = plain_parts_len(following);
        let (_, next) = following.split_at(plain);
        rest = next;
        length += part + plain;
    }
    length
}

/// The length of a string that begins with `"`.
#[tactic(auto, unfolding(crate::specs::Strings::quoted_len))]
pub(crate) fn quoted_len(bytes: &[u8]) -> Option<usize>
    requires { begins_with (34 ∷ []) bytes.now ≡ true }
    ensures value { result ≡ spec.quoted_len bytes.now }
    ensures within { IfSome result (λ n. (0 < n) × (n ≤ length bytes.now)) }
{
    let (_, following) = bytes.split_at(1);
    let parts = parts_len(following);
    let (_, rest) = bytes.split_at(1 + parts);
    match rest {
        [b'"', ..] => Some(2 + parts),
        _ => None,
    }
}

/// The length of the block string character that begins the bytes.
#[tactic(auto, unfolding(crate::specs::Blocks::block_character_len))]
fn block_character_len(bytes: &[u8]) -> Option<usize>
    ensures value { result ≡ blocks.block_character_len bytes.now }
    ensures within { IfSome result (λ n. (0 < n) × (n ≤ length bytes.now)) }
{
    match bytes {
        [] | [b'"', b'"', b'"', ..] => None,
        [b'\\', b'"', b'"', b'"', ..] => Some(4),
        _ => Some(1),
    }
}

/// How many bytes at the front are block string characters by themselves: those before the first `"` or `\`.
fn plain_characters_len(bytes: &[u8]) -> usize
    ensures run { run_len blocks.block_character_len 0 bytes.now ≡ result + run_len blocks.block_character_len 0 (drop result bytes.now) }
    ensures within { result ≤ length bytes.now }
{
    len_before_two(b'"', b'\\', bytes)
}

/// How many bytes block string characters take at the front.
#[tactic(auto, using(crate::proofs::Bytes::run_step, crate::proofs::Bytes::run_end))]
fn block_characters_len(bytes: &[u8]) -> usize
    ensures value { result ≡ run_len blocks.block_character_len 0 bytes.now }
    ensures within { result ≤ length bytes.now }
{
    let mut length = plain_characters_len(bytes);
    let (_, mut rest) = bytes.split_at(length);
    'characters: while let Some(character) = block_character_len(rest) {
        let (_, following) = rest.split_at(character);
        let plain = plain_characters_len(following);
        let (_, next) = following.split_at(plain);
        rest = next;
        length += character + plain;
    }
    length
}

/// The length of a block string that begins with `"""`.
#[tactic(auto, unfolding(crate::specs::Blocks::block_len))]
pub(crate) fn block_len(bytes: &[u8]) -> Option<usize>
    requires { begins_with blocks.quotes bytes.now ≡ true }
    ensures value { result ≡ blocks.block_len bytes.now }
    ensures within { IfSome result (λ n. (0 < n) × (n ≤ length bytes.now)) }
{
    let (_, following) = bytes.split_at(3);
    let characters = block_characters_len(following);
    let (_, rest) = bytes.split_at(3 + characters);
    match rest {
        [b'"', b'"', b'"', ..] => Some(6 + characters),
        _ => None,
    }
}
