//! Searches of bytes, many at a time.
ghost use Rattle.std.specs.Prelude.{◌≡◌, ◌≤◌, ◌==◌, ◌||◌, not, length};
ghost use Rattle.std.specs.List.{prefix_len, list_any};

use memchr::{memchr, memchr2};

/// How many bytes come before the first that is this one.
#[tactic(auto, using(crate::proofs::Found::before_one))]
pub(crate) fn len_before(byte: u8, bytes: &[u8]) -> usize
    ensures count { result ≡ prefix_len (λ b. not (b == byte)) bytes.now }
    ensures within { result ≤ length bytes.now }
{
    memchr(byte, bytes).unwrap_or(bytes.len())
}

/// How many bytes come before the first that is one of these two.
#[tactic(auto, using(crate::proofs::Found::before_two))]
pub(crate) fn len_before_two(one: u8, other: u8, bytes: &[u8]) -> usize
    ensures count { result ≡ prefix_len (λ b. not (b == one || b == other)) bytes.now }
    ensures within { result ≤ length bytes.now }
{
    memchr2(one, other, bytes).unwrap_or(bytes.len())
}

/// Whether one of the bytes is this one.
#[tactic(auto, using(crate::proofs::Found::somewhere))]
pub(crate) fn has(byte: u8, bytes: &[u8]) -> bool
    ensures { result ≡ list_any (λ b. b == byte) bytes.now }
{
    memchr(byte, bytes).is_some()
}
