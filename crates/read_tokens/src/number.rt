//! How far numbers reach (sections 2.9.1 and 2.9.2).
ghost use Rattle.std.specs.Prelude.{◌≡◌, ◌≤◌, ◌<◌, length, IfSome};
ghost use Rattle.std.specs.List.{prefix_len};
ghost use Rattle.std.specs.Char.{is_ascii_digit};
ghost use Rattle.read_tokens.specs.Bytes.{begins_by};
ghost use Rattle.read_tokens.specs.Numbers as spec;

use crate::name::is_name_continue;
use crate::token::TokenKind;

/// How many digits begin the bytes.
fn digits_len(bytes: &[u8]) -> usize
    ensures count { result ≡ prefix_len is_ascii_digit bytes.now }
    ensures within { result ≤ length bytes.now }
{
    bytes
        .iter()
        .take_while(|byte| byte.is_ascii_digit())
        .count()
}

fn sign_len(bytes: &[u8]) -> usize
    ensures value { result ≡ spec.sign_len bytes.now }
    ensures within { result ≤ length bytes.now }
{
    match bytes {
        [b'-', ..] => 1,
        _ => 0,
    }
}

#[tactic(auto, unfolding(crate::specs::Numbers::whole_len))]
fn whole_len(bytes: &[u8]) -> Option<usize>
    ensures value { result ≡ spec.whole_len bytes.now }
    ensures within { IfSome result (λ n. (0 < n) × (n ≤ length bytes.now)) }
{
    match bytes {
        // A digit after the `0` is not taken here; `goes_on` refuses it later.
        [b'0', ..] => Some(1),
        [first, ..] if first.is_ascii_digit() => Some(digits_len(bytes)),
        _ => None,
    }
}

#[tactic(auto, unfolding(crate::specs::Numbers::digits_after))]
fn digits_after(n: usize, bytes: &[u8]) -> Option<usize>
    requires { n ≤ length bytes.now }
    ensures value { result ≡ spec.digits_after n bytes.now }
    ensures within { IfSome result (λ n. n ≤ length bytes.now) }
{
    let rest = &bytes[n..];
    match rest {
        [first, ..] if first.is_ascii_digit() => Some(n + digits_len(rest)),
        _ => None,
    }
}

#[tactic(auto, unfolding(crate::specs::Numbers::fraction_len))]
fn fraction_len(bytes: &[u8]) -> Option<usize>
    ensures value { result ≡ spec.fraction_len bytes.now }
    ensures within { IfSome result (λ n. n ≤ length bytes.now) }
{
    match bytes {
        [b'.', ..] => digits_after(1, bytes),
        _ => Some(0),
    }
}

#[tactic(auto, unfolding(crate::specs::Numbers::exponent_len))]
fn exponent_len(bytes: &[u8]) -> Option<usize>
    ensures value { result ≡ spec.exponent_len bytes.now }
    ensures within { IfSome result (λ n. n ≤ length bytes.now) }
{
    match bytes {
        [b'e' | b'E', b'+' | b'-', ..] => digits_after(2, bytes),
        [b'e' | b'E', ..] => digits_after(1, bytes),
        _ => Some(0),
    }
}

/// Whether the bytes begin with what may not follow a number.
fn goes_on(bytes: &[u8]) -> bool
    ensures { result ≡ begins_by spec.goes_on bytes.now }
{
    match bytes {
        [] => false,
        [first, ..] => is_name_continue(*first) || *first == b'.',
    }
}

/// The number that begins the bytes, and its length.
#[tactic(auto, unfolding(crate::specs::Numbers::number_at))]
pub(crate) fn number_at(bytes: &[u8]) -> Option<(TokenKind, usize)>
    ensures value { result ≡ spec.number_at bytes.now }
    ensures within { IfSome result (λ t. (0 < t.1) × (t.1 ≤ length bytes.now)) }
{
    let sign = sign_len(bytes);
    let whole = sign + whole_len(&bytes[sign..])?;
    let fraction = whole + fraction_len(&bytes[whole..])?;
    let all = fraction + exponent_len(&bytes[fraction..])?;
    // Section 2.9.1 looks ahead: `0xF` is no token, not a number and a name.
    if goes_on(&bytes[all..]) {
        return None;
    }
    let kind = if whole == all {
        TokenKind::Int
    } else {
        TokenKind::Float
    };
    Some((kind, all))
}
