//! The parts of a number as it is written.
ghost use Rattle.std.specs.Prelude.{◌≡◌, ◌≤◌, ◌∷◌, length};
ghost use Rattle.std.specs.List.{prefix_len, list_all};
ghost use Rattle.std.specs.Char.{is_ascii_digit};
ghost use Rattle.tree_literals.specs.NumberSyntax.{is_digits, is_natural, without_minus, without_sign, is_exponent, is_float_tail};

/// The bytes after a `-`, if that comes first.
pub fn without_minus(bytes: &[u8]) -> &[u8]
    ensures { result.now ≡ without_minus bytes.now }
{
    match bytes.split_first() {
        None => bytes,
        Some((first, rest)) => { if *first == b'-' { rest } else { bytes } }
    }
}

/// The bytes after a `+` or `-`, if one of these comes first.
fn without_sign(bytes: &[u8]) -> &[u8]
    ensures { result.now ≡ without_sign bytes.now }
{
    match bytes.split_first() {
        None => bytes,
        Some((first, rest)) => {
            if *first == b'+' || *first == b'-' {
                rest
            } else {
                bytes
            }
        }
    }
}

/// How many digits come first.
#[tactic(auto, using(crate::proofs::NumberLemmas::prefix_len_rules))]
pub fn digits_len(bytes: &[u8]) -> usize
    ensures count { result ≡ prefix_len is_ascii_digit bytes.now }
    ensures bound { result ≤ length bytes.now }
{
    bytes
        .iter()
        .take_while(|byte| byte.is_ascii_digit())
        .count()
}

/// Whether the bytes are one digit or more.
fn is_digits(bytes: &[u8]) -> bool
    ensures { result ≡ is_digits bytes.now }
{
    match bytes.split_first() {
        None => false,
        Some(_) => all_digits(bytes),
    }
}

/// Whether each byte is a digit.
fn all_digits(bytes: &[u8]) -> bool
    ensures { result ≡ list_all is_ascii_digit bytes.now }
{
    bytes.iter().all(|byte| byte.is_ascii_digit())
}

/// Whether the bytes are digits that have no leading zero.
pub fn is_natural(bytes: &[u8]) -> bool
    ensures { result ≡ is_natural bytes.now }
{
    match bytes.split_first() {
        None => false,
        Some((first, rest)) => is_digits(bytes) && (*first != b'0' || rest.is_empty()),
    }
}

/// Whether the bytes are an exponent.
fn is_exponent(bytes: &[u8]) -> bool
    ensures { result ≡ is_exponent bytes.now }
{
    match bytes.split_first() {
        None => false,
        Some((first, rest)) => (*first == b'e' || *first == b'E') && is_digits(without_sign(rest)),
    }
}

/// Whether the bytes are a fraction, an exponent, or both.
#[tactic(auto, using(crate::proofs::NumberLemmas::tail_rules))]
pub fn is_float_tail(bytes: &[u8]) -> bool
    ensures { result ≡ is_float_tail bytes.now }
{
    match bytes.split_first() {
        None => false,
        Some((first, rest)) => {
            if *first == b'.' {
                is_fraction_end(rest)
            } else {
                is_exponent(bytes)
            }
        }
    }
}

/// Whether the bytes make a fraction, or a fraction and an exponent, after a `.`.
fn is_fraction_end(bytes: &[u8]) -> bool
    ensures { result ≡ is_float_tail (46 ∷ bytes.now) }
{
    let (digits, exponent) = bytes.split_at(digits_len(bytes));
    is_digits(digits) && (exponent.is_empty() || is_exponent(exponent))
}
