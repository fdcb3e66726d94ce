//! How far names reach (section 2.1.9).
ghost use Rattle.std.specs.Prelude.{◌≡◌, ◌≤◌, length};
ghost use Rattle.std.specs.List.{prefix_len};
ghost use Rattle.graphql_names.specs.NameSyntax as spec;

/// Whether a name may begin with the byte.
pub(crate) fn is_name_start(byte: u8) -> bool
    ensures { result ≡ spec.is_name_start byte }
{
    byte.is_ascii_alphabetic() || byte == b'_'
}

/// Whether a name may go on with the byte.
pub(crate) fn is_name_continue(byte: u8) -> bool
    ensures { result ≡ spec.is_name_continue byte }
{
    is_name_start(byte) || byte.is_ascii_digit()
}

/// How many name characters begin the bytes.
pub(crate) fn name_len(bytes: &[u8]) -> usize
    ensures count { result ≡ prefix_len spec.is_name_continue bytes.now }
    ensures within { result ≤ length bytes.now }
{
    bytes
        .iter()
        .take_while(|byte| is_name_continue(**byte))
        .count()
}
