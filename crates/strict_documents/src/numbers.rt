//! Numbers that are given for a `Float`.
ghost use Rattle.std.specs.Prelude.{◌≡◌};
ghost use Rattle.std.specs.Option.{option_copied};
ghost use Rattle.tree_literals.specs.ValueTree.{value_tree};
ghost use Rattle.strict_documents.specs.ValueLetter.{is_finite_number, number_text, is_past_64_bits};
ghost use Rattle.strict_documents.specs.Given.{location_of};

use crate::location::Location;
use tree_literals::Value;

/// Whether the 64-bit float that is nearest to the number is finite.
pub fn is_finite_number(digits: &str) -> bool
    ensures { result ≡ is_finite_number digits.now }
{
    match digits.parse::<f64>() {
        Ok(number) => number.is_finite(),
        Err(_) => false,
    }
}

/// The number as it is written, if the value is one.
#[tactic(auto, using(tree_literals::proofs::Trees::value_tree_rules))]
fn number_text(value: &Value) -> Option<&str>
    ensures { option_copied result ≡ number_text (value_tree value.now) }
{
    match value {
        Value::Int(number) => Some(number.as_str()),
        Value::Float(number) => Some(number.as_str()),
        Value::Null
        | Value::Enum(_)
        | Value::Variable(_)
        | Value::String(_)
        | Value::Boolean(_)
        | Value::List(_)
        | Value::Object(_) => None,
    }
}

/// FloatPast64Bits: whether the value is a number for a `Float` that no finite 64-bit float is nearest to (section 3.5.2).
pub(crate) fn is_past_64_bits(location: Location<'_>, value: &Value) -> bool
    ensures { result ≡ is_past_64_bits (location_of location.entry) (value_tree value.now) }
{
    if location.ty.inner_named_type().as_str() != "Float" {
        return false;
    }
    match number_text(value) {
        None => false,
        Some(digits) => !is_finite_number(digits),
    }
}
