//! Numbers as they are written.
ghost use Rattle.std.specs.Prelude.{◌≡◌, IfOk, nat_eq, FitsSigned};
ghost use Rattle.std.specs.Int.{w32};
ghost use Rattle.std.specs.Cmp;
ghost use Rattle.std.specs.Cmp.{on_equiv, on_per};
ghost use Rattle.std.specs.Cmp.Lexicographic.{pointwise, nat_list_eq_equiv};
ghost use Rattle.std.specs.Cmp.Rules.{hashing};
ghost use Rattle.std.specs.String.{string_bytes};
ghost use Rattle.std.specs.Fmt.{signed_decimal};
ghost use Rattle.std.specs.Option.{SomeIff};
ghost use Rattle.std.proofs.Common.{rules};
ghost use Rattle.graphql_names.specs.HashedText.{hashed_text};
ghost use Rattle.tree_literals.specs.NumberSyntax.{is_int_value, is_float_value, IsIntValue, IsFloatValue, integer_value};

use crate::number_parts::{digits_len, is_float_tail, is_natural, without_minus};
use graphql_names::hash_text;
use std::alloc::{AllocError, Global};
use std::hash::{Hash, Hasher};
use std::marker::Model;

/// An integer as it is written (section 2.9.1). Contracts see its text, which is one Int token.
pub struct IntValue {
    text: String,
    ghost valid: { IsIntValue (string_bytes text) },
}

impl Drop for IntValue {
    fn drop(self) {
        let IntValue { text: _ } = self;
    }
}

impl Model for IntValue {
    ghost use Rattle.tree_literals.specs.NumberValue.{IntText};
    ghost use Rattle.std.specs.String.{string_bytes};

    ghost Value = { IntText };

    ghost view = { λ n. record { text = string_bytes n.text; valid = n.valid } };
}

/// A number with a fraction or an exponent, as it is written (section 2.9.2). Contracts see its text, which is one
/// Float token.
pub struct FloatValue {
    text: String,
    ghost valid: { IsFloatValue (string_bytes text) },
}

impl Drop for FloatValue {
    fn drop(self) {
        let FloatValue { text: _ } = self;
    }
}

impl Model for FloatValue {
    ghost use Rattle.tree_literals.specs.NumberValue.{FloatText};
    ghost use Rattle.std.specs.String.{string_bytes};

    ghost Value = { FloatText };

    ghost view = { λ n. record { text = string_bytes n.text; valid = n.valid } };
}

impl IntValue {
    /// The integer that `text`, one Int token, writes.
    pub fn new_parsed(alloc: Global, text: &str) -> Result<IntValue, AllocError>
        requires { IsIntValue text.now }
        ensures { IfOk result (λ n. n.text ≡ text.now) }
    {
        Ok(IntValue {
            text: String::from_str(alloc, text)?,
        })
    }

    /// Whether the text is one Int token.
    pub fn valid_syntax(text: &str) -> bool
        ensures { result ≡ is_int_value text.now }
    {
        is_natural(without_minus(text.as_bytes()))
    }

    /// The text.
    pub fn as_str(&self) -> &str
        ensures { result.now ≡ self.now.text }
    {
        self.text.as_str()
    }

    /// The integer that writes `number`.
    #[tactic(auto, using(crate::proofs::IntegerText::integer_text_rules))]
    pub fn from_i32(alloc: Global, number: i32) -> Result<IntValue, AllocError>
        ensures text { IfOk result (λ n. n.text ≡ signed_decimal number) }
        ensures value { IfOk result (λ n. integer_value n.text ≡ number) }
    {
        Ok(IntValue {
            text: number.to_string(alloc)?,
        })
    }

    /// The number, where it fits 32 bits.
    // An Int has 32 bits (section 3.5.1), although the grammar allows any number of digits.
    #[tactic(auto, using(crate::proofs::IntegerText::integer_text_rules))]
    pub fn try_to_i32(&self) -> Option<i32>
        ensures { SomeIff result (FitsSigned w32 (integer_value self.now.text)) (integer_value self.now.text) }
    {
        match self.text.as_str().parse::<i32>() {
            Ok(number) => Some(number),
            Err(_) => None,
        }
    }
}

impl FloatValue {
    /// The number that `text`, one Float token, writes.
    pub fn new_parsed(alloc: Global, text: &str) -> Result<FloatValue, AllocError>
        requires { IsFloatValue text.now }
        ensures { IfOk result (λ n. n.text ≡ text.now) }
    {
        Ok(FloatValue {
            text: String::from_str(alloc, text)?,
        })
    }

    /// Whether the text is one Float token.
    pub fn valid_syntax(text: &str) -> bool
        ensures { result ≡ is_float_value text.now }
    {
        let unsigned = without_minus(text.as_bytes());
        let (integer, tail) = unsigned.split_at(digits_len(unsigned));
        is_natural(integer) && is_float_tail(tail)
    }

    /// The text.
    pub fn as_str(&self) -> &str
        ensures { result.now ≡ self.now.text }
    {
        self.text.as_str()
    }
}

impl Clone for IntValue {
    ghost is_clone = { λ n copy. copy.text ≡ n.text };

    fn clone(&self) -> Result<IntValue, AllocError> {
        Ok(IntValue {
            text: self.text.clone()?,
        })
    }
}

impl PartialEq for IntValue {
    ghost eq = { λ x y. pointwise nat_eq x.text y.text };

    ghost laws = { on_per (λ x. x.text) (Cmp.partial_equiv_from_equiv nat_list_eq_equiv) };

    fn eq(&self, other: &IntValue) -> bool {
        self.as_str() == other.as_str()
    }
}

impl Eq for IntValue {
    ghost laws = { on_equiv (λ x. x.text) nat_list_eq_equiv };
}

impl Hash for IntValue {
    ghost hash_input = { λ n. hashed_text n.text };

    ghost respects_eq = { Prim.search (hashing, rules) };

    fn hash<H: Hasher>(&self, state: &mut H) {
        hash_text(self.as_str(), state);
    }
}

impl Clone for FloatValue {
    ghost is_clone = { λ n copy. copy.text ≡ n.text };

    fn clone(&self) -> Result<FloatValue, AllocError> {
        Ok(FloatValue {
            text: self.text.clone()?,
        })
    }
}

impl PartialEq for FloatValue {
    ghost eq = { λ x y. pointwise nat_eq x.text y.text };

    ghost laws = { on_per (λ x. x.text) (Cmp.partial_equiv_from_equiv nat_list_eq_equiv) };

    fn eq(&self, other: &FloatValue) -> bool {
        self.as_str() == other.as_str()
    }
}

impl Eq for FloatValue {
    ghost laws = { on_equiv (λ x. x.text) nat_list_eq_equiv };
}

impl Hash for FloatValue {
    ghost hash_input = { λ n. hashed_text n.text };

    ghost respects_eq = { Prim.search (hashing, rules) };

    fn hash<H: Hasher>(&self, state: &mut H) {
        hash_text(self.as_str(), state);
    }
}
