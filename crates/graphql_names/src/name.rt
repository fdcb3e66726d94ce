//! Names, with the places that they were read from.
ghost use Rattle.std.specs.Prelude.{◌≡◌, ◌↔◌, length, IfOk, IfErr, OnOk, IsOk, is_ok, IsTrue, Some, None, true, false};
ghost use Rattle.std.specs.List.{list_all};
ghost use Rattle.std.specs.Rc.{rc_str_bytes};
ghost use Rattle.graphql_names.specs.NameSyntax.{is_name, is_name_start, is_name_continue, IsName};
ghost use Rattle.graphql_names.specs.NameText.{text_bytes, text_is_static, static_answer, shared_answer};
ghost use Rattle.graphql_names.specs.TextPart.{part_bytes};
ghost use Rattle.graphql_names.specs.NameValue.{IsPlaceOf};
ghost use Rattle.graphql_names.specs.NameErrors.{NameErrorIsDue};

use crate::name_text::NameText;
use crate::span::SourceSpan;
use crate::text_part::TextPart;
use std::alloc::{AllocError, Global};
use std::marker::Model;
use std::rc::RcStr;
use thiserror::Error;

/// A text is not a Name token.
#[derive(Clone, Copy, Debug, PartialEq, Eq, Hash, Error)]
#[error("the text is not a name")]
pub struct InvalidNameError;

/// Why a text makes no [`Name`].
#[derive(Clone, Copy, Debug, PartialEq, Eq, Hash, Error)]
pub enum NameError {
    /// The text is not a Name token.
    #[error(transparent)]
    InvalidName(InvalidNameError),
    /// Memory ran out.
    #[error("out of memory")]
    Memory,
}

impl From<InvalidNameError> for NameError {
    ghost use Rattle.graphql_names.specs.declared.name.NameError.TheVariants.{InvalidName};

    ghost from_gives = { λ fault e. e ≡ InvalidName fault };

    fn from(fault: InvalidNameError) -> NameError {
        NameError::InvalidName(fault)
    }
}

impl From<AllocError> for NameError {
    ghost use Rattle.graphql_names.specs.declared.name.NameError.TheVariants.{Memory};

    ghost from_gives = { λ _ e. e ≡ Memory };

    fn from(_refused: AllocError) -> NameError {
        NameError::Memory
    }
}

/// A name, and the place that it was read from, if it was read.
///
/// Its text is a Name token (GraphQL October 2021, section 2.1.9 Names), and its place is as long as
/// its text. Contracts see it as its text in bytes, whether that is static, and its place.
pub struct Name {
    text: NameText,
    location: Option<SourceSpan>,
    ghost valid: { IsName (text_bytes text) },
    ghost as_long: { IsPlaceOf (text_bytes text) location },
}

// Not derived: a derived drop is proved again in every crate that uses it.
impl Drop for Name {
    fn drop(self) {
        let Name {
            text: _,
            location: _,
        } = self;
    }
}

impl Model for Name {
    ghost use Rattle.graphql_names.specs.NameText.{text_bytes, text_is_static};
    ghost use Rattle.graphql_names.specs.NameValue.{NameValue};

    ghost Value = { NameValue };

    ghost view = { λ n. record {
      text = text_bytes n.text;
      is_static = text_is_static n.text;
      location = n.location;
      valid = n.valid;
      as_long = n.as_long;
    } };
}

/// Names made from texts.
impl Name {
    /// A name of a copy of `text`, without a place. `InvalidName` where the text is not a Name token.
    pub fn new(alloc: Global, text: &str) -> Result<Name, NameError>
        ensures text { IfOk result (λ n. n.text ≡ text.now) }
        ensures shared { IfOk result (λ n. n.is_static ≡ false) }
        ensures location { IfOk result (λ n. n.location ≡ None) }
        ensures name { OnOk result (IsName text.now) }
        ensures error { IfErr result (NameErrorIsDue text.now) }
    {
        if !Name::is_valid_syntax(text) {
            return Err(NameError::InvalidName(InvalidNameError));
        }
        Ok(Name::new_unchecked(alloc, text)?)
    }

    /// A name of a text of the program, without a place. It takes no memory.
    pub fn new_static(text: &'static str) -> Result<Name, InvalidNameError>
        ensures text { IfOk result (λ n. n.text ≡ text.now) }
        ensures stat { IfOk result (λ n. n.is_static ≡ true) }
        ensures location { IfOk result (λ n. n.location ≡ None) }
        ensures name { is_ok result ≡ is_name text.now }
    {
        if !Name::is_valid_syntax(text) {
            return Err(InvalidNameError);
        }
        Ok(Name::new_static_unchecked(text))
    }

    /// A name of a copy of `text`, without a place. The text must be a Name token.
    pub fn new_unchecked(alloc: Global, text: &str) -> Result<Name, AllocError>
        requires { IsName text.now }
        ensures text { IfOk result (λ n. n.text ≡ text.now) }
        ensures shared { IfOk result (λ n. n.is_static ≡ false) }
        ensures location { IfOk result (λ n. n.location ≡ None) }
    {
        Ok(Name::from_arc_unchecked(RcStr::from_str(alloc, text)?))
    }

    /// A name of a text of the program, without a place. The text must be a Name token. It takes no memory.
    pub fn new_static_unchecked(text: &'static str) -> Name
        requires { IsName text.now }
        ensures text { result.text ≡ text.now }
        ensures stat { result.is_static ≡ true }
        ensures location { result.location ≡ None }
    {
        Name {
            text: NameText::Static(text),
            location: None,
        }
    }

    /// A name of a shared text, without a place. The text must be a Name token. It takes no memory.
    pub fn from_arc_unchecked(text: RcStr) -> Name
        requires { IsName (rc_str_bytes text) }
        ensures text { result.text ≡ rc_str_bytes text }
        ensures shared { result.is_static ≡ false }
        ensures location { result.location ≡ None }
    {
        Name {
            text: NameText::Shared(text),
            location: None,
        }
    }

    /// A name of a part of a shared text, without a place. The text of the part must be a Name token. It takes no
    /// memory.
    pub fn from_part_unchecked(part: TextPart) -> Name
        requires { IsName (part_bytes part) }
        ensures text { result.text ≡ part_bytes part }
        ensures shared { result.is_static ≡ false }
        ensures location { result.location ≡ None }
    {
        Name {
            text: NameText::Part(part),
            location: None,
        }
    }

    /// The same name, with this place, which must be as long as the text.
    pub fn with_location(self, place: SourceSpan) -> Name
        requires { place.length ≡ length self.text }
        ensures text { result.text ≡ self.text }
        ensures stat { result.is_static ≡ self.is_static }
        ensures location { result.location ≡ Some place }
    {
        let Name { text, location: _ } = self;
        Name {
            text,
            location: Some(place),
        }
    }
}

/// What a name is made of.
impl Name {
    /// The place that it was read from, if it was read.
    pub fn location(&self) -> Option<SourceSpan>
        ensures value { result ≡ self.now.location }
        ensures as_long { IsPlaceOf self.now.text result }
    {
        self.location
    }

    /// The count of bytes.
    pub fn len(&self) -> usize
        ensures { result ≡ length self.now.text }
    {
        self.as_str().len()
    }

    /// The text, which is a Name token.
    pub fn as_str(&self) -> &str
        ensures value { result.now ≡ self.now.text }
        ensures name { IsName self.now.text }
    {
        self.text.as_str()
    }

    /// The text, where it is one of the program.
    pub fn as_static_str(&self) -> Option<&'static str>
        ensures { static_answer self.now.is_static self.now.text result }
    {
        match &self.text {
            NameText::Shared(_) | NameText::Part(_) => None,
            NameText::Static(text) => Some(*text),
        }
    }

    /// The text as a shared one; `None` for a text of the program. It is copied only if it is a part of a longer text.
    /// Otherwise memory is refused only if the text is shared as often as can be counted.
    pub fn to_cloned_arc(&self, alloc: Global) -> Result<Option<RcStr>, AllocError>
        ensures value { IfOk result (shared_answer self.now.is_static self.now.text) }
        ensures stat { IsTrue self.now.is_static → IsOk result }
    {
        match &self.text {
            NameText::Shared(text) => Ok(Some(text.clone()?)),
            NameText::Part(part) => Ok(Some(RcStr::from_str(alloc, part.as_str())?)),
            NameText::Static(_) => Ok(None),
        }
    }

    /// Whether the text is that of the name.
    pub fn eq_str(&self, text: &str) -> bool
        ensures { IsTrue result ↔ (self.now.text ≡ text.now) }
    {
        self.as_str() == text
    }

    /// Whether a text is a Name token: an ASCII letter or `_`, and then ASCII letters, digits and `_`.
    pub fn is_valid_syntax(text: &str) -> bool
        ensures { result ≡ is_name text.now }
    {
        match text.as_bytes().split_first() {
            None => false,
            Some((first, rest)) => is_name_start(*first) && is_name_rest(rest),
        }
    }
}

/// Whether a Name token may go on with the bytes.
fn is_name_rest(bytes: &[u8]) -> bool
    ensures { result ≡ list_all is_name_continue bytes.now }
{
    bytes.iter().all(|byte| is_name_continue(*byte))
}

/// Whether a Name token may begin with the byte.
fn is_name_start(byte: u8) -> bool
    ensures { result ≡ is_name_start byte }
{
    byte.is_ascii_alphabetic() || byte == b'_'
}

/// Whether a Name token may go on with the byte.
fn is_name_continue(byte: u8) -> bool
    ensures { result ≡ is_name_continue byte }
{
    is_name_start(byte) || byte.is_ascii_digit()
}

/// The same name, with its place. No text is copied: memory is refused only where a shared text is
/// shared as often as can be counted.
impl Clone for Name {
    ghost is_clone = { λ n copy. copy ≡ n };

    fn clone(&self) -> Result<Name, AllocError>
        ensures same { IfOk result (λ copy. copy ≡ self.now) }
        ensures stat { IsTrue self.now.is_static → IsOk result }
    {
        Ok(Name {
            text: self.text.clone()?,
            location: self.location,
        })
    }
}
