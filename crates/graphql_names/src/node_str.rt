//! Shared texts, and parts of shared texts, with the places that they were read from.
ghost use Rattle.std.specs.Prelude.{◌≡◌, IfOk, Some, None, nat_eq};
ghost use Rattle.std.specs.String.{string_bytes};
ghost use Rattle.std.specs.Cmp;
ghost use Rattle.std.specs.Cmp.{on_equiv, on_per};
ghost use Rattle.std.specs.Cmp.Lexicographic.{pointwise, nat_list_eq_equiv};
ghost use Rattle.std.specs.Cmp.Rules.{hashing};
ghost use Rattle.std.proofs.Common.{rules};
ghost use Rattle.graphql_names.specs.HashedText.{hashed_text};
ghost use Rattle.graphql_names.specs.Places.{is_built_in};
ghost use Rattle.graphql_names.specs.TextPart.{part_bytes};

use crate::span::{FileId, SourceSpan};
use crate::text_hash::hash_text;
use crate::text_part::TextPart;
use std::alloc::{AllocError, Global};
use std::fmt;
use std::hash::{Hash, Hasher};
use std::marker::Model;
use std::ops::DerefStr;
use std::rc::RcStr;

/// A shared text or a part of one, and the place that it was read from, if it was read.
///
/// Contracts see it as its text in bytes and its place.
pub struct NodeStr {
    // A text of its own is the part that is the whole of it.
    part: TextPart,
    location: Option<SourceSpan>,
}

// Not derived: a derived drop is proved again in every crate that uses it.
impl Drop for NodeStr {
    fn drop(self) {
        let NodeStr {
            part: _,
            location: _,
        } = self;
    }
}

impl Model for NodeStr {
    ghost use Rattle.graphql_names.specs.TextPart.{part_bytes, part_utf8};
    ghost use Rattle.graphql_names.specs.NodeStrValue.{NodeStrValue};

    ghost Value = { NodeStrValue };

    ghost view = { λ n. record { text = part_bytes n.part; location = n.location; utf8 = part_utf8 n.part } };
}

impl NodeStr {
    /// A copy of `text`, without a place.
    pub fn new_str(alloc: Global, text: &str) -> Result<NodeStr, AllocError>
        ensures text { IfOk result (λ n. n.text ≡ text.now) }
        ensures location { IfOk result (λ n. n.location ≡ None) }
    {
        Ok(NodeStr {
            part: TextPart::all_of(RcStr::from_str(alloc, text)?),
            location: None,
        })
    }

    /// A copy of `text` that was read from `location`.
    pub fn new_str_parsed(
        alloc: Global,
        text: &str,
        location: SourceSpan,
    ) -> Result<NodeStr, AllocError>
        ensures text { IfOk result (λ n. n.text ≡ text.now) }
        ensures location { IfOk result (λ n. n.location ≡ Some location) }
    {
        Ok(NodeStr {
            part: TextPart::all_of(RcStr::from_str(alloc, text)?),
            location: Some(location),
        })
    }

    /// `text`, which was read from `location`. Its bytes are not copied.
    pub fn from_string_parsed(text: String, location: SourceSpan) -> Result<NodeStr, AllocError>
        ensures text { IfOk result (λ n. n.text ≡ string_bytes text) }
        ensures location { IfOk result (λ n. n.location ≡ Some location) }
    {
        let part = TextPart::all_of(RcStr::from_string(text)?);
        let location = Some(location);
        Ok(NodeStr { part, location })
    }

    /// `text`, a part of a shared text, which was read from `location`. Nothing is copied.
    pub fn from_part_parsed(text: TextPart, location: SourceSpan) -> NodeStr
        ensures text { result.text ≡ part_bytes text }
        ensures location { result.location ≡ Some location }
    {
        let place = Some(location);
        NodeStr {
            part: text,
            location: place,
        }
    }

    /// The text.
    pub fn as_str(&self) -> &str
        ensures { result.now ≡ self.now.text }
    {
        self.part.as_str()
    }

    /// The place that it was read from, if it was read.
    pub fn location(&self) -> Option<SourceSpan>
        ensures { result ≡ self.now.location }
    {
        self.location
    }

    /// Whether its place is in the file of the built-in definitions.
    pub fn is_built_in(&self) -> bool
        ensures { result ≡ is_built_in self.now.location }
    {
        match self.location {
            None => false,
            Some(location) => location.file_id == FileId::BUILT_IN,
        }
    }
}

impl DerefStr for NodeStr {
    ghost deref_gives = { λ n bytes. bytes ≡ n.text };

    fn deref(&self) -> &str
        ensures { result.now ≡ self.now.text }
    {
        self.as_str()
    }
}

/// The same text, with its place. No text is copied: memory is refused only where the text is shared as
/// often as can be counted.
impl Clone for NodeStr {
    ghost is_clone = { λ n copy. copy ≡ n };

    fn clone(&self) -> Result<NodeStr, AllocError> {
        Ok(NodeStr {
            part: self.part.clone()?,
            location: self.location,
        })
    }
}

impl PartialEq for NodeStr {
    ghost eq = { λ x y. pointwise nat_eq x.text y.text };

    ghost laws = { on_per (λ x. x.text) (Cmp.partial_equiv_from_equiv nat_list_eq_equiv) };

    fn eq(&self, other: &NodeStr) -> bool {
        self.as_str() == other.as_str()
    }
}

impl Eq for NodeStr {
    ghost laws = { on_equiv (λ x. x.text) nat_list_eq_equiv };
}

impl Hash for NodeStr {
    ghost hash_input = { λ n. hashed_text n.text };

    ghost respects_eq = { Prim.search (hashing, rules) };

    fn hash<H: Hasher>(&self, state: &mut H) {
        hash_text(self.as_str(), state);
    }
}

impl fmt::Display for NodeStr {
    ghost output = { λ n. Some n.text };

    fn fmt<W: fmt::Write>(&self, f: &mut fmt::Formatter<W>) -> fmt::Result {
        fmt::Display::fmt(self.as_str(), f)
    }
}
