//! What is told of a fault.

use crate::position::Position;
use crate::severity::Severity;

/// Where in a text a fault is.
#[derive(Clone, Copy)]
pub struct Place {
    /// Where it begins.
    pub start: Position,
    /// Where it ends: the place after its last character.
    pub end: Position,
    /// How many bytes of the text are before it.
    pub offset: usize,
    /// How many bytes long it is.
    pub length: usize,
}

/// The line in which a fault begins, or a part of it if it is long: `…` is where it is cut.
pub struct Excerpt {
    /// What is before the place.
    pub before: String,
    /// What is at the place, as far as it is in this line.
    pub marked: String,
    /// What comes after the place.
    pub after: String,
}

impl Drop for Excerpt {
    fn drop(self) {
        let Excerpt {
            before: _,
            marked: _,
            after: _,
        } = self;
    }
}

/// Another place that belongs to a fault.
pub struct Related {
    /// The text, as the caller names it.
    pub path: String,
    /// Where it begins, if it has a place in that text.
    pub start: Option<Position>,
    /// What is there.
    pub words: String,
}

impl Drop for Related {
    fn drop(self) {
        let Related {
            path: _,
            start: _,
            words: _,
        } = self;
    }
}

/// A name or a text that belongs to a fault.
pub struct Field {
    /// What it is, as `field_name`.
    pub name: &'static str,
    pub value: String,
}

impl Drop for Field {
    fn drop(self) {
        let Field { name: _, value: _ } = self;
    }
}

/// What is told of a fault.
pub struct Entry {
    /// The text, as the caller names it.
    pub path: String,
    /// Where in the text it is, if it has a place.
    pub place: Option<Place>,
    /// Whether it is a fault or a warning.
    pub severity: Severity,
    /// The name of the rule that is broken, or of the warning.
    pub rule: &'static str,
    /// What is wrong.
    pub message: String,
    /// The line, if it has a place.
    pub excerpt: Option<Excerpt>,
    /// Other places that belong to it.
    pub related: Vec<Related>,
    /// What may be meant, or what to do.
    pub hint: Option<String>,
    /// The data of the fault.
    pub fields: Vec<Field>,
}

impl Drop for Entry {
    fn drop(self) {
        let Entry {
            path: _,
            place: _,
            severity: _,
            rule: _,
            message: _,
            excerpt: _,
            related: _,
            hint: _,
            fields: _,
        } = self;
    }
}
