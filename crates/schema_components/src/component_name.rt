//! Names with their origins.
ghost use Rattle.std.specs.Prelude.{◌≡◌, Some};

use crate::component::ComponentOrigin;
use std::alloc::AllocError;
use std::fmt;
use std::ops::Deref;
use tree_literals::Name;

/// A name and its origin. Equality and hash are those of the name.
#[derive_where(PartialEq, Eq, Hash)]
pub struct ComponentName {
    #[derive_where(skip)]
    pub origin: ComponentOrigin,
    pub name: Name,
}

impl Drop for ComponentName {
    fn drop(self) {
        let ComponentName { origin: _, name: _ } = self;
    }
}

impl ComponentName {
    /// The name, with that origin.
    pub fn new(origin: ComponentOrigin, name: Name) -> ComponentName
        ensures origin { result.origin ≡ origin }
        ensures name { result.name ≡ name }
    {
        ComponentName { origin, name }
    }
}

impl Deref for ComponentName {
    type Target = Name;

    ghost deref_gives = { λ c n. n ≡ c.name };

    fn deref(&self) -> &Name
        ensures { result.now ≡ self.now.name }
    {
        &self.name
    }
}

impl fmt::Display for ComponentName {
    ghost output = { λ c. Some c.name.text };

    fn fmt<W: fmt::Write>(&self, f: &mut fmt::Formatter<W>) -> fmt::Result {
        fmt::Display::fmt(self.name.as_str(), f)
    }
}

impl Clone for ComponentName {
    ghost is_clone = { λ c copy. (copy.origin ≡ c.origin) × (copy.name ≡ c.name) };

    fn clone(&self) -> Result<ComponentName, AllocError> {
        Ok(ComponentName {
            origin: self.origin,
            name: self.name.clone()?,
        })
    }
}
