//! What an accepted pair is written as.

use std::alloc::AllocError;

/// What an accepted pair is written as, under the layout of this name.
pub(crate) struct Pair {
    pub(crate) name: &'static str,
    pub(crate) schema: String,
    pub(crate) document: String,
}

impl Drop for Pair {
    fn drop(self) {
        let Pair {
            name: _,
            schema: _,
            document: _,
        } = self;
    }
}

/// Adds what a pair is written as, if memory suffices.
pub(crate) fn push_pair(
    name: &'static str,
    schema: Result<String, AllocError>,
    document: Result<String, AllocError>,
    pairs: &mut Vec<Pair>,
) -> Result<(), AllocError> {
    pairs.push(Pair {
        name,
        schema: schema?,
        document: document?,
    })?;
    Ok(())
}
