//! The sources of several documents.
ghost use Rattle.std.specs.Prelude.{◌≡◌, nat_eq, OnOk};
ghost use Rattle.schema_built_in.specs.in_definitions.Sources.{source_of};
ghost use Rattle.indexmap.specs.IndexMap.{insert_entry};
ghost use Rattle.schema_building.specs.SourcesView.{sources_view, with_sources};

use graphql_names::FileId;
use indexmap::IndexMap;
use schema_built_in::SourceFile;
use std::alloc::AllocError;

/// Adds the sources of a document. One that has the number of an earlier one replaces it.
pub fn add_sources(
    sources: &mut IndexMap<FileId, SourceFile>,
    more: &IndexMap<FileId, SourceFile>,
) -> Result<(), AllocError>
    ensures { OnOk result (sources_view sources.new ≡ with_sources (sources_view sources.old) (sources_view more.now)) }
{
    let mut left = more.as_slice();
    while let Some(((file, source), others)) = left.split_first() {
        sources.insert(*file, source.clone()?)?;
        left = others;
    }
    Ok(())
}
