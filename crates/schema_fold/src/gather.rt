//! What the definition of a type and its extensions give.
ghost use Rattle.std.specs.Prelude.{◌≡◌, ◌&&◌, ◌++◌, [], map, OnOk};
ghost use Rattle.schema_fold.specs.PartsView.{parts_view};
ghost use Rattle.schema_fold.specs.ListedView.{listed_view};
ghost use Rattle.schema_fold.specs.Collected.{collected, collected_from};
ghost use Rattle.schema_fold.specs.RepeatedComponents.{parts_from};

use crate::collected::Collected;
use crate::numbered_definition::NumberedDefinition;
use crate::parts::{Parts, extension_parts};
use schema_types::ComponentOrigin;
use std::alloc::AllocError;

/// Collects all components of a type into an empty `Collected`: those of its definition, then those of each entry of the
/// list that extends it and is of its kind, in order.
pub(crate) fn collect_type(
    defined: &Parts<'_>,
    list: &[NumberedDefinition],
    all: &mut Collected,
) -> Result<(), AllocError>
    requires { collected all.old ≡ collected_from [] }
    ensures { OnOk result (collected all.new ≡ collected_from (parts_from (parts_view defined.now) (map listed_view list.now))) }
{
    all.add(ComponentOrigin::Definition, defined)?;
    for listed in list {
        if let Some(parts) = extension_parts(&listed.definition) {
            // An extension of another kind breaks its own rule, which tells it, and gives nothing.
            if *defined.name == *parts.name && defined.kind.is(parts.kind) {
                all.add(listed.origin(), &parts)?;
            }
        }
    }
    Ok(())
}
