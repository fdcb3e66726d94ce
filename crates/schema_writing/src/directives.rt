//! The definitions of directives.
ghost use Rattle.std.specs.Prelude.{OnOk};
ghost use Rattle.std.specs.List.{flat_map};
ghost use Rattle.schema_writing.specs.SchemaParts.{written_node};
ghost use Rattle.schema_writing.specs.Writing.{Writes};

use graphql_names::Node;
use std::alloc::AllocError;
use tree_definitions::Definition;
use tree_directives::DirectiveDefinition;

/// Writes each definition of a directive that is not built in.
pub(crate) fn write_directives(
    directives: &[Node<DirectiveDefinition>],
    out: &mut Vec<Definition>,
) -> Result<(), AllocError>
    ensures { OnOk result (Writes out.old out.new (flat_map written_node directives.now)) }
{
    for directive in directives {
        if directive.is_built_in() {
            continue;
        }
        out.push(Definition::DirectiveDefinition(directive.clone()?))?;
    }
    Ok(())
}
