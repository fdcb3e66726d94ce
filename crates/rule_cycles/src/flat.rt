//! Schemas whose directives refer to nothing that refers to anything, as those of most schemas.
ghost use Rattle.std.specs.Prelude.{◌≡◌, [], ℕ, map, Contains, IfOk, IsTrue};
ghost use Rattle.schema_types.specs.TypeView.{extended_type};
ghost use Rattle.graphql_schema.specs.SchemaOf.{schema_tree};
ghost use Rattle.rule_cycles.specs.Labels.{targets};
ghost use Rattle.rule_cycles.specs.UseNumbers.{type_uses, uses_at};
ghost use Rattle.rule_cycles.specs.UseGraph.{IsFlat};
ghost use Rattle.rule_cycles.specs.UseViews.{use_view};

use crate::uses::{UseReference, use_references};
use graphql_schema::Schema;
use schema_types::ExtendedType;
use std::alloc::{AllocError, Global};

/// Whether the type is a scalar without directives: it refers to nothing.
fn is_bare_scalar(ty: &ExtendedType) -> bool
    ensures { IsTrue result → (s : _) → type_uses s (extended_type ty.now) ≡ [] }
{
    match ty {
        ExtendedType::Scalar(own) => own.content().directives.0.is_empty(),
        _ => false,
    }
}

/// Whether the node is a scalar without directives.
fn refers_to_nothing(schema: &Schema, node: usize) -> bool
    ensures { IsTrue result → uses_at (schema_tree schema.now) node ≡ [] }
{
    let directives = schema.directive_definitions.len();
    if node < directives {
        return false;
    }
    match schema.types.get_index(node - directives) {
        None => false,
        Some((_, ty)) => is_bare_scalar(ty),
    }
}

/// Whether these references are to scalars without directives.
fn lead_to_nothing(schema: &Schema, references: &[UseReference]) -> bool
    ensures { IsTrue result → (node : ℕ) → Contains (targets (map use_view references.now)) node → uses_at (schema_tree schema.now) node ≡ [] }
{
    for reference in references {
        if !refers_to_nothing(schema, reference.to) {
            return false;
        }
    }
    true
}

/// Whether each directive refers to scalars without directives alone: then none leads back to itself.
pub(crate) fn is_flat(alloc: Global, schema: &Schema) -> Result<bool, AllocError>
    ensures { IfOk result (λ flat. IsTrue flat → IsFlat (schema_tree schema.now)) }
{
    for node in 0..schema.directive_definitions.len() {
        let references = use_references(alloc, schema, node)?;
        if !lead_to_nothing(schema, &references) {
            return Ok(false);
        }
    }
    Ok(true)
}
