//! The kinds of the types that are named.
ghost use Rattle.std.specs.Prelude.{◌≡◌};
ghost use Rattle.tree_literals.specs.TypeTree.{type_tree};
ghost use Rattle.tree_literals.specs.TypeQueries.{inner_name};
ghost use Rattle.rule_types.specs.FaultLists.{kind_named};
ghost use Rattle.rule_types.specs.Trees.{schema_of};

use crate::rule_context::RuleContext;
use graphql_names::Name;
use schema_types::TypeKind;
use tree_literals::Type;

/// The kind of the type of that name, if it is defined.
pub(crate) fn kind_named(judging: &RuleContext<'_>, name: &Name) -> Option<TypeKind>
    ensures { result ≡ kind_named (schema_of judging.now) name.now.text }
{
    match judging.schema.type_named(name) {
        None => None,
        Some(ty) => Some(ty.kind()),
    }
}

/// The kind of the inner type of a reference, if it is defined.
pub(crate) fn kind_inside(judging: &RuleContext<'_>, ty: &Type) -> Option<TypeKind>
    ensures { result ≡ kind_named (schema_of judging.now) (inner_name (type_tree ty.now)).it }
{
    kind_named(judging, ty.inner_named_type())
}
