//! The names of the types that each schema has.
ghost use Rattle.std.specs.Prelude.{◌≡◌, map, is_some};
ghost use Rattle.schema_built_in.specs.in_definitions.DefinitionTree.{definition_tree};
ghost use Rattle.schema_components.specs.Lists.{is_among};
ghost use Rattle.schema_built_in.specs.in_fold.NumberedDefinition.{type_named};
ghost use Rattle.schema_built_in.specs.in_fold.Adoption.{is_redefinition};
ghost use Rattle.schema_built_in.specs.Table.{built_in_definitions};

use schema_built_in::{Definition, type_definition};

/// Whether a type of that name is built in: a scalar (section 3.5) or a type of introspection (section 4.2).
// By name only, which takes no memory: the definitions of `schema_built_in` would have to be made first.
pub(crate) fn is_built_in_type(name: &str) -> bool
    ensures { result ≡ is_some (type_named name.now built_in_definitions) }
{
    is_among(
        name,
        &[
            "Int",
            "Float",
            "String",
            "Boolean",
            "ID",
            "__Schema",
            "__Type",
            "__TypeKind",
            "__Field",
            "__InputValue",
            "__EnumValue",
            "__Directive",
            "__DirectiveLocation",
        ],
    )
}

/// Whether the name is one of these.
fn is_among(name: &str, names: &[&str]) -> bool
    ensures { result ≡ is_among name.now (map (λ n. n.now) names.now) }
{
    for other in names {
        if name == *other {
            return true;
        }
    }
    false
}

/// Whether it defines a type with the name of a built-in type.
pub(crate) fn is_redefinition(definition: &Definition) -> bool
    ensures { result ≡ is_redefinition built_in_definitions (definition_tree definition.now) }
{
    match type_definition(definition) {
        None => false,
        Some(defined) => is_built_in_type(defined.parts.name.as_str()),
    }
}
