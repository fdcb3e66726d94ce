//! Usages of variables, as the specification allows them.
ghost use Rattle.std.specs.Prelude.{◌≡◌, ◌||◌, false, not};
ghost use Rattle.std.specs.Option.{option_map_or};
ghost use Rattle.tree_literals.specs.ValueQueries.{is_null_value};
ghost use Rattle.tree_operations.specs.OperationTree.{variable_definition_tree};
ghost use Rattle.strict_documents.specs.ValueLetter.{needs_default, has_non_null_default, is_usage_allowed};
ghost use Rattle.strict_documents.specs.Given.{location_of};

use crate::location::Location;
use tree_operations::VariableDefinition;

/// Whether the definition has a default value that is not null.
fn has_non_null_default(variable: &VariableDefinition) -> bool
    ensures { result ≡ option_map_or (λ d. not (is_null_value d.it)) (variable_definition_tree variable.now).default_value false }
{
    match &variable.default_value {
        None => false,
        Some(default) => !default.content().is_null(),
    }
}

/// Whether the location is non-null and the variable nullable.
fn needs_default(variable: &VariableDefinition, location: Location<'_>) -> bool
    ensures { result ≡ needs_default (variable_definition_tree variable.now) (location_of location.entry) }
{
    location.ty.is_non_null() && !variable.ty.content().is_non_null()
}

/// Whether one of both has a default value, the variable one that is not null.
fn has_default(variable: &VariableDefinition, location: Location<'_>) -> bool
    ensures { result ≡ has_non_null_default (variable_definition_tree variable.now) (location_of location.entry) || (location_of location.entry).has_default }
{
    has_non_null_default(variable) || location.has_default
}

/// IsVariableUsageAllowed (section 5.8.5): a nullable variable fits a non-null location only if one of both has a default value,
/// the variable one that is not null.
pub fn is_usage_allowed(variable: &VariableDefinition, location: Location<'_>) -> bool
    ensures { result ≡ is_usage_allowed (variable_definition_tree variable.now) (location_of location.entry) }
{
    let ty = variable.ty.content();
    if !needs_default(variable, location) {
        return ty.is_assignable_to(location.ty);
    }
    if !has_default(variable, location) {
        return false;
    }
    ty.is_assignable_to_nullable(location.ty)
}
