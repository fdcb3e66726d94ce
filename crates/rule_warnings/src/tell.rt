//! One use is told.
ghost use Rattle.std.specs.Prelude.{◌≡◌, codes, Some, IfOk, OnOk};
ghost use Rattle.std.specs.Option.{option_map, option_copied, option_and_then};
ghost use Rattle.std.specs.String.{string_bytes};
ghost use Rattle.graphql_names.specs.Placed.{name_tree};
ghost use Rattle.tree_literals.specs.ValueQueries.{string_text};
ghost use Rattle.tree_directives.specs.DirectiveTree.{directive_tree, directives_tree, unplaced_directives};
ghost use Rattle.tree_directives.specs.DirectiveQueries.{given_value};
ghost use Rattle.rule_warnings.specs.Deprecated.{reason_given, deprecation};
ghost use Rattle.rule_warnings.specs.Views.{use_tree};
ghost use Rattle.rule_warnings.specs.Telling.{Tells, use_by, kind_by, coordinate_by};

use crate::deprecated_use::DeprecatedUse;
use crate::owner::Owner;
use graphql_names::Name;
use std::alloc::{AllocError, Global};
use tree_directives::{Directive, DirectiveList};

/// How many uses a call tells at most.
const MOST_TOLD: usize = 1_000;

/// The string that a directive gives as `reason`, if it does.
fn given_reason(directive: &Directive) -> Option<&str>
    ensures { option_copied result ≡ option_and_then (λ v. string_text v.it) (given_value (codes "reason") (directive_tree directive.now).arguments) }
{
    match directive.specified_argument_by_name("reason") {
        None => None,
        Some(value) => value.content().as_str(),
    }
}

/// A copy of a text, if there is one.
fn copied(alloc: Global, text: Option<&str>) -> Result<Option<String>, AllocError>
    ensures { IfOk result (λ r. option_map string_bytes r ≡ option_copied text.entry) }
{
    match text {
        None => Ok(None),
        Some(text) => Ok(Some(String::from_str(alloc, text)?)),
    }
}

/// The use of a name of that owner, which this `@deprecated` makes deprecated.
fn made(
    alloc: Global,
    owner: Owner<'_>,
    name: &Name,
    deprecated: &Directive,
) -> Result<DeprecatedUse, AllocError>
    ensures { IfOk result (λ u. use_tree u ≡ record { place = name.now.location; kind = kind_by owner.entry; coordinate = coordinate_by owner.entry name.now.text; reason = reason_given (directive_tree deprecated.now).arguments }) }
{
    let coordinate = owner.coordinate(name)?;
    let given_reason = copied(alloc, given_reason(deprecated))?;
    Ok(DeprecatedUse {
        location: name.location(),
        kind: owner.kind(),
        coordinate,
        given_reason,
    })
}

/// Adds the use of a name of that owner, which this `@deprecated` makes deprecated.
fn tell_deprecated(
    owner: Owner<'_>,
    name: &Name,
    deprecated: &Directive,
    uses: &mut Vec<DeprecatedUse>,
) -> Result<(), AllocError>
    ensures { OnOk result (Tells uses.old uses.new (use_by owner.entry (Some (reason_given (directive_tree deprecated.now).arguments)) (name_tree name.now))) }
{
    if uses.len() >= MOST_TOLD {
        return Ok(());
    }
    let told = made(*uses.allocator(), owner, name, deprecated)?;
    uses.push(told)?;
    Ok(())
}

/// Adds the use of a name of that owner, if `@deprecated` is among the directives of its definition.
pub(crate) fn tell_use(
    owner: Owner<'_>,
    name: &Name,
    directives: &DirectiveList,
    uses: &mut Vec<DeprecatedUse>,
) -> Result<(), AllocError>
    ensures { OnOk result (Tells uses.old uses.new (use_by owner.entry (deprecation (unplaced_directives (directives_tree directives.now))) (name_tree name.now))) }
{
    match directives.get("deprecated") {
        None => Ok(()),
        Some(deprecated) => tell_deprecated(owner, name, deprecated.content(), uses),
    }
}
