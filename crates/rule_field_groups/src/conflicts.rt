//! Conflicts of two fields.
ghost use Rattle.std.specs.Prelude.{◌≡◌, ◌↔◌, ◌≤◌, ◌+◌, ◌++◌, ◌∷◌, min, map, take, drop, IfOk, IsTrue, OnOk};
ghost use Rattle.schema_coordinates.specs.CoordinateView.{attribute_coordinate, argument_coordinate};
ghost use Rattle.fault_document_errors.specs.DocumentBreachView.{value_in_conflict};
ghost use Rattle.rule_field_sets.specs.in_schema.SchemaOf.{schema_tree};
ghost use Rattle.rule_selection_queries.specs.in_definitions.Judged.{judged};
ghost use Rattle.rule_selection_queries.specs.in_document_definitions.Merging.{SameName};
ghost use Rattle.rule_selection_queries.specs.in_document_definitions.SameValues.{plain_given};
ghost use Rattle.rule_field_sets.specs.in_reach.Broken.{broken_of};
ghost use Rattle.rule_field_groups.specs.Members.{field_of, fields_of};
ghost use Rattle.rule_field_groups.specs.Passes.{AddsTwo, AddsGroup, AddsEach, coordinate_of, coordinate_of_argument, type_conflict, name_conflict, argument_conflict};
ghost use Rattle.rule_field_groups.specs.Compared.{compared, compared_once, greatest_count, CountsUp};
ghost use Rattle.rule_field_groups.specs.KeyGroups.{parts_of, compared_in};
ghost use Rattle.rule_field_groups.specs.LaterField.{IsInOrder};
ghost use Rattle.rule_field_groups.specs.Conflicts.{judged_by, AreInTextOrder, AddsTypes, AddsNames, AddsArguments};

use crate::groups::KeyGroup;
use crate::pass::{Comparing, Pass};
use crate::shapes::same_type;
use fault_document_errors::{
    BuildError, ConflictingFieldArgument, ConflictingFieldName, ConflictingFieldType,
};
use graphql_names::{Name, SourceSpan};
use rule_field_sets::{Member, Schema, push_breach};
use rule_selection_queries::differing_argument;
use schema_coordinates::{FieldArgumentCoordinate, TypeAttributeCoordinate};
use std::alloc::{AllocError, Global};
use tree_literals::{Value, copies_of_three};

/// What breaks a rule, with its place.
pub type Breach = (Option<SourceSpan>, BuildError);

/// One more; unchanged if the count is the greatest number.
fn count_one(count: &mut u128)
    ensures value { count.new ≡ min (count.old + 1) greatest_count }
    ensures counts { CountsUp count.old 1 count.new }
{
    *count = count.saturating_add(1);
}

/// Whether the first place does not come after the second, where both are in one text.
fn is_in_order(first: Option<SourceSpan>, second: Option<SourceSpan>) -> bool
    ensures { IsTrue result ↔ IsInOrder first second }
{
    let (Some(first), Some(second)) = (first, second) else {
        return true;
    };
    first.file_id != second.file_id || first.offset <= second.offset
}

/// Two fields in the order of the text, where both are in one text; else as they are.
fn in_text_order<'doc>(first: Member<'doc>, other: Member<'doc>) -> (Member<'doc>, Member<'doc>)
    ensures { AreInTextOrder first.entry other.entry result }
{
    if is_in_order(
        first.selection.field.location(),
        other.selection.field.location(),
    ) {
        return (first, other);
    }
    (other, first)
}

/// The coordinates of two fields.
fn coordinates(
    first: Member<'_>,
    other: Member<'_>,
) -> Result<(TypeAttributeCoordinate, TypeAttributeCoordinate), AllocError>
    ensures first { IfOk result (λ c. attribute_coordinate c.0 ≡ coordinate_of (field_of first.entry)) }
    ensures other { IfOk result (λ c. attribute_coordinate c.1 ≡ coordinate_of (field_of other.entry)) }
{
    let coordinate = first.selection.coordinate()?;
    Ok((coordinate, other.selection.coordinate()?))
}

/// What is told of fields whose types have different shapes.
fn told_types(alloc: Global, first: Member<'_>, other: Member<'_>) -> Result<Breach, AllocError>
    ensures { IfOk result (λ b. broken_of b ≡ type_conflict (field_of first.entry) (field_of other.entry)) }
{
    let (alias, original_type, conflicting_type) = copies_of_three(
        other.selection.response_key(),
        first.selection.field.content().ty(),
        other.selection.field.content().ty(),
    )?;
    let (original_coordinate, conflicting_coordinate) = coordinates(first, other)?;
    let conflict = ConflictingFieldType {
        alias,
        original_location: first.selection.field.location(),
        original_coordinate,
        original_type,
        conflicting_location: other.selection.field.location(),
        conflicting_coordinate,
        conflicting_type,
    };
    let conflict = BuildError::ConflictingFieldType(Box::new(alloc, conflict)?);
    Ok((other.selection.field.location(), conflict))
}

/// ConflictingFieldType: a selection set is valid only if fields of one response key have one shape (section 5.3.2). This
/// is SameResponseShape of the specification. Each comparison is counted.
fn conflicting_field_type(
    schema: &Schema,
    first: Member<'_>,
    other: Member<'_>,
    breaches: &mut Vec<Breach>,
    comparisons: &mut u128,
) -> Result<(), AllocError>
    ensures told { OnOk result (AddsTypes (judged (schema_tree schema.now)) (field_of first.entry) (field_of other.entry) breaches.old breaches.new) }
    ensures counted { CountsUp comparisons.old 1 comparisons.new }
{
    count_one(comparisons);
    if same_type(
        schema,
        first.selection.field.content().ty(),
        other.selection.field.content().ty(),
    ) {
        return Ok(());
    }
    let (earlier, later) = in_text_order(first, other);
    let conflict = told_types(*breaches.allocator(), earlier, later)?;
    push_breach(breaches, Some(conflict))
}

/// Whether two fields have one name.
fn have_one_name(first: Member<'_>, other: Member<'_>) -> bool
    ensures { IsTrue result ↔ SameName (field_of first.entry) (field_of other.entry) }
{
    first.selection.field.content().name.as_str() == other.selection.field.content().name.as_str()
}

/// What is told of fields of different names.
fn told_names(alloc: Global, first: Member<'_>, other: Member<'_>) -> Result<Breach, AllocError>
    ensures { IfOk result (λ b. broken_of b ≡ name_conflict (field_of first.entry) (field_of other.entry)) }
{
    let alias = other.selection.response_key().clone()?;
    let (original_selection, conflicting_selection) = coordinates(first, other)?;
    let conflict = ConflictingFieldName {
        alias,
        original_location: first.selection.field.location(),
        original_selection,
        conflicting_location: other.selection.field.location(),
        conflicting_selection,
    };
    let conflict = BuildError::ConflictingFieldName(Box::new(alloc, conflict)?);
    Ok((other.selection.field.location(), conflict))
}

/// ConflictingFieldName: a selection set is valid only if fields that one object may have under one response key have one
/// name (section 5.3.2). The specification says "must have identical field names".
fn conflicting_field_name(
    first: Member<'_>,
    other: Member<'_>,
    breaches: &mut Vec<Breach>,
) -> Result<(), AllocError>
    ensures { OnOk result (AddsNames (field_of first.entry) (field_of other.entry) breaches.old breaches.new) }
{
    if have_one_name(first, other) {
        return Ok(());
    }
    let (earlier, later) = in_text_order(first, other);
    let conflict = told_names(*breaches.allocator(), earlier, later)?;
    push_breach(breaches, Some(conflict))
}

/// The coordinate of the field's argument of that name.
fn coordinate_of_argument(
    field: Member<'_>,
    name: &Name,
) -> Result<FieldArgumentCoordinate, AllocError>
    ensures { IfOk result (λ c. argument_coordinate c ≡ coordinate_of_argument name.now.text (field_of field.entry)) }
{
    let coordinate = field.selection.coordinate()?;
    Ok(coordinate.with_argument(name.clone()?))
}

/// The coordinates of the arguments of that name of two fields.
fn argument_coordinates(
    first: Member<'_>,
    other: Member<'_>,
    name: &Name,
) -> Result<(FieldArgumentCoordinate, FieldArgumentCoordinate), AllocError>
    ensures first { IfOk result (λ c. argument_coordinate c.0 ≡ coordinate_of_argument name.now.text (field_of first.entry)) }
    ensures other { IfOk result (λ c. argument_coordinate c.1 ≡ coordinate_of_argument name.now.text (field_of other.entry)) }
{
    let coordinate = coordinate_of_argument(first, name)?;
    Ok((coordinate, coordinate_of_argument(other, name)?))
}

/// What the field gives for the argument of that name, if anything.
fn value_given(field: Member<'_>, name: &Name) -> Result<Option<Value>, AllocError>
    ensures { IfOk result (λ v. value_in_conflict v ≡ plain_given name.now.text (field_of field.entry).head.arguments) }
{
    match field
        .selection
        .field
        .content()
        .specified_argument_by_name(name.as_str())
    {
        None => Ok(None),
        Some(value) => Ok(Some(value.content().clone()?)),
    }
}

/// What two fields give for the argument of that name.
fn values_given(
    first: Member<'_>,
    other: Member<'_>,
    name: &Name,
) -> Result<(Option<Value>, Option<Value>), AllocError>
    ensures first { IfOk result (λ v. value_in_conflict v.0 ≡ plain_given name.now.text (field_of first.entry).head.arguments) }
    ensures other { IfOk result (λ v. value_in_conflict v.1 ≡ plain_given name.now.text (field_of other.entry).head.arguments) }
{
    let value = value_given(first, name)?;
    Ok((value, value_given(other, name)?))
}

/// What is told of fields that give the argument of that name different values.
fn told_arguments(
    alloc: Global,
    first: Member<'_>,
    other: Member<'_>,
    name: &Name,
) -> Result<Breach, AllocError>
    ensures { IfOk result (λ b. broken_of b ≡ argument_conflict name.now.text (field_of first.entry) (field_of other.entry)) }
{
    let alias = other.selection.response_key().clone()?;
    let (original_coordinate, conflicting_coordinate) = argument_coordinates(first, other, name)?;
    let (original_value, conflicting_value) = values_given(first, other, name)?;
    let conflict = ConflictingFieldArgument {
        alias,
        original_location: first.selection.field.location(),
        original_coordinate,
        original_value,
        conflicting_location: other.selection.field.location(),
        conflicting_coordinate,
        conflicting_value,
    };
    let conflict = BuildError::ConflictingFieldArgument(Box::new(alloc, conflict)?);
    Ok((other.selection.field.location(), conflict))
}

/// ConflictingFieldArgument: a selection set is valid only if fields that one object may have under one response key have
/// the same arguments (section 5.3.2). The specification says "must have identical sets of arguments". The first argument
/// that differs is told.
fn conflicting_field_argument(
    first: Member<'_>,
    other: Member<'_>,
    breaches: &mut Vec<Breach>,
) -> Result<(), AllocError>
    ensures { OnOk result (AddsArguments (field_of first.entry) (field_of other.entry) breaches.old breaches.new) }
{
    let alloc = *breaches.allocator();
    let given = first.selection.field.content().arguments.as_slice();
    let differing = differing_argument(
        alloc,
        given,
        other.selection.field.content().arguments.as_slice(),
    )?;
    match differing {
        None => Ok(()),
        Some(name) => {
            let (earlier, later) = in_text_order(first, other);
            let conflict = told_arguments(alloc, earlier, later, &name)?;
            push_breach(breaches, Some(conflict))
        }
    }
}

/// Tells of two fields of a group, if they do not agree: of their shapes; or of their names, and if these agree, of their
/// arguments.
fn check_two(
    comparing: &Comparing<'_>,
    first: Member<'_>,
    other: Member<'_>,
    breaches: &mut Vec<Breach>,
    comparisons: &mut u128,
) -> Result<(), AllocError>
    ensures told { OnOk result (AddsTwo comparing.now.pass (judged_by comparing.now) (field_of first.entry) (field_of other.entry) breaches.old breaches.new) }
    ensures counted { CountsUp comparisons.old (compared_once comparing.now.pass) comparisons.new }
{
    match comparing.pass {
        Pass::Shapes => {
            conflicting_field_type(comparing.schema, first, other, breaches, comparisons)
        }
        Pass::Selections => {
            if have_one_name(first, other) {
                return conflicting_field_argument(first, other, breaches);
            }
            conflicting_field_name(first, other, breaches)
        }
    }
}

/// Tells each of the other fields that does not agree with the first.
fn check_others(
    comparing: &Comparing<'_>,
    first: Member<'_>,
    others: &[Member<'_>],
    breaches: &mut Vec<Breach>,
    comparisons: &mut u128,
) -> Result<(), AllocError>
    ensures told { OnOk result (AddsGroup comparing.now.pass (judged_by comparing.now) (fields_of (first.entry ∷ others.now)) breaches.old breaches.new) }
    ensures more { comparisons.old ≤ comparisons.new }
    ensures counted { comparisons.new ≤ comparisons.old + compared comparing.now.pass others.now }
    ensures exact { OnOk result (CountsUp comparisons.old (compared comparing.now.pass others.now) comparisons.new) }
{
    for other in others {
        check_two(comparing, first, *other, breaches, comparisons)?;
    }
    Ok(())
}

/// Tells each further field of a list that does not agree with the first one.
pub fn check_group(
    pass: Pass,
    schema: &Schema,
    group: &[Member<'_>],
    breaches: &mut Vec<Breach>,
    comparisons: &mut u128,
) -> Result<(), AllocError>
    ensures told { OnOk result (AddsGroup pass (judged (schema_tree schema.now)) (fields_of group.now) breaches.old breaches.new) }
    ensures more { comparisons.old ≤ comparisons.new }
    ensures counted { comparisons.new ≤ comparisons.old + compared pass group.now }
    ensures exact { OnOk result (CountsUp comparisons.old (compared pass (drop 1 group.now)) comparisons.new) }
{
    let comparing = Comparing { pass, schema };
    match group.split_first() {
        None => Ok(()),
        Some((first, others)) => check_others(&comparing, *first, others, breaches, comparisons),
    }
}

/// Tells the fields on one object type that do not agree with the first shared one, or with their own first if none is shared.
fn check_own(
    comparing: &Comparing<'_>,
    shared: &[Member<'_>],
    own: &[Member<'_>],
    breaches: &mut Vec<Breach>,
    comparisons: &mut u128,
) -> Result<(), AllocError>
    ensures told { OnOk result (AddsGroup comparing.now.pass (judged_by comparing.now) (fields_of (take 1 shared.now ++ own.now)) breaches.old breaches.new) }
    ensures more { comparisons.old ≤ comparisons.new }
    ensures counted { comparisons.new ≤ comparisons.old + compared comparing.now.pass own.now }
{
    match shared.split_first() {
        None => check_group(comparing.pass, comparing.schema, own, breaches, comparisons),
        Some((first, _)) => check_others(comparing, *first, own, breaches, comparisons),
    }
}

/// Tells the fields under one key that do not agree, part by part.
pub fn check_key_group(
    pass: Pass,
    schema: &Schema,
    group: &KeyGroup<'_>,
    breaches: &mut Vec<Breach>,
    comparisons: &mut u128,
) -> Result<(), AllocError>
    ensures told { OnOk result (AddsEach pass (judged (schema_tree schema.now)) (map fields_of (parts_of group.now)) breaches.old breaches.new) }
    ensures more { comparisons.old ≤ comparisons.new }
    ensures counted { comparisons.new ≤ comparisons.old + compared_in pass group.now }
{
    let comparing = Comparing { pass, schema };
    check_group(pass, schema, &group.shared, breaches, comparisons)?;
    for own in &group.own {
        check_own(&comparing, &group.shared, own, breaches, comparisons)?;
    }
    Ok(())
}
