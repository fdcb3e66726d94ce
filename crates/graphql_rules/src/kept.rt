//! The types that are kept.
ghost use Rattle.std.specs.Prelude.{◌≡◌, fold, IfOk, OnOk, [], Some};
ghost use Rattle.graphql_names.specs.NameSyntax.{IsName};
ghost use Rattle.graphql_names.specs.Placed.{name_tree};
ghost use Rattle.schema_types.specs.SchemaView.{types_view};
ghost use Rattle.schema_types.specs.TypeView.{extended_type};
ghost use Rattle.rule_cycles.specs.in_schema.SchemaOf.{schema_tree};
ghost use Rattle.schema_types.specs.BuiltIn.{built_in, name as bare_name};
ghost use Rattle.rule_definitions.specs.Names.{scalar_names};
ghost use Rattle.rule_definitions.specs.Kept.{is_dropped, is_missing, built_in_scalar, validated};
ghost use Rattle.graphql_rules.specs.Putting.{put_under, and_kept, and_missing};

use crate::references::is_referenced;
use graphql_names::{FileId, Name, Node, SourceSpan};
use indexmap::IndexMap;
use rule_cycles::Schema;
use schema_components::DirectiveList;
use schema_types::{ExtendedType, ScalarType};
use std::alloc::{AllocError, Global};

/// The types of the schema as validated: without each built-in scalar that is the inner type of no field, argument or
/// input field, and after them each of the five that is one, if it was not there. The schema stays as it is.
pub(crate) fn kept_types(
    alloc: Global,
    schema: &Schema,
) -> Result<IndexMap<Name, ExtendedType>, AllocError>
    ensures { IfOk result (λ m. types_view m ≡ (validated (schema_tree schema.now)).types) }
{
    let mut kept = IndexMap::with_capacity(alloc, schema.types.len())?;
    keep_types(schema, &mut kept)?;
    put_back_scalars(alloc, schema, &mut kept)?;
    Ok(kept)
}

/// Keeps each type of the schema but the built-in scalars to which nothing refers.
fn keep_types(schema: &Schema, kept: &mut IndexMap<Name, ExtendedType>) -> Result<(), AllocError>
    ensures { OnOk result (types_view kept.new ≡ fold (and_kept (schema_tree schema.now)) (types_view kept.old) (schema_tree schema.now).types) }
{
    for (name, ty) in &schema.types {
        keep_type(schema, name, ty, kept)?;
    }
    Ok(())
}

/// Keeps a type of the schema, unless it is a built-in scalar to which nothing refers.
fn keep_type(
    schema: &Schema,
    name: &Name,
    ty: &ExtendedType,
    kept: &mut IndexMap<Name, ExtendedType>,
) -> Result<(), AllocError>
    ensures { OnOk result (types_view kept.new ≡ and_kept (schema_tree schema.now) (types_view kept.old) (name.now.text, extended_type ty.now)) }
{
    if is_dropped(schema, name, ty) {
        return Ok(());
    }
    put_type(kept, name.clone()?, ty.clone()?)
}

/// Whether it is a built-in scalar to which nothing refers.
// Section 3.5: a built-in scalar to which nothing in a schema refers must not be included in it.
fn is_dropped(schema: &Schema, name: &Name, ty: &ExtendedType) -> bool
    ensures { result ≡ is_dropped (schema_tree schema.now) (name.now.text, extended_type ty.now) }
{
    match ty {
        ExtendedType::Scalar(scalar) => {
            scalar.is_built_in() && !is_referenced(name.as_str(), schema)
        }
        _ => false,
    }
}

/// Puts back each of the five built-in scalars (section 3.5) to which something refers and that is not there.
// One may be missing from a schema that was made by hand, or from which an earlier call dropped it.
fn put_back_scalars(
    alloc: Global,
    schema: &Schema,
    kept: &mut IndexMap<Name, ExtendedType>,
) -> Result<(), AllocError>
    ensures { OnOk result (types_view kept.new ≡ fold (and_missing (schema_tree schema.now)) (types_view kept.old) scalar_names) }
{
    put_back(alloc, schema, "Int", kept)?;
    put_back(alloc, schema, "Float", kept)?;
    put_back(alloc, schema, "String", kept)?;
    put_back(alloc, schema, "Boolean", kept)?;
    put_back(alloc, schema, "ID", kept)
}

/// Puts a built-in scalar back, if something refers to it and it is not there.
fn put_back(
    alloc: Global,
    schema: &Schema,
    name: &'static str,
    kept: &mut IndexMap<Name, ExtendedType>,
) -> Result<(), AllocError>
    requires { IsName name.now }
    ensures { OnOk result (types_view kept.new ≡ and_missing (schema_tree schema.now) (types_view kept.old) name.now) }
{
    let name = Name::new_static_unchecked(name);
    if !is_missing(schema, &name) {
        return Ok(());
    }
    let scalar = built_in_scalar(alloc, name.clone()?)?;
    put_type(kept, name, scalar)
}

/// Whether something refers to the scalar, and it is not there.
fn is_missing(schema: &Schema, name: &Name) -> bool
    ensures { result ≡ is_missing (schema_tree schema.now) name.now.text }
{
    match schema.type_named(name) {
        None => is_referenced(name.as_str(), schema),
        Some(_) => false,
    }
}

/// A scalar as the table of what is built in has it.
fn built_in_scalar(alloc: Global, name: Name) -> Result<ExtendedType, AllocError>
    requires { name_tree name ≡ bare_name name.text }
    ensures { IfOk result (λ t. extended_type t ≡ (built_in_scalar name.text).1) }
{
    let scalar = ScalarType {
        description: None,
        name,
        directives: DirectiveList::new(alloc),
    };
    Ok(ExtendedType::Scalar(Node::new_parsed(alloc, scalar, built_in_place())?))
}

/// The place of what is built in.
fn built_in_place() -> SourceSpan
    ensures { Some result ≡ built_in }
{
    SourceSpan {
        file_id: FileId::BUILT_IN,
        offset: 0,
        length: 0,
    }
}

/// Puts a type under its name.
fn put_type(
    kept: &mut IndexMap<Name, ExtendedType>,
    name: Name,
    ty: ExtendedType,
) -> Result<(), AllocError>
    ensures { OnOk result (types_view kept.new ≡ put_under name.text (extended_type ty) (types_view kept.old)) }
{
    kept.insert(name, ty)?;
    Ok(())
}
