//! A schema, with what the departures of documents need of it.
ghost use Rattle.std.specs.Prelude.{◌≡◌, map, IfOk, OnOk};
ghost use Rattle.schema_components.specs.Given.{component_name_tree, given_name};
ghost use Rattle.schema_components.specs.Lists.{is_among};
ghost use Rattle.schema_components.specs.Names.{entries_of};
ghost use Rattle.schema_types.specs.TypeView.{extended_type, name_text};
ghost use Rattle.graphql_schema.specs.SchemaOf.{schema_tree};
ghost use Rattle.strict_documents.specs.Applying.{is_without_object};
ghost use Rattle.strict_documents.specs.Implemented.{AddsNames, is_implemented_among, is_implemented_by, is_noted};

use graphql_names::Name;
use graphql_schema::Schema;
use indexmap::{IndexMap, IndexSet};
use rule_reach::{has_name, note_name};
use rule_values::IndexedSchema;
use schema_components::ComponentName;
use schema_inputs::SchemaInputs;
use schema_types::ExtendedType;
use std::alloc::{AllocError, Global};
use std::marker::Model;

/// A schema, what it defines of many input values, and the names of the interfaces that some object implements: found once for all
/// documents under it.
///
/// Contracts see it as the schema.
pub struct StrictSchema<'s> {
    schema: &'s Schema,
    inputs: SchemaInputs,
    implemented: IndexSet<Name>,
}

// Not derived: a derived drop is proved again in each crate that drops one.
impl Drop for StrictSchema<'_> {
    fn drop(self) {
        let StrictSchema {
            schema: _,
            inputs: _,
            implemented: _,
        } = self;
    }
}

impl<'s> Model for StrictSchema<'s> {
    ghost use Rattle.std.specs.Coded.{codes};
    ghost use Rattle.graphql_schema.specs.contracts.schema.Schema as of_schema;
    ghost use Rattle.graphql_schema.specs.declared.schema.Schema.{Schema as Whole};
    ghost use Rattle.graphql_schema.specs.SchemaOf.{schema_tree};
    ghost use Rattle.schema_inputs.specs.Inputs.{AreInputsOf};
    ghost use Rattle.strict_documents.specs.Implemented.{AreImplemented};

    ghost Value = { Whole };

    ghost coded = { Prim.hlevel (codes, of_schema.the_row.coded) };

    ghost view = { λ s. s.schema.now };

    ghost invariant = { λ s. AreInputsOf (schema_tree s.schema.now) s.inputs × AreImplemented (schema_tree s.schema.now) s.implemented };
}

impl<'s> StrictSchema<'s> {
    /// The schema, with what is found of it. Fails if memory is refused.
    pub fn new(alloc: Global, schema: &'s Schema) -> Result<StrictSchema<'s>, AllocError>
        ensures { IfOk result (λ s. s ≡ schema.now) }
    {
        let inputs = SchemaInputs::new(alloc, &schema.types, &schema.directive_definitions)?;
        let implemented = implemented_interfaces(alloc, &schema.types)?;
        Ok(StrictSchema {
            schema,
            inputs,
            implemented,
        })
    }

    /// The schema.
    pub fn schema(&self) -> &'s Schema
        ensures { result.now ≡ self.now }
    {
        self.schema
    }

    /// The schema, with what it defines of many input values.
    pub fn indexed(&self) -> IndexedSchema<'_>
        ensures { result ≡ self.now }
    {
        IndexedSchema::new(self.schema, &self.inputs)
    }

    /// Whether the name is that of an interface that no object implements (GetPossibleTypes, section 5.5.2.3).
    pub fn is_without_object(&self, name: &Name) -> bool
        ensures { result ≡ is_without_object (schema_tree self.now) name.now.text }
    {
        match self.schema.type_named(name) {
            Some(ExtendedType::Interface(_)) => !has_name(&self.implemented, name),
            _ => false,
        }
    }
}

/// The names of the interfaces that some object among these types implements.
fn implemented_interfaces(
    alloc: Global,
    types: &IndexMap<Name, ExtendedType>,
) -> Result<IndexSet<Name>, AllocError>
    ensures { IfOk result (λ names. (n : _) → is_noted names n ≡ is_implemented_among (entries_of name_text extended_type types.now) n) }
{
    let mut implemented = IndexSet::new(alloc);
    note_types(types, &mut implemented)?;
    Ok(implemented)
}

/// Adds the names of the interfaces that some object among these types implements.
fn note_types(
    types: &IndexMap<Name, ExtendedType>,
    implemented: &mut IndexSet<Name>,
) -> Result<(), AllocError>
    ensures { OnOk result (AddsNames implemented.old implemented.new (is_implemented_among (entries_of name_text extended_type types.now))) }
{
    for (_, ty) in types {
        note_type(ty, implemented)?;
    }
    Ok(())
}

/// Adds the names of the interfaces that the type lists, if it is an object.
fn note_type(ty: &ExtendedType, implemented: &mut IndexSet<Name>) -> Result<(), AllocError>
    ensures { OnOk result (AddsNames implemented.old implemented.new (is_implemented_by (extended_type ty.now))) }
{
    match ty {
        ExtendedType::Object(object) => {
            note_interfaces(
                object.content().implements_interfaces.as_slice(),
                implemented,
            )
        }
        _ => Ok(()),
    }
}

/// Adds the names of these interfaces.
fn note_interfaces(
    interfaces: &[ComponentName],
    implemented: &mut IndexSet<Name>,
) -> Result<(), AllocError>
    ensures { OnOk result (AddsNames implemented.old implemented.new (λ n. is_among n (map given_name (map component_name_tree interfaces.now)))) }
{
    for interface in interfaces {
        note_name(&interface.name, implemented)?;
    }
    Ok(())
}
