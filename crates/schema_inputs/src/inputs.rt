//! What is known of many arguments or input fields that a schema defines, found by name.
ghost use Rattle.std.specs.Prelude.{◌≡◌, IfOk, IfSome, Some, slice_get};
ghost use Rattle.std.specs.Option.{option_map};
ghost use Rattle.graphql_names.specs.Placed.{node_tree};
ghost use Rattle.tree_directives.specs.DirectiveTree.{directive_definition_tree};
ghost use Rattle.tree_type_members.specs.TypeSystemTree.{field_definition_tree};
ghost use Rattle.schema_components.specs.Given.{component_tree};
ghost use Rattle.schema_components.specs.Names.{entries_of};
ghost use Rattle.schema_types.specs.Addresses.{under};
ghost use Rattle.schema_types.specs.TypeView.{extended_type, name_text};
ghost use Rattle.schema_inputs.specs.Inputs.{AreEach, AreKnown, AreKnownIfMany, IsKnownType, AreTypesOf, AreDirectivesOf, HasAt, IsOfDirective, IsOfField};

use crate::found::FoundType;
use crate::known::{KnownArguments, KnownType, known_directives, known_types};
use graphql_names::{Name, Node};
use indexmap::IndexMap;
use schema_components::Component;
use schema_types::ExtendedType;
use std::alloc::{AllocError, Global};
use tree_directives::DirectiveDefinition;
use tree_type_members::FieldDefinition;

/// What is known of the arguments of a field or a directive that takes many, and of the fields of an input object that has many
/// (sections 3.6.1, 3.10 and 3.13): the index of each name, and which are required. So the cost of a use depends on what it gives
/// and what it has to give, and not on all that is defined.
pub struct SchemaInputs {
    /// What is known of each type, by the type's index.
    pub(crate) types: Vec<KnownType>,
    /// What is known of the arguments of each directive, by the directive's index, if they are many.
    pub(crate) directives: Vec<Option<KnownArguments>>,
}

// Not derived: a derived drop is proved again in each crate that drops one.
impl Drop for SchemaInputs {
    fn drop(self) {
        let SchemaInputs {
            types: _,
            directives: _,
        } = self;
    }
}

impl SchemaInputs {
    /// What is known of a schema with these types and directives. Fails if memory runs out.
    pub fn new(
        alloc: Global,
        types: &IndexMap<Name, ExtendedType>,
        directives: &IndexMap<Name, Node<DirectiveDefinition>>,
    ) -> Result<SchemaInputs, AllocError>
        ensures types { IfOk result (AreTypesOf (entries_of name_text extended_type types.now)) }
        ensures directives { IfOk result (AreDirectivesOf (entries_of name_text (node_tree directive_definition_tree) directives.now)) }
    {
        let types = known_types(alloc, types)?;
        let directives = known_directives(alloc, directives)?;
        Ok(SchemaInputs { types, directives })
    }

    /// What is known of the arguments of the directive of that name.
    pub fn of_directive(
        &self,
        directives: &IndexMap<Name, Node<DirectiveDefinition>>,
        name: &Name,
    ) -> Option<&KnownArguments>
        requires { AreDirectivesOf (entries_of name_text (node_tree directive_definition_tree) directives.now) self.now }
        ensures { IfSome result (λ known. IsOfDirective (entries_of name_text (node_tree directive_definition_tree) directives.now) name.now.text known.now) }
    {
        match directives.get_full(name) {
            None => None,
            Some((index, _, _)) => arguments_at(&self.directives, index),
        }
    }

    /// What is known of the arguments of the field of that name on the type of that name.
    pub fn of_field(
        &self,
        types: &IndexMap<Name, ExtendedType>,
        parent: &Name,
        name: &Name,
    ) -> Option<&KnownArguments>
        requires { AreTypesOf (entries_of name_text extended_type types.now) self.now }
        ensures { IfSome result (λ known. IsOfField (entries_of name_text extended_type types.now) parent.now.text name.now.text known.now) }
    {
        match types.get_full(parent) {
            None => None,
            Some((index, _, ty)) => match type_at(&self.types, index) {
                None => None,
                Some(known) => known.of_field(ty, name),
            },
        }
    }

    /// The type of that name, with what is known of it.
    pub fn type_named<'a>(
        &'a self,
        types: &'a IndexMap<Name, ExtendedType>,
        name: &Name,
    ) -> Option<FoundType<'a>>
        requires { AreTypesOf (entries_of name_text extended_type types.now) self.now }
        ensures { option_map extended_type result ≡ under name.now.text (entries_of name_text extended_type types.now) }
    {
        match types.get_full(name) {
            None => None,
            Some((index, _, ty)) => Some(found(ty, type_at(&self.types, index))),
        }
    }
}

/// A type, with what is known of it, if anything is.
fn found<'a>(ty: &'a ExtendedType, known: Option<&'a KnownType>) -> FoundType<'a>
    requires { IfSome known (λ known. IsKnownType (extended_type ty.now) known.now) }
    ensures { result ≡ ty.now }
{
    match known {
        None => FoundType::plain(ty),
        Some(known) => FoundType::new(ty, known),
    }
}

/// What is known of the type at that index.
fn type_at(known: &[KnownType], index: usize) -> Option<&KnownType>
    ensures { IfSome result (λ r. slice_get known.now index ≡ Some r.now) }
{
    known.get(index)
}

/// What is known of the arguments at that index.
fn arguments_at(known: &[Option<KnownArguments>], index: usize) -> Option<&KnownArguments>
    ensures { IfSome result (λ r. slice_get known.now index ≡ Some (Some r.now)) }
{
    match known.get(index) {
        None => None,
        Some(arguments) => arguments.as_ref(),
    }
}

impl KnownType {
    /// What is known of the arguments of the field of that name of this type.
    fn of_field(&self, ty: &ExtendedType, name: &Name) -> Option<&KnownArguments>
        requires { IsKnownType (extended_type ty.now) self.now }
        ensures { IfSome result (λ known. HasAt (under name.now.text (extended_type ty.now).fields) (λ f. AreKnown f.it.it.arguments known.now)) }
    {
        match ty {
            ExtendedType::Object(own) => of_field(&self.arguments, &own.content().fields, name),
            ExtendedType::Interface(own) => of_field(&self.arguments, &own.content().fields, name),
            _ => None,
        }
    }
}

/// What is known of the arguments of the field of that name; `known` is what is known of all fields.
fn of_field<'a>(
    known: &'a [Option<KnownArguments>],
    fields: &IndexMap<Name, Component<FieldDefinition>>,
    name: &Name,
) -> Option<&'a KnownArguments>
    requires { AreEach (λ e arguments. AreKnownIfMany e.1.it.it.arguments arguments) (entries_of name_text (component_tree field_definition_tree) fields.now) known.now }
    ensures { IfSome result (λ r. HasAt (under name.now.text (entries_of name_text (component_tree field_definition_tree) fields.now)) (λ f. AreKnown f.it.it.arguments r.now)) }
{
    match fields.get_full(name) {
        None => None,
        Some((index, _, _)) => arguments_at(known, index),
    }
}
