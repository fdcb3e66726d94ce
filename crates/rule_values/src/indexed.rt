//! A schema, and what it defines of many input values.
ghost use Rattle.std.specs.Prelude.{◌≡◌, IfSome, Some};
ghost use Rattle.std.specs.Option.{option_map};
ghost use Rattle.graphql_names.specs.Node.{content};
ghost use Rattle.graphql_names.specs.Placed.{node_tree};
ghost use Rattle.tree_directives.specs.DirectiveTree.{directive_definition_tree};
ghost use Rattle.tree_type_members.specs.TypeSystemTree.{field_definition_tree};
ghost use Rattle.schema_components.specs.Given.{component_tree};
ghost use Rattle.graphql_schema.specs.SchemaOf.{schema_tree};
ghost use Rattle.graphql_schema.specs.LookUps.{IsFieldNamed};
ghost use Rattle.graphql_schema.specs.in_schema_types.Addresses.{directive_definition_at, type_at, under};
ghost use Rattle.graphql_schema.specs.in_schema_types.TypeView.{extended_type};
ghost use Rattle.schema_inputs.specs.Inputs.{AreKnown, AreInputsOf, HasAt};

use graphql_names::{Name, Node};
use graphql_schema::Schema;
use schema_components::Component;
use schema_inputs::{DefinedArguments, FEW, FoundType, KnownArguments, SchemaInputs};
use std::marker::Model;
use tree_directives::DirectiveDefinition;
use tree_type_members::FieldDefinition;

/// A schema, and what it defines of many input values, if that is there. Without it all that is defined is scanned at each use.
///
/// Contracts see it as the schema.
pub struct IndexedSchema<'a> {
    schema: &'a Schema,
    inputs: Option<&'a SchemaInputs>,
}

impl Drop for IndexedSchema<'_> {
    fn drop(self) {
        let IndexedSchema {
            schema: _,
            inputs: _,
        } = self;
    }
}

impl<'a> Model for IndexedSchema<'a> {
    ghost use Rattle.std.specs.Prelude.{IfSome};
    ghost use Rattle.std.specs.Coded.{codes};
    ghost use Rattle.graphql_schema.specs.contracts.schema.Schema as of_schema;
    ghost use Rattle.graphql_schema.specs.declared.schema.Schema.{Schema as Whole};
    ghost use Rattle.graphql_schema.specs.SchemaOf.{schema_tree};
    ghost use Rattle.schema_inputs.specs.Inputs.{AreInputsOf};

    ghost Value = { Whole };

    ghost coded = { Prim.hlevel (codes, of_schema.the_row.coded) };

    ghost view = { λ s. s.schema.now };

    ghost invariant = { λ s. IfSome s.inputs (λ inputs. AreInputsOf (schema_tree s.schema.now) inputs.now) };
}

/// A schema, by what it defines of many input values.
impl<'a> IndexedSchema<'a> {
    /// The schema, of which all that is defined is scanned at each use.
    pub fn plain(schema: &'a Schema) -> IndexedSchema<'a>
        ensures { result ≡ schema.now }
    {
        IndexedSchema {
            schema,
            inputs: None,
        }
    }

    /// The schema, with what it defines.
    pub fn new(schema: &'a Schema, inputs: &'a SchemaInputs) -> IndexedSchema<'a>
        requires { AreInputsOf (schema_tree schema.now) inputs.now }
        ensures { result ≡ schema.now }
    {
        IndexedSchema {
            schema,
            inputs: Some(inputs),
        }
    }

    /// The schema.
    pub fn schema(&self) -> &'a Schema
        ensures { result.now ≡ self.now }
    {
        self.schema
    }

    /// The type of that name, if there is one.
    pub(crate) fn type_named(&self, name: &Name) -> Option<FoundType<'a>>
        ensures { option_map extended_type result ≡ type_at (schema_tree self.now) name.now.text }
    {
        match self.inputs {
            None => plain_type(self.schema, name),
            Some(inputs) => inputs.type_named(&self.schema.types, name),
        }
    }

    /// The arguments of the directive of that name, which has that definition.
    pub fn arguments_of_directive<'b>(
        &'b self,
        name: &Name,
        definition: &'b Node<DirectiveDefinition>,
    ) -> DefinedArguments<'b>
        requires { directive_definition_at (schema_tree self.now) name.now.text ≡ Some (node_tree directive_definition_tree definition.now) }
        ensures { result ≡ (content definition.now).arguments.items }
    {
        let nodes = definition.content().arguments.as_slice();
        if nodes.len() <= FEW {
            return DefinedArguments::listed(nodes);
        }
        DefinedArguments::new(nodes, self.known_directive(name))
    }

    /// The arguments of the field of that name of the type of that name, which has that definition.
    pub fn arguments_of_field<'b>(
        &'b self,
        parent: &Name,
        name: &Name,
        definition: &'b Component<FieldDefinition>,
    ) -> DefinedArguments<'b>
        requires { IsFieldNamed (schema_tree self.now) parent.now.text name.now.text (component_tree field_definition_tree definition.now) }
        ensures { result ≡ (content definition.now.node).arguments.items }
    {
        let nodes = definition.node.content().arguments.as_slice();
        if nodes.len() <= FEW {
            return DefinedArguments::listed(nodes);
        }
        DefinedArguments::new(nodes, self.known_field(parent, name))
    }

    /// What is known of the arguments of the directive of that name, if they are many.
    fn known_directive(&self, name: &Name) -> Option<&'a KnownArguments>
        ensures { IfSome result (λ known. HasAt (directive_definition_at (schema_tree self.now) name.now.text) (λ d. AreKnown d.it.arguments known.now)) }
    {
        match self.inputs {
            None => None,
            Some(inputs) => inputs.of_directive(&self.schema.directive_definitions, name),
        }
    }

    /// What is known of the arguments of the field of that name of the type of that name, if they are many.
    fn known_field(&self, parent: &Name, name: &Name) -> Option<&'a KnownArguments>
        ensures { IfSome result (λ known. HasAt (type_at (schema_tree self.now) parent.now.text) (λ t. HasAt (under name.now.text t.fields) (λ f. AreKnown f.it.it.arguments known.now))) }
    {
        match self.inputs {
            None => None,
            Some(inputs) => inputs.of_field(&self.schema.types, parent, name),
        }
    }
}

/// The type of that name, without anything noted of its input values.
fn plain_type<'a>(schema: &'a Schema, name: &Name) -> Option<FoundType<'a>>
    ensures { option_map extended_type result ≡ type_at (schema_tree schema.now) name.now.text }
{
    match schema.type_named(name) {
        None => None,
        Some(ty) => Some(FoundType::plain(ty)),
    }
}
