//! Where values are expected, and by what they are judged.
ghost use Rattle.std.specs.Prelude.{◌≡◌};
ghost use Rattle.tree_directives.specs.DirectiveTree.{input_value_tree, unplaced_input_value};
ghost use Rattle.rule_definitions.specs.Names.{named_in};
ghost use Rattle.strict_documents.specs.Locations.{argument_location, field_location, item_location};
ghost use Rattle.strict_documents.specs.Given.{location_of};

use graphql_names::Name;
use rule_values::{DefinedVariables, IndexedSchema};
use tree_directives::InputValueDefinition;
use tree_literals::Type;

/// Where a value is expected.
#[derive(Clone, Copy)]
pub struct Location<'a> {
    pub ty: &'a Type,
    pub has_default: bool,
    pub is_argument: bool,
    pub is_item: bool,
}

impl<'a> Location<'a> {
    /// That of an argument of that definition.
    pub fn of_argument(definition: &'a InputValueDefinition) -> Location<'a>
        ensures { location_of result ≡ argument_location (unplaced_input_value (input_value_tree definition.now)) }
    {
        Location {
            ty: definition.ty.content(),
            has_default: definition.default_value.is_some(),
            is_argument: true,
            is_item: false,
        }
    }

    /// That of a field of an input object.
    pub(crate) fn of_field(definition: &'a InputValueDefinition) -> Location<'a>
        ensures { location_of result ≡ field_location (unplaced_input_value (input_value_tree definition.now)) }
    {
        Location {
            ty: definition.ty.content(),
            has_default: definition.default_value.is_some(),
            is_argument: false,
            is_item: false,
        }
    }

    /// The name inside all brackets of its type.
    pub(crate) fn inner_name(self) -> &'a Name
        ensures { result.now.text ≡ named_in (location_of self.entry).ty }
    {
        self.ty.inner_named_type()
    }

    /// That of the items of a list that is given for this one.
    pub(crate) fn of_item(self) -> Location<'a>
        ensures { location_of result ≡ item_location (location_of self.entry) }
    {
        Location {
            ty: self.ty.item_type(),
            has_default: false,
            is_argument: false,
            is_item: true,
        }
    }
}

/// By what values are judged: the schema, and the variables of an operation.
#[derive(Clone, Copy)]
pub struct Strictness<'a> {
    pub schema: &'a IndexedSchema<'a>,
    pub variables: &'a DefinedVariables<'a>,
}
