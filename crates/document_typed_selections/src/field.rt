//! Making fields, and queries on them.
ghost use Rattle.std.specs.Prelude.{◌≡◌, [], ◌∷◌, map, IfOk, None, Some};
ghost use Rattle.std.specs.Option.{option_map, option_copied};
ghost use Rattle.graphql_names.specs.Placed.{name_tree, node_tree};
ghost use Rattle.tree_literals.specs.TypeTree.{type_tree};
ghost use Rattle.tree_literals.specs.ValueTree.{value_tree};
ghost use Rattle.tree_directives.specs.DirectiveTree.{argument_tree, directive_tree};
ghost use Rattle.tree_directives.specs.DirectiveQueries.{given_value, named_argument_value, lent_value};
ghost use Rattle.tree_definitions.specs.in_operations.SelectionParts.{response_name_of};
ghost use Rattle.tree_definitions.specs.in_type_members.TypeSystemTree.{field_definition_tree};
ghost use Rattle.document_typed_selections.specs.TypedTree.{no_typed, typed_then, typed_selection_tree, typed_selections};
ghost use Rattle.document_typed_selections.specs.TypedParts.{typed_head, own_definition, typed_field, bare_field, new_argument, aliased, and_arguments, and_directives, and_selections};

use crate::selection::{Field, Selection, SelectionSet};
use graphql_names::{Name, Node};
use std::alloc::{AllocError, Global};
use tree_definitions::FieldDefinition;
use tree_directives::{Argument, ArgumentByNameError, Directive, DirectiveList};
use tree_literals::{Type, Value};

#[tactic(auto, using(crate::proofs::TypedTrees::added_rules))]
impl Field {
    /// A field with that name and definition; its set is empty, on the inner type of the definition.
    pub fn new(
        alloc: Global,
        name: Name,
        definition: Node<FieldDefinition>,
    ) -> Result<Field, AllocError>
        ensures { IfOk result (λ f. typed_field None f ≡ bare_field (name_tree name) (node_tree field_definition_tree definition)) }
    {
        let ty = definition.content().ty.inner_named_type().clone()?;
        Ok(Field {
            definition,
            alias: None,
            name,
            arguments: Vec::new(alloc),
            directives: DirectiveList::new(alloc),
            selection_set: SelectionSet::new(alloc, ty),
        })
    }

    /// The same with this alias.
    pub fn with_alias(self, alias: Name) -> Field
        ensures { typed_field None result ≡ aliased (Some (name_tree alias)) (typed_field None self) }
    {
        self.with_opt_alias(Some(alias))
    }

    /// The same with this alias, or with none.
    pub fn with_opt_alias(self, alias: Option<Name>) -> Field
        ensures { typed_field None result ≡ aliased (option_map name_tree alias) (typed_field None self) }
    {
        let mut field = self;
        field.alias = alias;
        field
    }

    /// The same with a further argument.
    pub fn with_argument(self, name: Name, value: Node<Value>) -> Result<Field, AllocError>
        ensures { IfOk result (λ f. typed_field None f ≡ and_arguments (new_argument (name_tree name) (node_tree value_tree value) ∷ []) (typed_field None self)) }
    {
        // The allocator is that of the field's own list, as the call is given none.
        let argument = Node::new(*self.arguments.allocator(), Argument { name, value })?;
        self.and_argument(argument)
    }

    fn and_argument(self, argument: Node<Argument>) -> Result<Field, AllocError>
        ensures { IfOk result (λ f. typed_field None f ≡ and_arguments (node_tree argument_tree argument ∷ []) (typed_field None self)) }
    {
        let mut field = self;
        field.arguments.push(argument)?;
        Ok(field)
    }

    /// The same with further arguments.
    pub fn with_arguments(self, arguments: Vec<Node<Argument>>) -> Result<Field, AllocError>
        ensures { IfOk result (λ f. typed_field None f ≡ and_arguments (map (node_tree argument_tree) arguments.items) (typed_field None self)) }
    {
        let mut field = self;
        let mut further = arguments;
        field.arguments.append(&mut further)?;
        Ok(field)
    }

    /// The same with a further directive.
    pub fn with_directive(self, directive: Node<Directive>) -> Result<Field, AllocError>
        ensures { IfOk result (λ f. typed_field None f ≡ and_directives (node_tree directive_tree directive ∷ []) (typed_field None self)) }
    {
        let mut field = self;
        field.directives.push(directive)?;
        Ok(field)
    }

    /// The same with further directives.
    pub fn with_directives(self, directives: Vec<Node<Directive>>) -> Result<Field, AllocError>
        ensures { IfOk result (λ f. typed_field None f ≡ and_directives (map (node_tree directive_tree) directives.items) (typed_field None self)) }
    {
        let mut field = self;
        let mut further = directives;
        field.directives.0.append(&mut further)?;
        Ok(field)
    }

    /// The same with a further selection in its set.
    pub fn with_selection(self, selection: Selection) -> Result<Field, AllocError>
        ensures { IfOk result (λ f. typed_field None f ≡ and_selections (typed_then (typed_selection_tree selection) no_typed) (typed_field None self)) }
    {
        let mut field = self;
        field.selection_set.push(selection)?;
        Ok(field)
    }

    /// The same with further selections in its set.
    pub fn with_selections(self, selections: Vec<Selection>) -> Result<Field, AllocError>
        ensures { IfOk result (λ f. typed_field None f ≡ and_selections (typed_selections typed_selection_tree selections.items) (typed_field None self)) }
    {
        let mut field = self;
        field.selection_set.extend(selections)?;
        Ok(field)
    }

    /// The alias, else the name (section 2.7).
    pub fn response_key(&self) -> &Name
        ensures { name_tree result.now ≡ response_name_of (typed_head self.now) }
    {
        match &self.alias {
            Some(alias) => alias,
            None => &self.name,
        }
    }

    /// The type by the definition.
    pub fn ty(&self) -> &Type
        ensures { type_tree result.now ≡ (own_definition self.now).it.ty }
    {
        &self.definition.content().ty
    }

    /// The value given for the argument of that name, if one is.
    pub fn specified_argument_by_name(&self, name: &str) -> Option<&Node<Value>>
        ensures { option_map (node_tree value_tree) (option_copied result) ≡ given_value name.now (typed_head self.now).arguments }
    {
        for argument in &self.arguments {
            if argument.content().name.as_str() == name {
                return Some(&argument.content().value);
            }
        }
        None
    }

    /// The value of the argument of that name: the one given, whatever the definition. Else the default in the field's
    /// definition, or `None` if the type is nullable, an implicit null. Else the error `NoSuchArgument` if the
    /// definition has no such argument, `RequiredArgumentNotSpecified` if it is non-null (section 5.4.2.1).
    #[tactic(auto, using(crate::proofs::TypedTrees::argument_named_find))]
    pub fn argument_by_name(&self, name: &str) -> Result<Option<&Node<Value>>, ArgumentByNameError>
        ensures { lent_value result ≡ named_argument_value name.now (typed_head self.now).arguments (Some (own_definition self.now).it.arguments) }
    {
        if let Some(value) = self.specified_argument_by_name(name) {
            return Ok(Some(value));
        }
        let Some(argument) = self.definition.content().argument_by_name(name) else {
            return Err(ArgumentByNameError::NoSuchArgument);
        };
        argument.content().default_or_null()
    }
}
