//! Typing of the definitions of a document.
ghost use Rattle.std.specs.Prelude.{◌≡◌, [], map, Option, None, IfOk, OnOk, nat_lt, length};
ghost use Rattle.std.specs.List.{filter};
ghost use Rattle.graphql_names.specs.Node.{content};
ghost use Rattle.graphql_names.specs.Placed.{Place};
ghost use Rattle.tree_definitions.specs.DefinitionTree.{definition_tree};
ghost use Rattle.schema_types.specs.SchemaTree.{SchemaTree};
ghost use Rattle.document_typed_selections.specs.TypedTree.{typed_set_tree};
ghost use Rattle.document_typing.specs.DocumentView.{operation_meant};
ghost use Rattle.document_typing.specs.KeptDocument.{is_operation};
ghost use Rattle.document_typing.specs.TypedDefinitions.{is_known, and_definition, typed_in};
ghost use Rattle.document_typing.specs.StepsView.{fragment_meaning, typed_view, kept_tree, meant_on_root, faults_on_root, meant_on_condition, faults_on_condition, own_name, TellsName, AddsOperation, AddsFragment, StaysDefined};
ghost use Rattle.document_typing.specs.Telling.{schema_for, meanings_for, Tells};
ghost use Rattle.document_typing.specs.DefinedByPlace.{IsDefinedSet, IsDefinedDocument};

use crate::definition_rules::{
    ambiguous_anonymous_operation, fragment_name_collision, operation_name_collision,
    type_system_definition, undefined_root_operation,
    undefined_type_in_named_fragment_type_condition,
};
use crate::look_ups::{has_type, root_of};
use crate::selections::type_set;
use crate::typing::Typing;
use document_typed_operations::{Fragment, FragmentMap, Operation, OperationMap};
use fault_document_errors::BuildError;
use graphql_names::{Name, Node, SourceSpan};
use std::alloc::{AllocError, Global};
use tree_definitions::Definition;
use tree_literals::{copies_of_three, copies_of_two};
use tree_operations::{FragmentDefinition, OperationDefinition};

/// What is kept of the definitions so far, and the faults that are told of them.
#[derive(Drop)]
pub(crate) struct TypedDocument {
    pub(crate) operations: OperationMap,
    pub(crate) fragments: FragmentMap,
    pub(crate) faults: Vec<(Option<SourceSpan>, BuildError)>,
}

/// Whether it is an operation.
fn is_operation(definition: &Definition) -> bool
    ensures { result ≡ is_operation (definition_tree definition.now) }
{
    matches!(definition, Definition::OperationDefinition(_))
}

/// Whether there are two operations or more.
// A loop: `filter` and `count` would cost more to prove.
fn has_two_operations(definitions: &[Definition]) -> bool
    ensures { result ≡ nat_lt 1 (length (filter is_operation (map definition_tree definitions.now))) }
{
    let mut seen = false;
    for definition in definitions {
        if is_operation(definition) {
            if seen {
                return true;
            }
            seen = true;
        }
    }
    false
}

/// The operation with its meaning, on this root. It shares variables and directives with the tree.
fn typed_operation(
    typing: &Typing<'_>,
    root: &Name,
    operation: &Node<OperationDefinition>,
    faults: &mut Vec<(Option<SourceSpan>, BuildError)>,
) -> Result<Node<Operation>, AllocError>
    ensures kept { IfOk result (λ n. operation_meant n ≡ meant_on_root typing.now.schema root.now operation.now) }
    ensures defined { IfOk result (λ n. IsDefinedSet (schema_for typing.now) (typed_set_tree (content n).selection_set)) }
    ensures faults { OnOk result (Tells faults.old faults.new (faults_on_root typing.now.schema root.now operation.now)) }
{
    let tree = operation.content();
    let set = type_set(typing, root, &tree.selection_set, faults)?;
    // One `?` for the three copies: each `?` is proved to drop all that is owned before it.
    let (name, variables, directives) = copies_of_three(
        &tree.name,
        &tree.variables,
        &tree.directives,
    )?;
    let typed = Operation {
        operation_type: tree.operation_type,
        name,
        variables,
        directives,
        selection_set: set,
    };
    Ok(operation.same_location(typing.alloc, typed)?)
}

/// The fragment with its meaning, on the type of its condition. It shares directives with the tree.
fn typed_fragment(
    typing: &Typing<'_>,
    fragment: &Node<FragmentDefinition>,
    faults: &mut Vec<(Option<SourceSpan>, BuildError)>,
) -> Result<Node<Fragment>, AllocError>
    ensures kept { IfOk result (λ n. fragment_meaning n ≡ meant_on_condition typing.now.schema fragment.now) }
    ensures defined { IfOk result (λ n. IsDefinedSet (schema_for typing.now) (typed_set_tree (content n).selection_set)) }
    ensures faults { OnOk result (Tells faults.old faults.new (faults_on_condition typing.now.schema fragment.now)) }
{
    let tree = fragment.content();
    let set = type_set(typing, &tree.type_condition, &tree.selection_set, faults)?;
    let (name, directives) = copies_of_two(&tree.name, &tree.directives)?;
    let typed = Fragment {
        name,
        directives,
        selection_set: set,
    };
    Ok(fragment.same_location(typing.alloc, typed)?)
}

impl TypedDocument {
    /// No definitions.
    fn new(alloc: Global) -> TypedDocument
        ensures view { typed_view result ≡ record { document = record { anonymous = None; named = []; fragments = [] }; faults = [] } }
        ensures defined { (s : Option (SchemaTree Place)) → IsDefinedDocument s (kept_tree result) }
    {
        TypedDocument {
            operations: OperationMap::new(alloc),
            fragments: FragmentMap::new(alloc),
            faults: Vec::new(alloc),
        }
    }

    /// Tells if the name of an operation breaks a rule, or if it has none although there are other operations. Returns whether
    /// a kept operation has the same name, or also has none.
    fn check_name(
        &mut self,
        beside: bool,
        operation: &Node<OperationDefinition>,
    ) -> Result<bool, AllocError>
        ensures known { IfOk result (λ b. b ≡ is_known (own_name operation.now) (typed_view self.old)) }
        ensures kept { kept_tree self.new ≡ kept_tree self.old }
        ensures faults { OnOk result (TellsName beside operation.now self.old self.new) }
    {
        let location = operation.location();
        match &operation.content().name {
            None => {
                if beside {
                    ambiguous_anonymous_operation(location, &mut self.faults)?;
                }
                // If several have no name, each is told, and the first is kept.
                Ok(self.operations.anonymous.is_some())
            }
            Some(name) => {
                let is_known = self.operations.named.contains_key(name);
                operation_name_collision(is_known, location, name, &mut self.faults)?;
                Ok(is_known)
            }
        }
    }

    /// Adds an operation; `beside` says whether there are others. It is kept on its root (section 3.3.1) if it is the
    /// first of its name, or the first without one.
    fn add_operation(
        &mut self,
        typing: &Typing<'_>,
        beside: bool,
        operation: &Node<OperationDefinition>,
    ) -> Result<(), AllocError>
        ensures view { OnOk result (AddsOperation typing.now.schema beside operation.now self.old self.new) }
        ensures defined { OnOk result (StaysDefined (schema_for typing.now) self.old self.new) }
    {
        let operation_type = operation.content().operation_type;
        let is_known = self.check_name(beside, operation)?;
        let Some(root) = root_of(typing.schema, operation_type)? else {
            // Without a root there is no type to select on, so its selections are not judged.
            return undefined_root_operation(operation.location(), operation_type, &mut self.faults);
        };
        // It is not kept, so its selections are not judged.
        if is_known {
            return Ok(());
        }
        let typed = typed_operation(typing, &root, operation, &mut self.faults)?;
        self.operations.insert(typed)?;
        Ok(())
    }

    /// Adds a fragment. It is kept on its condition if it is the first of its name.
    fn add_fragment(
        &mut self,
        typing: &Typing<'_>,
        fragment: &Node<FragmentDefinition>,
    ) -> Result<(), AllocError>
        ensures view { OnOk result (AddsFragment typing.now.schema fragment.now self.old self.new) }
        ensures defined { OnOk result (StaysDefined (schema_for typing.now) self.old self.new) }
    {
        let name = &fragment.content().name;
        let condition = &fragment.content().type_condition;
        let location = fragment.location();
        let is_known = self.fragments.contains_key(name);
        fragment_name_collision(is_known, location, name, &mut self.faults)?;
        // Without that type no selection of the fragment has a meaning.
        if !has_type(typing.schema, condition) {
            return undefined_type_in_named_fragment_type_condition(
                location,
                condition,
                &mut self.faults,
            );
        }
        if is_known {
            return Ok(());
        }
        let typed = typed_fragment(typing, fragment, &mut self.faults)?;
        self.fragments.insert(name.clone()?, typed)?;
        Ok(())
    }

    /// Adds a definition.
    fn add(
        &mut self,
        typing: &Typing<'_>,
        beside: bool,
        definition: &Definition,
    ) -> Result<(), AllocError>
        ensures view { OnOk result (typed_view self.new ≡ and_definition (meanings_for typing.now) beside (typed_view self.old) (definition_tree definition.now)) }
        ensures defined { OnOk result (StaysDefined (schema_for typing.now) self.old self.new) }
    {
        match definition {
            Definition::OperationDefinition(operation) => {
                self.add_operation(typing, beside, operation)
            }
            Definition::FragmentDefinition(fragment) => { self.add_fragment(typing, fragment) }
            _ => type_system_definition(definition.location(), &mut self.faults),
        }
    }
}

/// What is kept and told of these definitions.
pub(crate) fn type_document(
    typing: &Typing<'_>,
    definitions: &[Definition],
) -> Result<TypedDocument, AllocError>
    ensures view { IfOk result (λ t. typed_view t ≡ typed_in (meanings_for typing.now) (map definition_tree definitions.now)) }
    ensures defined { IfOk result (λ t. IsDefinedDocument (schema_for typing.now) (kept_tree t)) }
{
    // This comes before the first is added, which is told too if it has no name and another follows.
    let beside = has_two_operations(definitions);
    let mut typed = TypedDocument::new(typing.alloc);
    for definition in definitions {
        typed.add(typing, beside, definition)?;
    }
    Ok(typed)
}
