//! What the schema definition folds to.
ghost use Rattle.std.specs.Prelude.{◌≡◌, ◌++◌, None, map, IfOk, OnOk};
ghost use Rattle.std.specs.Option.{option_map};
ghost use Rattle.graphql_names.specs.Node.{place, content};
ghost use Rattle.graphql_names.specs.Placed.{text_tree};
ghost use Rattle.schema_fold.specs.in_schema_types.TypeView.{schema_roots};
ghost use Rattle.schema_fold.specs.FaultView.{faults_of};
ghost use Rattle.schema_fold.specs.ListedView.{listed_view};
ghost use Rattle.schema_fold_roots.specs.ListFold.{parts_given, roots_from, implicit_parts, schema_from, schema_of, root_faults, IsFoldOf, TellsRoots};
ghost use Rattle.schema_fold_roots.specs.RootFold.{all_from, made_from};
ghost use Rattle.schema_fold_roots.specs.RootsView.{all_of_schema};
ghost use Rattle.schema_fold_roots.specs.ListFoldSteps.{defined_parts, defined_schema};

use crate::defined::first_schema;
use crate::given::SchemaComponents;
use crate::implicit::add_implicit_roots;
use crate::roots::keep_roots;
use graphql_names::{Node, NodeStr, SourceSpan};
use schema_components::{ComponentOrigin, DirectiveList};
use schema_fold::{BuildError, NumberedDefinition, SchemaDefinition, node_at};
use std::alloc::{AllocError, Global};
use std::mem;
use tree_input_types::SchemaDefinition as SchemaNode;
use tree_type_members::clone_description;

/// Folds the schema definition (section 3.3): the first one or, if there is none, the implicit roots; then each schema
/// extension, if the schema is defined. Tells each root that is not the first for its operation.
pub fn fold_schema(
    alloc: Global,
    list: &[NumberedDefinition],
    faults: &mut Vec<(Option<SourceSpan>, BuildError)>,
) -> Result<Node<SchemaDefinition>, AllocError>
    ensures folded { IfOk result (λ n. schema_roots n ≡ schema_of (map listed_view list.now)) }
    ensures faults { OnOk result (faults_of faults.new ≡ faults_of faults.old ++ root_faults (roots_from (parts_given (map listed_view list.now)))) }
    ensures is_fold { IfOk result (λ n. IsFoldOf (map listed_view list.now) (schema_roots n)) }
    ensures tells { OnOk result (TellsRoots (map listed_view list.now) (faults_of faults.old) (faults_of faults.new)) }
{
    // A second one is told by the rule on collisions, and gives nothing.
    match first_schema(list) {
        None => fold_implicit(alloc, list, faults),
        Some(defined) => fold_defined(alloc, defined, list, faults),
    }
}

/// Folds a schema definition and each schema extension of the list.
fn fold_defined(
    alloc: Global,
    defined: &Node<SchemaNode>,
    list: &[NumberedDefinition],
    faults: &mut Vec<(Option<SourceSpan>, BuildError)>,
) -> Result<Node<SchemaDefinition>, AllocError>
    ensures folded { IfOk result (λ n. schema_roots n ≡ defined_schema defined.now list.now) }
    ensures faults { OnOk result (faults_of faults.new ≡ faults_of faults.old ++ root_faults (roots_from (defined_parts (content defined.now) list.now))) }
{
    let mut all = collect_defined(alloc, defined.content(), list)?;
    let description = clone_description(&defined.content().description)?;
    make_schema(alloc, defined.location(), description, &mut all, faults)
}

/// Folds the implicit roots and, if there are any, each schema extension of the list.
fn fold_implicit(
    alloc: Global,
    list: &[NumberedDefinition],
    faults: &mut Vec<(Option<SourceSpan>, BuildError)>,
) -> Result<Node<SchemaDefinition>, AllocError>
    ensures folded { IfOk result (λ n. schema_roots n ≡ schema_from None None (implicit_parts (map listed_view list.now))) }
    ensures faults { OnOk result (faults_of faults.new ≡ faults_of faults.old ++ root_faults (roots_from (implicit_parts (map listed_view list.now)))) }
{
    let mut all = collect_implicit(alloc, list)?;
    make_schema(alloc, None, None, &mut all, faults)
}

/// What a schema definition and each schema extension of the list gives.
fn collect_defined(
    alloc: Global,
    defined: &SchemaNode,
    list: &[NumberedDefinition],
) -> Result<SchemaComponents, AllocError>
    ensures { IfOk result (λ all. all_of_schema all ≡ all_from (defined_parts defined.now list.now)) }
{
    let mut all = SchemaComponents::new(alloc);
    all.add(
        ComponentOrigin::Definition,
        &defined.directives,
        &defined.root_operations,
    )?;
    all.add_extensions(list)?;
    Ok(all)
}

/// The implicit roots and, if there are any, what each schema extension of the list gives.
fn collect_implicit(
    alloc: Global,
    list: &[NumberedDefinition],
) -> Result<SchemaComponents, AllocError>
    ensures { IfOk result (λ all. all_of_schema all ≡ all_from (implicit_parts (map listed_view list.now))) }
{
    let mut all = SchemaComponents::new(alloc);
    add_implicit_roots(alloc, list, &mut all.roots)?;
    // If so, the schema is not defined: its extensions are told as orphans, and give nothing.
    if all.roots.is_empty() {
        return Ok(all);
    }
    all.add_extensions(list)?;
    Ok(all)
}

/// The schema definition at that place that is made from these: the first root for each operation, and all applied
/// directives, which are taken.
fn make_schema(
    alloc: Global,
    location: Option<SourceSpan>,
    description: Option<NodeStr>,
    all: &mut SchemaComponents,
    faults: &mut Vec<(Option<SourceSpan>, BuildError)>,
) -> Result<Node<SchemaDefinition>, AllocError>
    ensures made { IfOk result (λ n. schema_roots n ≡ made_from location (option_map text_tree description) (all_of_schema all.old)) }
    ensures faults { OnOk result (faults_of faults.new ≡ faults_of faults.old ++ root_faults (all_of_schema all.old).roots) }
{
    let roots = keep_roots(&all.roots, faults)?;
    let made = SchemaDefinition {
        description,
        directives: DirectiveList(mem::replace(&mut all.directives, Vec::new(alloc))),
        query: roots.query,
        mutation: roots.mutation,
        subscription: roots.subscription,
    };
    Ok(node_at(alloc, location, made)?)
}
