//! What the definitions of directives fold to.
ghost use Rattle.std.specs.Prelude.{◌≡◌, ◌++◌, ◌∷◌, [], None, map, option_copied, IfOk, OnOk};
ghost use Rattle.std.specs.Option.{option_map};
ghost use Rattle.indexmap.specs.IndexMap.{get};
ghost use Rattle.schema_components.specs.Names.{same_text};
ghost use Rattle.schema_fold.specs.in_schema_types.TypeView.{name_text};
ghost use Rattle.schema_fold.specs.in_definitions.DefinitionTree.{definition_tree};
ghost use Rattle.schema_fold.specs.NumberedDefinition.{directive_here, directive_name, directives_in, definitions_of};
ghost use Rattle.schema_fold.specs.Components.{keyed_firsts};
ghost use Rattle.schema_fold.specs.Fold.{folded_directives};
ghost use Rattle.schema_fold.specs.FaultView.{faults_of};
ghost use Rattle.schema_fold.specs.BuildErrors.{DirectiveDefinitionCollision};
ghost use Rattle.schema_fold.specs.ListedView.{listed_view};
ghost use Rattle.schema_fold_roots.specs.DirectiveFold.{directive_faults, chosen_of, chosen_firsts, Chooses, TellsDirectives};
ghost use Rattle.schema_fold_roots.specs.DirectivesView.{directive_view, entries_view};
ghost use Rattle.schema_fold_roots.specs.ListFoldSteps.{directives_listed, KeepsDirective};

use graphql_names::{Name, Node, SourceSpan};
use indexmap::IndexMap;
use schema_fold::{BuildError, Definition, NumberedDefinition, insert_new, tell};
use std::alloc::{AllocError, Global};
use tree_directives::DirectiveDefinition;

/// Folds the definitions of directives (section 3.13): the first of each name in the texts, which replaces
/// a built-in one of its name, and the other built-in ones. Tells each that is not the first of its name in the texts.
pub fn fold_directives(
    alloc: Global,
    built_in: &[NumberedDefinition],
    texts: &[NumberedDefinition],
    faults: &mut Vec<(Option<SourceSpan>, BuildError)>,
) -> Result<IndexMap<Name, Node<DirectiveDefinition>>, AllocError>
    ensures folded { IfOk result (λ m. entries_view m ≡ folded_directives (definitions_of (map listed_view built_in.now)) (definitions_of (map listed_view texts.now))) }
    ensures faults { OnOk result (faults_of faults.new ≡ faults_of faults.old ++ directive_faults (directives_in (definitions_of (map listed_view texts.now)))) }
    ensures tells { OnOk result (TellsDirectives (definitions_of (map listed_view built_in.now)) (definitions_of (map listed_view texts.now)) (faults_of faults.old) (faults_of faults.new)) }
{
    let own = keep_directives(alloc, texts, faults)?;
    choose_directives(alloc, &own, built_in, texts)
}

/// Chooses a definition for each name of what is built in and of the texts.
// It owns the map of chosen definitions, its caller the map of the texts: a function with two owned maps costs more to prove.
fn choose_directives(
    alloc: Global,
    own: &IndexMap<Name, Node<DirectiveDefinition>>,
    built_in: &[NumberedDefinition],
    texts: &[NumberedDefinition],
) -> Result<IndexMap<Name, Node<DirectiveDefinition>>, AllocError>
    ensures { IfOk result (λ m. entries_view m ≡ chosen_firsts (entries_view own.now) (directives_listed built_in.now ++ directives_listed texts.now)) }
{
    let mut chosen = IndexMap::new(alloc);
    choose_all(own, built_in, &mut chosen)?;
    choose_all(own, texts, &mut chosen)?;
    Ok(chosen)
}

/// The definition of a directive, if the definition is one.
fn directive_definition(d: &Definition) -> Option<&Node<DirectiveDefinition>>
    ensures { option_map directive_view (option_copied result) ≡ directive_here (definition_tree d.now) }
{
    match d {
        Definition::DirectiveDefinition(node) => Some(node),
        _ => None,
    }
}

/// Keeps the first definition of each name, and tells the others.
fn keep_directives(
    alloc: Global,
    list: &[NumberedDefinition],
    faults: &mut Vec<(Option<SourceSpan>, BuildError)>,
) -> Result<IndexMap<Name, Node<DirectiveDefinition>>, AllocError>
    ensures kept { IfOk result (λ m. entries_view m ≡ keyed_firsts directive_name (directives_in (definitions_of (map listed_view list.now)))) }
    ensures faults { OnOk result (faults_of faults.new ≡ faults_of faults.old ++ directive_faults (directives_in (definitions_of (map listed_view list.now)))) }
{
    let mut kept = IndexMap::new(alloc);
    for listed in list {
        if let Some(node) = directive_definition(&listed.definition) {
            keep_directive(&mut kept, node, faults)?;
        }
    }
    Ok(kept)
}

/// Keeps a definition after those before it, or tells that an earlier one has its name.
fn keep_directive(
    kept: &mut IndexMap<Name, Node<DirectiveDefinition>>,
    node: &Node<DirectiveDefinition>,
    faults: &mut Vec<(Option<SourceSpan>, BuildError)>,
) -> Result<(), AllocError>
    ensures { OnOk result (KeepsDirective (directive_view node.now) kept.old faults.old kept.new faults.new) }
{
    let name = &node.content().name;
    if kept.contains_key(name) {
        return directive_definition_collision(name, node.location(), faults);
    }
    insert_directive(kept, name, node)
}

/// DirectiveDefinitionCollision: a directive definition is valid only if no earlier one has its name (section 3.13). This
/// definition is told, which has that of an earlier one.
fn directive_definition_collision(
    name: &Name,
    location: Option<SourceSpan>,
    faults: &mut Vec<(Option<SourceSpan>, BuildError)>,
) -> Result<(), AllocError>
    ensures { OnOk result (faults_of faults.new ≡ faults_of faults.old ++ record { place = location; breach = DirectiveDefinitionCollision name.now.text } ∷ []) }
{
    let name = name.clone()?;
    tell(
        faults,
        location,
        BuildError::DirectiveDefinitionCollision { name },
    )
}

/// Inserts a definition, shared, under a name that no other has.
fn insert_directive(
    kept: &mut IndexMap<Name, Node<DirectiveDefinition>>,
    name: &Name,
    node: &Node<DirectiveDefinition>,
) -> Result<(), AllocError>
    requires { get (same_text name_text) kept.old name.now ≡ None }
    ensures { OnOk result (entries_view kept.new ≡ entries_view kept.old ++ (name.now.text, directive_view node.now) ∷ []) }
{
    let shared = node.clone()?;
    insert_new(kept, name, shared)
}

/// Chooses a definition for each new name of the list.
fn choose_all(
    own: &IndexMap<Name, Node<DirectiveDefinition>>,
    list: &[NumberedDefinition],
    chosen: &mut IndexMap<Name, Node<DirectiveDefinition>>,
) -> Result<(), AllocError>
    ensures { OnOk result (Chooses (entries_view own.now) (directives_listed list.now) (entries_view chosen.old) (entries_view chosen.new)) }
{
    for listed in list {
        if let Some(node) = directive_definition(&listed.definition) {
            choose(own, node, chosen)?;
        }
    }
    Ok(())
}

/// Chooses a definition for the name of this one, if the name is new: that of the texts, or else this one.
fn choose(
    own: &IndexMap<Name, Node<DirectiveDefinition>>,
    node: &Node<DirectiveDefinition>,
    chosen: &mut IndexMap<Name, Node<DirectiveDefinition>>,
) -> Result<(), AllocError>
    ensures { OnOk result (Chooses (entries_view own.now) (directive_view node.now ∷ []) (entries_view chosen.old) (entries_view chosen.new)) }
{
    let name = &node.content().name;
    if chosen.contains_key(name) {
        return Ok(());
    }
    insert_directive(chosen, name, own_or(own, node))
}

/// The definition of the texts of that name, or else this one.
fn own_or<'a>(
    own: &'a IndexMap<Name, Node<DirectiveDefinition>>,
    node: &'a Node<DirectiveDefinition>,
) -> &'a Node<DirectiveDefinition>
    ensures { directive_view result.now ≡ chosen_of (entries_view own.now) (directive_view node.now) }
{
    match own.get(&node.content().name) {
        Some(own) => own,
        None => node,
    }
}
