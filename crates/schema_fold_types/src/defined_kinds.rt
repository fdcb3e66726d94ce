//! What a list of definitions defines: for the built-in ones the kinds of their types, for the texts their index.
ghost use Rattle.std.specs.Prelude.{◌≡◌, ◌||◌, [], map, Option, IfOk, OnOk, is_some};
ghost use Rattle.schema_fold_index.specs.in_definitions.DefinitionTree.{definition_tree};
ghost use Rattle.schema_fold_index.specs.in_fold.NumberedDefinition.{definitions_of};
ghost use Rattle.schema_fold_index.specs.in_fold.ListedView.{listed_view};
ghost use Rattle.schema_fold_index.specs.in_fold.SchemaFold.{schema_here};
ghost use Rattle.schema_fold_types.specs.DefinedKinds.{seen_of, Sees, SeesType, kind_in, is_scalar_in, kind_seen, root_seen, schema_seen};
ghost use Rattle.schema_fold_types.specs.DefinedKindsView.{seen_view};
ghost use Rattle.schema_fold_types.specs.TextDefinitionsView.{own_view};

use graphql_names::Name;
use indexmap::IndexMap;
use schema_fold_index::{
    Definition, NumberedDefinition, Positions, TypeKind, insert_new, type_definition,
};
use std::alloc::{AllocError, Global};
use tree_operations::OperationType;

/// What is built in: the kind of the first type of each name, and whether there is a schema definition.
pub(crate) struct DefinedKinds {
    pub(crate) kinds: IndexMap<Name, TypeKind>,
    pub(crate) schema: bool,
}

/// Drops the names, here and not at each place where a `DefinedKinds` is dropped.
impl Drop for DefinedKinds {
    fn drop(self) {
        let DefinedKinds {
            kinds: _,
            schema: _,
        } = self;
    }
}

impl DefinedKinds {
    /// Without types and schema definition.
    pub(crate) fn new(alloc: Global) -> DefinedKinds
        ensures { seen_view result ≡ seen_of [] }
    {
        DefinedKinds {
            kinds: IndexMap::new(alloc),
            schema: false,
        }
    }

    /// What the list defines.
    pub(crate) fn of(alloc: Global, list: &[NumberedDefinition]) -> Result<DefinedKinds, AllocError>
        ensures { IfOk result (λ s. seen_view s ≡ seen_of (definitions_of (map listed_view list.now))) }
    {
        let mut seen = DefinedKinds::new(alloc);
        for listed in list {
            seen.add(&listed.definition)?;
        }
        Ok(seen)
    }

    /// Adds what the definition defines, after the others.
    pub(crate) fn add(&mut self, d: &Definition) -> Result<(), AllocError>
        ensures { OnOk result (Sees (seen_view self.old) (definition_tree d.now) (seen_view self.new)) }
    {
        self.schema |= is_schema_definition(d);
        match type_definition(d) {
            None => Ok(()),
            Some(t) => self.add_type(t.parts.name, t.parts.kind),
        }
    }

    /// Adds the kind of a type, if its name is new.
    fn add_type(&mut self, name: &Name, kind: TypeKind) -> Result<(), AllocError>
        ensures kinds { OnOk result (SeesType (seen_view self.old).kinds name.now.text kind (seen_view self.new).kinds) }
        ensures schema { self.new.schema ≡ self.old.schema }
    {
        if self.kinds.contains_key(name) {
            return Ok(());
        }
        insert_new(&mut self.kinds, name, kind)
    }

    /// The kind of the first type of that name, if there is one.
    pub(crate) fn kind(&self, name: &Name) -> Option<TypeKind>
        ensures { result ≡ kind_in (seen_view self.now) name.now.text }
    {
        match self.kinds.get(name) {
            None => None,
            Some(kind) => Some(*kind),
        }
    }

    /// Whether the first type of that name is a scalar.
    pub(crate) fn has_scalar(&self, name: &Name) -> bool
        ensures { result ≡ is_scalar_in (seen_view self.now) name.now.text }
    {
        match self.kind(name) {
            None => false,
            Some(kind) => kind.is(TypeKind::Scalar),
        }
    }
}

/// What the texts define: the types by name, and whether there is a schema definition.
#[derive(Clone, Copy)]
pub(crate) struct TextDefinitions<'a> {
    pub(crate) defined: &'a IndexMap<Name, Positions>,
    pub(crate) schema: bool,
}

impl<'a> TextDefinitions<'a> {
    /// The kind of the first type of that name, if there is one.
    pub(crate) fn kind(&self, name: &Name) -> Option<TypeKind>
        ensures { result ≡ kind_in (own_view self.now) name.now.text }
    {
        match self.defined.get(name) {
            None => None,
            Some(filed) => Some(filed.kind),
        }
    }
}

/// Whether it is a schema definition.
pub(crate) fn is_schema_definition(d: &Definition) -> bool
    ensures { result ≡ is_some (schema_here (definition_tree d.now)) }
{
    matches!(d, Definition::SchemaDefinition(_))
}

/// The kind of the first type of that name, the built-in ones first.
pub(crate) fn kind_of(
    built_in: &DefinedKinds,
    own: &TextDefinitions<'_>,
    name: &Name,
) -> Option<TypeKind>
    ensures { result ≡ kind_seen (seen_view built_in.now) (own_view own.now) name.now.text }
{
    match built_in.kind(name) {
        None => own.kind(name),
        Some(kind) => Some(kind),
    }
}

/// Whether an object has the default name of the operation's root (section 3.3.1).
fn has_default_root(
    built_in: &DefinedKinds,
    own: &TextDefinitions<'_>,
    operation: OperationType,
) -> bool
    ensures { result ≡ root_seen (seen_view built_in.now) (own_view own.now) operation }
{
    let name = Name::new_static_unchecked(operation.default_type_name());
    match kind_of(built_in, own, &name) {
        None => false,
        Some(kind) => kind.is(TypeKind::Object),
    }
}

/// Whether there is a schema definition or an implicit root.
pub(crate) fn schema_is_defined(built_in: &DefinedKinds, own: &TextDefinitions<'_>) -> bool
    ensures { result ≡ schema_seen (seen_view built_in.now) (own_view own.now) }
{
    built_in.schema
        || own.schema
        || has_default_root(built_in, own, OperationType::Query)
        || has_default_root(built_in, own, OperationType::Mutation)
        || has_default_root(built_in, own, OperationType::Subscription)
}
