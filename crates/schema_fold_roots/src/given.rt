//! All directives and roots that are given to the schema, repeated roots too.
ghost use Rattle.std.specs.Prelude.{◌≡◌, ◌++◌, [], map, OnOk};
ghost use Rattle.std.specs.List.{flat_map};
ghost use Rattle.schema_fold.specs.ListedView.{listed_view};
ghost use Rattle.schema_fold.specs.SchemaFold.{extends_schema};
ghost use Rattle.schema_fold_roots.specs.RootFold.{all_from, all_and, CollectsParts};
ghost use Rattle.schema_fold_roots.specs.RootsView.{all_of_schema};
ghost use Rattle.schema_fold_roots.specs.ListFoldSteps.{parts_at};

use crate::defined::schema_extension;
use graphql_names::Node;
use schema_components::{Component, ComponentOrigin};
use schema_fold::{NumberedDefinition, add_components};
use std::alloc::{AllocError, Global};
use tree_directives::{Directive, DirectiveList};
use tree_literals::NamedType;
use tree_operations::OperationType;

/// All directives and roots that are given to the schema, in order, repeated roots too.
pub(crate) struct SchemaComponents {
    pub(crate) directives: Vec<Component<Directive>>,
    pub(crate) roots: Vec<Component<(OperationType, NamedType)>>,
}

/// Drops both classes, here and not at each place where a `SchemaComponents` is dropped.
impl Drop for SchemaComponents {
    fn drop(self) {
        let SchemaComponents {
            directives: _,
            roots: _,
        } = self;
    }
}

impl SchemaComponents {
    /// Without components.
    pub(crate) fn new(alloc: Global) -> SchemaComponents
        ensures { all_of_schema result ≡ all_from [] }
    {
        SchemaComponents {
            directives: Vec::new(alloc),
            roots: Vec::new(alloc),
        }
    }

    /// Adds these directives and roots, with that origin.
    pub(crate) fn add(
        &mut self,
        origin: ComponentOrigin,
        directives: &DirectiveList,
        roots: &[Node<(OperationType, NamedType)>],
    ) -> Result<(), AllocError>
        ensures { OnOk result (all_of_schema self.new ≡ all_and (all_of_schema self.old) (parts_at origin directives.now roots.now)) }
    {
        add_components(&mut self.directives, origin, &directives.0)?;
        add_components(&mut self.roots, origin, roots)
    }

    /// Adds what each schema extension of the list gives, in order.
    pub(crate) fn add_extensions(&mut self, list: &[NumberedDefinition]) -> Result<(), AllocError>
        ensures { OnOk result (CollectsParts (all_of_schema self.old) (flat_map extends_schema (map listed_view list.now)) (all_of_schema self.new)) }
    {
        for listed in list {
            if let Some(parts) = schema_extension(&listed.definition) {
                self.add(listed.origin(), &parts.directives, &parts.root_operations)?;
            }
        }
        Ok(())
    }
}
