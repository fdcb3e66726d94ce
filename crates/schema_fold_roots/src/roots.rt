//! The first root of each operation.
ghost use Rattle.std.specs.Prelude.{◌≡◌, ◌++◌, [], ◌∷◌, IfOk, OnOk, is_some};
ghost use Rattle.schema_components.specs.Given.{component_name_tree};
ghost use Rattle.schema_fold.specs.BuildErrors.{DuplicateRootOperation};
ghost use Rattle.schema_fold.specs.FaultView.{faults_of};
ghost use Rattle.schema_fold_roots.specs.ListFold.{root_faults};
ghost use Rattle.schema_fold_roots.specs.RootFold.{root_for, with_root, first_roots};
ghost use Rattle.schema_fold_roots.specs.RootsView.{root_names, roots_given_by};
ghost use Rattle.schema_fold_roots.specs.ListFoldSteps.{KeepsRootGiven};

use graphql_names::SourceSpan;
use schema_components::{Component, ComponentName};
use schema_fold::{BuildError, tell};
use std::alloc::AllocError;
use tree_literals::NamedType;
use tree_operations::OperationType;

/// The roots that are kept.
#[derive(Drop)]
pub(crate) struct Roots {
    pub(crate) query: Option<ComponentName>,
    pub(crate) mutation: Option<ComponentName>,
    pub(crate) subscription: Option<ComponentName>,
}

impl Roots {
    /// Whether the operation has a root.
    fn has(&self, operation: OperationType) -> bool
        ensures { result ≡ is_some (root_for operation (root_names self.now)) }
    {
        match operation {
            OperationType::Query => self.query.is_some(),
            OperationType::Mutation => self.mutation.is_some(),
            OperationType::Subscription => self.subscription.is_some(),
        }
    }

    /// Sets the root of an operation.
    fn set(&mut self, operation: OperationType, root: ComponentName)
        ensures { root_names self.new ≡ with_root operation (component_name_tree root) (root_names self.old) }
    {
        match operation {
            OperationType::Query => self.query = Some(root),
            OperationType::Mutation => self.mutation = Some(root),
            OperationType::Subscription => self.subscription = Some(root),
        }
    }
}

/// Keeps the first root for each operation, and tells the others.
pub(crate) fn keep_roots(
    all: &[Component<(OperationType, NamedType)>],
    faults: &mut Vec<(Option<SourceSpan>, BuildError)>,
) -> Result<Roots, AllocError>
    ensures kept { IfOk result (λ r. root_names r ≡ first_roots (roots_given_by all.now)) }
    ensures faults { OnOk result (faults_of faults.new ≡ faults_of faults.old ++ root_faults (roots_given_by all.now)) }
{
    let mut kept = Roots {
        query: None,
        mutation: None,
        subscription: None,
    };
    for root in all {
        keep_root(&mut kept, root, faults)?;
    }
    Ok(kept)
}

/// Keeps a root after those before it, or tells that its operation has one.
fn keep_root(
    kept: &mut Roots,
    root: &Component<(OperationType, NamedType)>,
    faults: &mut Vec<(Option<SourceSpan>, BuildError)>,
) -> Result<(), AllocError>
    ensures { OnOk result (KeepsRootGiven root.now kept.old faults.old kept.new faults.new) }
{
    let (operation, name) = root.node.content();
    if kept.has(*operation) {
        return duplicate_root_operation(*operation, root.node.location(), faults);
    }
    let name = name.clone()?;
    kept.set(*operation, ComponentName::new(root.origin, name));
    Ok(())
}

/// DuplicateRootOperation: a schema is valid only if it gives each operation at most one root (section 3.3.1). This one is
/// told: it comes after another.
fn duplicate_root_operation(
    operation_type: OperationType,
    location: Option<SourceSpan>,
    faults: &mut Vec<(Option<SourceSpan>, BuildError)>,
) -> Result<(), AllocError>
    ensures { OnOk result (faults_of faults.new ≡ faults_of faults.old ++ record { place = location; breach = DuplicateRootOperation operation_type } ∷ []) }
{
    tell(
        faults,
        location,
        BuildError::DuplicateRootOperation { operation_type },
    )
}
