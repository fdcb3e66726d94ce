//! Rules on the root operations (section 3.3.1).
ghost use Rattle.std.specs.Prelude.{◌≡◌, OnOk};
ghost use Rattle.graphql_names.specs.Placed.{name_tree};
ghost use Rattle.schema_types.specs.TypeView.{schema_roots};
ghost use Rattle.rule_types.specs.Adds.{AddsThese};
ghost use Rattle.rule_types.specs.FaultLists.{query_root_operation_type, root_operation_object_type, duplicate_root_operation_type, is_same_root, subscription_again, repeated_roots, root_faults, roots_faults};
ghost use Rattle.rule_types.specs.Trees.{schema_of, root_tree};

use crate::look_ups::kind_named;
use crate::rule_context::RuleContext;
use crate::types_used::undefined_name;
use fault_data::{DiagnosticData, Fault, tell};
use graphql_names::{Name, Node};
use schema_components::ComponentName;
use schema_types::{SchemaDefinition, TypeKind};
use std::alloc::AllocError;
use tree_operations::OperationType;

/// Tells the faults of the roots.
#[tactic(auto, using(crate::proofs::RoomSteps::room_steps))]
pub(crate) fn check_roots(
    judging: &RuleContext<'_>,
    faults: &mut Vec<Fault>,
) -> Result<(), AllocError>
    ensures { OnOk result (AddsThese faults.old faults.new (roots_faults (schema_of judging.now))) }
{
    let definition = &judging.schema.schema_definition;
    let roots = definition.content();
    query_root_operation_type(definition, faults)?;
    check_root(judging, &roots.query, faults)?;
    check_root(judging, &roots.mutation, faults)?;
    check_root(judging, &roots.subscription, faults)?;
    check_repeats(definition, faults)
}

/// Tells the faults of a root, if it is defined.
#[tactic(auto, using(crate::proofs::RoomSteps::room_steps))]
fn check_root(
    judging: &RuleContext<'_>,
    root: &Option<ComponentName>,
    faults: &mut Vec<Fault>,
) -> Result<(), AllocError>
    ensures { OnOk result (AddsThese faults.old faults.new (root_faults (schema_of judging.now) (root_tree root.now))) }
{
    match root {
        None => Ok(()),
        Some(root) => {
            let kind = kind_named(judging, &root.name);
            undefined_name(&root.name, kind, faults)?;
            root_operation_object_type(&root.name, kind, faults)
        }
    }
}

/// Tells each root whose type an earlier root has.
#[tactic(auto, using(crate::proofs::RoomSteps::room_steps))]
fn check_repeats(
    definition: &Node<SchemaDefinition>,
    faults: &mut Vec<Fault>,
) -> Result<(), AllocError>
    ensures { OnOk result (AddsThese faults.old faults.new (repeated_roots (schema_roots definition.now))) }
{
    let roots = definition.content();
    duplicate_root_operation_type(
        OperationType::Query,
        &roots.query,
        OperationType::Mutation,
        &roots.mutation,
        faults,
    )?;
    check_subscription(definition, faults)
}

/// QueryRootOperationType: a schema is valid only if it has a root for queries (section 3.3.1).
fn query_root_operation_type(
    definition: &Node<SchemaDefinition>,
    faults: &mut Vec<Fault>,
) -> Result<(), AllocError>
    ensures { OnOk result (AddsThese faults.old faults.new (query_root_operation_type (schema_roots definition.now))) }
{
    match &definition.content().query {
        Some(_) => Ok(()),
        None => tell(
            faults,
            Some(Fault {
                location: definition.location(),
                data: DiagnosticData::QueryRootOperationType,
            }),
        ),
    }
}

/// RootOperationObjectType: a root is valid only if its type is an object type (section 3.3.1).
fn root_operation_object_type(
    root: &Name,
    kind: Option<TypeKind>,
    faults: &mut Vec<Fault>,
) -> Result<(), AllocError>
    ensures { OnOk result (AddsThese faults.old faults.new (root_operation_object_type (name_tree root.now) kind)) }
{
    match kind {
        None => Ok(()),
        Some(kind) => {
            if kind.is(TypeKind::Object) {
                return Ok(());
            }
            tell(
                faults,
                Some(Fault {
                    location: root.location(),
                    data: DiagnosticData::RootOperationObjectType {
                        name: root.clone()?,
                        describe_type: kind.describe(),
                    },
                }),
            )
        }
    }
}

/// DuplicateRootOperationType: a schema is valid only if its roots have different types (section 3.3.1). Told of the later
/// of two.
fn duplicate_root_operation_type(
    original_operation: OperationType,
    original: &Option<ComponentName>,
    redefined_operation: OperationType,
    redefined: &Option<ComponentName>,
    faults: &mut Vec<Fault>,
) -> Result<(), AllocError>
    ensures { OnOk result (AddsThese faults.old faults.new (duplicate_root_operation_type original_operation original.now redefined_operation redefined.now)) }
{
    match (original, redefined) {
        (Some(original), Some(redefined)) => {
            if redefined.name.as_str() != original.name.as_str() {
                return Ok(());
            }
            let name = redefined.name.clone()?;
            tell(
                faults,
                Some(Fault {
                    location: redefined.name.location(),
                    data: DiagnosticData::DuplicateRootOperationType {
                        name,
                        original_operation,
                        original_definition: original.name.location(),
                        redefined_operation,
                        redefined_definition: redefined.name.location(),
                    },
                }),
            )
        }
        _ => Ok(()),
    }
}

/// Tells the root of subscriptions, if it has the type of that of queries, or else that of mutations.
fn check_subscription(
    definition: &Node<SchemaDefinition>,
    faults: &mut Vec<Fault>,
) -> Result<(), AllocError>
    ensures { OnOk result (AddsThese faults.old faults.new (subscription_again (schema_roots definition.now))) }
{
    let roots = definition.content();
    // If all three roots have one type, two faults are told and not three.
    if is_same_root(&roots.query, &roots.subscription) {
        return duplicate_root_operation_type(
            OperationType::Query,
            &roots.query,
            OperationType::Subscription,
            &roots.subscription,
            faults,
        );
    }
    duplicate_root_operation_type(
        OperationType::Mutation,
        &roots.mutation,
        OperationType::Subscription,
        &roots.subscription,
        faults,
    )
}

/// Whether both roots are defined and have the same type.
fn is_same_root(a: &Option<ComponentName>, b: &Option<ComponentName>) -> bool
    ensures { result ≡ is_same_root (root_tree a.now) (root_tree b.now) }
{
    match (a, b) {
        (Some(a), Some(b)) => b.name.as_str() == a.name.as_str(),
        _ => false,
    }
}
