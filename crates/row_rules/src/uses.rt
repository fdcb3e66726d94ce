//! Rows of directives, arguments, variables and values by themselves, and of types that fields of interfaces ask for.

use crate::copies::push_in_order;
use crate::given::{arguments_of, asked_for, first_argument, location_of, row_type, type_of};
use crate::judged::Judged;
use crate::rules::Rules;
use graphql_faults::DiagnosticList;
use graphql_names::{FileId, Node};
use row_building::{Schema, document_of, schema_under};
use row_files::{Answer, Problem, text_of};
use tree_definitions::{Definition, Document};
use tree_operations::OperationDefinition;

/// Adds what the call answers to an input, which is a type or begins with an operation.
pub(crate) fn push_use<R: Rules>(
    judged: &Judged<'_, R>,
    schema: &Schema,
    input: &[u8],
    answer: &mut Answer,
) -> Result<(), Problem> {
    let case = judged.case;
    if case.call == "covariant" || case.call == "assignable" {
        return push_covariant(judged, schema, text_of(case, input)?, answer);
    }
    let file = FileId(case.given.next_file());
    let given = document_of(judged.alloc, case, input, file)?;
    push_faults_of(judged, schema, &given.document, answer)
}

/// Adds whether a field of this type serves where an interface has one of the row's type; or a variable, if that is asked
/// for.
fn push_covariant<R: Rules>(
    judged: &Judged<'_, R>,
    schema: &Schema,
    text: &str,
    answer: &mut Answer,
) -> Result<(), Problem> {
    let wanted = row_type(judged.alloc, judged.case)?;
    let given = type_of(judged.alloc, judged.case, text)?;
    let serves = if judged.case.call == "assignable" {
        given.is_assignable_to(&wanted)
    } else {
        judged.rules.serves(schema, &wanted, &given)
    };
    answer.status.put(if serves { "0 yes" } else { "0 no" });
    Ok(())
}

/// Adds what the call tells of the document's first definition, an operation: a line for each fault.
fn push_faults_of<R: Rules>(
    judged: &Judged<'_, R>,
    schema: &Schema,
    document: &Document,
    answer: &mut Answer,
) -> Result<(), Problem> {
    let Some(Definition::OperationDefinition(node)) = document.definitions.first() else {
        let head = judged.case.row.head;
        return Err(head.problem("an input begins with no operation"));
    };
    let mut list = DiagnosticList::new(judged.alloc);
    tell(judged, schema, node.content(), &mut list)?;
    push_in_order(judged.alloc, &list, answer);
    Ok(())
}

/// Tells what the call finds in the operation.
fn tell<R: Rules>(
    judged: &Judged<'_, R>,
    schema: &Schema,
    operation: &OperationDefinition,
    list: &mut DiagnosticList,
) -> Result<(), Problem> {
    match judged.case.call {
        "directives" => tell_directives(judged, schema, operation, list),
        "arguments" => {
            let arguments = arguments_of(judged.case, operation)?;
            Ok(judged.rules.arguments(arguments, list)?)
        }
        "usage" => tell_usage(judged, schema, operation, list),
        _ => tell_value(judged, schema, operation, list),
    }
}

/// Tells what is wrong with the operation's directives at the row's location.
fn tell_directives<R: Rules>(
    judged: &Judged<'_, R>,
    schema: &Schema,
    operation: &OperationDefinition,
    list: &mut DiagnosticList,
) -> Result<(), Problem> {
    let location = location_of(judged.case)?;
    let schema = schema_under(judged.case, schema)?;
    let rules = judged.rules;
    Ok(rules.directives(schema, operation, location, list)?)
}

/// Tells whether the variable that the operation's first field is given may be used where the schema asks for one.
fn tell_usage<R: Rules>(
    judged: &Judged<'_, R>,
    schema: &Schema,
    operation: &OperationDefinition,
    list: &mut DiagnosticList,
) -> Result<(), Problem> {
    let definition = asked_for(judged.case, schema)?;
    let argument = first_argument(judged.case, operation)?;
    let rules = judged.rules;
    let fits = rules.usage(definition, operation, argument, list)?;
    if fits == list.is_empty() {
        Ok(())
    } else {
        let head = judged.case.row.head;
        Err(head.problem("the call answers otherwise than it tells"))
    }
}

/// Tells what is wrong with the value that the operation's first field is given, against the row's type.
fn tell_value<R: Rules>(
    judged: &Judged<'_, R>,
    schema: &Schema,
    operation: &OperationDefinition,
    list: &mut DiagnosticList,
) -> Result<(), Problem> {
    let value = &first_argument(judged.case, operation)?.content().value;
    let ty = row_type(judged.alloc, judged.case)?;
    let ty = Node::new(judged.alloc, ty)?;
    let rules = judged.rules;
    Ok(rules.value(schema, (&ty, value), operation, list)?)
}
