//! What is told, and whether copies tell the same.

use fault_data::Fault;
use graphql_faults::{Details, DiagnosticData, DiagnosticList};
use row_files::{Answer, Lines, push_faults};
use std::alloc::{AllocError, Global};

/// Adds a line for each fault, in order. The status tells whether there is one, and before that whether the copy of one
/// differs.
pub(crate) fn push_in_order(alloc: Global, list: &DiagnosticList, answer: &mut Answer) {
    push_copies(alloc, list, answer);
    push_faults(list.iter().as_slice(), answer);
}

/// Adds to the status whether the copy of what breaks a rule differs.
pub(crate) fn push_copies(alloc: Global, list: &DiagnosticList, answer: &mut Answer) {
    for (_, details) in list.iter() {
        if let Details::Data(data) = details {
            if !is_copied(alloc, data) {
                answer.status.put("the copy of a fault is another: ");
            }
        }
    }
}

/// Whether the copy of the data equals them and tells the same.
fn is_copied(alloc: Global, data: &DiagnosticData) -> bool {
    match data.clone() {
        Ok(copy) => copy == *data && tell_the_same(alloc, &copy, data),
        Err(_) => false,
    }
}

/// Whether the data tell the same.
fn tell_the_same(alloc: Global, one: &DiagnosticData, other: &DiagnosticData) -> bool {
    let mut told = Lines::new(alloc);
    told.show(one);
    let mut other_told = Lines::new(alloc);
    other_told.show(other);
    told.as_str() == other_told.as_str()
}

/// Adds what is told of a number that is too large for Float, and of selections that are nested too deeply, which no text of
/// a row breaks: of a copy, and of the original. They are moved from another list.
pub(crate) fn push_never(alloc: Global, text: &str, answer: &mut Answer) -> Result<(), AllocError> {
    let mut told = DiagnosticList::new(alloc);
    tell_never(alloc, text, &mut told)?;
    let mut list = DiagnosticList::new(alloc);
    list.append(&mut told)?;
    push_in_order(alloc, &list, answer);
    Ok(())
}

/// Tells that the number is too large for Float, and that selections are nested too deeply.
fn tell_never(alloc: Global, text: &str, list: &mut DiagnosticList) -> Result<(), AllocError> {
    let value = String::from_str(alloc, text)?;
    tell_twice(DiagnosticData::FloatCoercionError { value }, list)?;
    tell_twice(DiagnosticData::RecursionError, list)
}

/// Tells the data twice, once by a copy.
fn tell_twice(data: DiagnosticData, list: &mut DiagnosticList) -> Result<(), AllocError> {
    let fault = Fault {
        location: None,
        data,
    };
    list.push_fault(fault.clone()?)?;
    list.push_fault(fault)
}
