//! What a row gives to its call, and the output that it wants.

use crate::escape::push_bytes;
use crate::plan::Plan;
use crate::plans::push_plans;
use crate::problem::Problem;
use crate::row_file::{Field, Row};
use crate::settings::push_numbers;
use std::alloc::Global;

/// What a row gives to its call, and the output that it wants.
pub struct Given {
    pub schemas: Vec<Vec<u8>>,
    pub documents: Vec<Vec<u8>>,
    pub inputs: Vec<Vec<u8>>,
    /// What each input is to print on one line, if not itself.
    pub flat: Vec<Vec<u8>>,
    /// The limits of nesting.
    pub limits: Vec<usize>,
    /// Numbers of bytes a call.
    pub steps: Vec<usize>,
    /// Where devices end.
    pub plans: Vec<Plan>,
    /// The output.
    pub out: Vec<u8>,
}

impl Drop for Given {
    fn drop(self) {
        let Given {
            schemas: _,
            documents: _,
            inputs: _,
            flat: _,
            limits: _,
            steps: _,
            plans: _,
            out: _,
        } = self;
    }
}

impl Given {
    /// Nothing is given.
    pub fn new(alloc: Global) -> Given {
        Given {
            schemas: Vec::new(alloc),
            documents: Vec::new(alloc),
            inputs: Vec::new(alloc),
            flat: Vec::new(alloc),
            limits: Vec::new(alloc),
            steps: Vec::new(alloc),
            plans: Vec::new(alloc),
            out: Vec::new(alloc),
        }
    }

    /// Adds what the row gives and the output that it wants.
    pub fn add(&mut self, alloc: Global, row: Row<'_>) -> Result<(), Problem> {
        self.add_fields(alloc, row)?;
        push_numbers(row, "nesting", "500", &mut self.limits)?;
        push_numbers(row, "step", "most", &mut self.steps)?;
        push_plans(row, &self.steps, self.out.len(), &mut self.plans)
    }

    /// Adds the row's own fields, and those in common that it does not have itself.
    fn add_fields(&mut self, alloc: Global, row: Row<'_>) -> Result<(), Problem> {
        for field in row.own {
            self.add_field(alloc, *field)?;
        }
        for field in row.common {
            if !row.has(field.name) {
                self.add_field(alloc, *field)?;
            }
        }
        Ok(())
    }

    /// Adds what the field gives, if that is a text: of the output each `line` with an LF, and each `text`
    /// unchanged.
    fn add_field(&mut self, alloc: Global, field: Field<'_>) -> Result<(), Problem> {
        match field.name {
            "schema" => push_text(alloc, field, &mut self.schemas),
            "document" => push_text(alloc, field, &mut self.documents),
            "input" => push_text(alloc, field, &mut self.inputs),
            "flat" => push_text(alloc, field, &mut self.flat),
            "text" => push_bytes(field, &mut self.out),
            "line" => push_line(field, &mut self.out),
            _ => Ok(()),
        }
    }

    /// The number of the first text after the schema texts, which are numbered from 1.
    pub fn next_file(&self) -> u64 {
        (self.schemas.len() as u64).wrapping_add(1)
    }
}

/// Adds the text that the field stands for.
fn push_text(alloc: Global, field: Field<'_>, list: &mut Vec<Vec<u8>>) -> Result<(), Problem> {
    let mut text = Vec::new(alloc);
    push_bytes(field, &mut text)?;
    Ok(list.push(text)?)
}

/// Adds the bytes that the field stands for, and an LF.
fn push_line(field: Field<'_>, out: &mut Vec<u8>) -> Result<(), Problem> {
    push_bytes(field, out)?;
    Ok(out.push(b'\n')?)
}
