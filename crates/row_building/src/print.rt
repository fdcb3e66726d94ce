//! Printed trees, and whether trees are writable.

use row_files::{
    Answer, Case, Lines, Plan, Problem, Tally, Way, compare, compare_cut, device, number,
};
use std::alloc::Global;
use tree_literals::{Cause, Serialize, Tree, WriteFault};

/// How a tree is laid out.
#[derive(Clone, Copy)]
pub(crate) enum Form {
    /// As `serialize` does it.
    Unsaid,
    OneLine,
    Prefix(&'static str),
}

/// The row's layout.
fn form_of(case: Case<'_>) -> Result<Form, Problem> {
    let Some(layout) = case.row.one("layout")? else {
        return Ok(Form::Unsaid);
    };
    match form_named(layout.value) {
        Some(form) => Ok(form),
        None => Err(layout.problem("there is no such layout")),
    }
}

/// The layout of this word.
pub(crate) fn form_named(word: &str) -> Option<Form> {
    let prefix = match word {
        "line" => return Some(Form::OneLine),
        "empty" => "",
        "one" => " ",
        "two" => "  ",
        "four" => "    ",
        "tab" => "\t",
        _ => return None,
    };
    Some(Form::Prefix(prefix))
}

/// The tree under its layout, starting at this level.
pub(crate) fn laid_out<'a, T: Tree>(tree: &'a T, form: Form, level: usize) -> Serialize<'a, T> {
    let layout = tree.serialize().initial_indent_level(level);
    match form {
        Form::Unsaid => layout,
        Form::OneLine => layout.no_indent(),
        Form::Prefix(prefix) => layout.indent_prefix(prefix),
    }
}

/// Judges what the row asks of this tree: what is printed of it, or whether it is writable.
pub(crate) fn judge_tree<T: Tree>(
    alloc: Global,
    case: Case<'_>,
    tree: &T,
    is_writable: bool,
    tally: &mut Tally,
) -> Result<(), Problem> {
    if case.call == "print" {
        return prints(alloc, case, tree, tally);
    }
    tally.answer.status.put(if is_writable {
        "0 writable"
    } else {
        "1 not writable"
    });
    compare(case, Way::whole("is_writable", &[], 0), tally)
}

/// Judges what is printed of the tree under the row's layout: by `Display`, and by `write_to` with each of its
/// plans.
fn prints<T: Tree>(
    alloc: Global,
    case: Case<'_>,
    tree: &T,
    tally: &mut Tally,
) -> Result<(), Problem> {
    let shown = laid_out(tree, form_of(case)?, number(case.row, "level", "0")?);
    if case.status == "0" {
        tally.answer.show("0", &shown);
        compare(case, Way::whole("print by Display", &[], 0), tally)?;
    }
    for plan in &case.given.plans {
        writes(alloc, case, shown, *plan, tally)?;
    }
    Ok(())
}

/// Judges the text by `write_to`, with this plan.
fn writes<T: Tree>(
    alloc: Global,
    case: Case<'_>,
    shown: Serialize<'_, T>,
    plan: Plan,
    tally: &mut Tally,
) -> Result<(), Problem> {
    write_by(shown, plan, &mut tally.answer);
    let way = Way {
        plan,
        ..Way::whole("print by write_to", &[], 0)
    };
    compare_cut(alloc, case, way, tally)
}

/// Writes the text with the plan, and adds the status of that.
fn write_by<T: Tree>(shown: Serialize<'_, T>, plan: Plan, answer: &mut Answer) {
    let mut writer = device(&mut answer.written, plan, plan.write);
    let written = shown.write_to(&mut writer);
    if writer.failed() == written.is_err() {
        push_written(written, &mut answer.status);
    } else {
        answer
            .status
            .put("the device tells otherwise than the answer");
    }
}

/// Adds the status of a text that is written.
fn push_written(written: Result<(), WriteFault>, status: &mut Lines) {
    let Err(WriteFault { cause, out }) = written else {
        return status.put("0");
    };
    let words = match cause {
        Cause::Writer => "3 output failed ",
        _ => "3 too long ",
    };
    status.show_between(words, &out, "");
}
