//! Lists of items in words.
ghost use Rattle.std.specs.Prelude.{Some};
ghost use Rattle.std.specs.Fmt.{DisplaysOnOk};
ghost use Rattle.graphql_faults.specs.Words.{comma_separated, further_items, further_item};

use std::fmt;

/// Items in words, joined by `, `.
#[derive(Clone, Copy)]
pub struct CommaSeparated<'a, T>(pub &'a [T]);

impl<T: fmt::Display> fmt::Display for CommaSeparated<'_, T> {
    ghost output = { λ c. comma_separated T.output c.0.now };

    fn fmt<W: fmt::Write>(&self, f: &mut fmt::Formatter<W>) -> fmt::Result {
        match self.0.split_first() {
            None => Ok(()),
            Some((first, rest)) => {
                fmt::Display::fmt(first, f)?;
                fmt_further(rest, f)
            }
        }
    }
}

/// Items after others: each with `, ` before it.
fn fmt_further<T: fmt::Display, W: fmt::Write>(
    items: &[T],
    f: &mut fmt::Formatter<W>,
) -> fmt::Result
    ensures { DisplaysOnOk W.write_str_gives f.old result (further_items T.output items.now) f.new }
{
    for item in items {
        fmt_further_item(item, f)?;
    }
    Ok(())
}

/// An item after another, with `, ` before it.
fn fmt_further_item<T: fmt::Display, W: fmt::Write>(
    item: &T,
    f: &mut fmt::Formatter<W>,
) -> fmt::Result
    ensures { DisplaysOnOk W.write_str_gives f.old result (further_item T.output item.now) f.new }
{
    write!(f, ", {item}")
}
