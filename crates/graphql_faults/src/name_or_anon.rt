//! Names, or what is said instead of one.
ghost use Rattle.std.specs.Prelude.{Some};
ghost use Rattle.std.specs.Option.{option_copied};
ghost use Rattle.graphql_faults.specs.Words.{name_or_anon};

use std::fmt;

/// The prefix, a space and the name in backticks; without a name, other words.
#[derive(Clone, Copy)]
pub struct NameOrAnon<'a, T> {
    pub name: Option<&'a T>,
    pub if_some_prefix: &'a str,
    pub if_none: &'a str,
}

impl<T: fmt::Display> fmt::Display for NameOrAnon<'_, T> {
    ghost output = { λ n. name_or_anon T.output n.if_some_prefix.now n.if_none.now (option_copied n.name) };

    fn fmt<W: fmt::Write>(&self, f: &mut fmt::Formatter<W>) -> fmt::Result {
        let NameOrAnon {
            name,
            if_some_prefix,
            if_none,
        } = *self;
        match name {
            Some(name) => write!(f, "{if_some_prefix} `{name}`"),
            None => fmt::Display::fmt(if_none, f),
        }
    }
}
