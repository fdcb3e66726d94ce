//! Names written in a program.

/// `name!("text")` or `name!(text)`, a [`Name`](crate::Name) of a text of the program without a place. The check proves at
/// each call that the text is a Name token. It takes no memory.
#[macro_export]
macro_rules! name {
    ($text:literal) => {
        $crate::Name::new_static_unchecked($text)
    };
    ($text:ident) => {
        $crate::Name::new_static_unchecked(stringify!($text))
    };
}
