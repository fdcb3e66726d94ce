//! The terminal symbols of the grammar.

/// A terminal symbol of the grammar (appendix B): a punctuator, a keyword, or a class of tokens.
///
/// A Name token is the keyword that its text spells, where there is one, and else `Name`; wherever the grammar
/// takes a Name it takes these keywords too. The twenty names of directive locations (section 3.13) are one
/// class, `Location`.
#[derive(Clone, Copy, PartialEq, Eq, Debug)]
pub enum Terminal {
    Bang,
    Dollar,
    Ampersand,
    OpenParen,
    CloseParen,
    Spread,
    Colon,
    Equals,
    At,
    OpenBracket,
    CloseBracket,
    OpenBrace,
    Pipe,
    CloseBrace,
    Int,
    Float,
    String,
    BlockString,
    Name,
    Query,
    Mutation,
    Subscription,
    Fragment,
    On,
    True,
    False,
    Null,
    Extend,
    Schema,
    Scalar,
    Type,
    Interface,
    Union,
    Enum,
    Input,
    Directive,
    Implements,
    Repeatable,
    Location,
}
