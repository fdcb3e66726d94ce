//! Tokens.

/// The kinds of tokens (section 2.1.6). A keyword is a `Name`.
#[derive(Clone, Copy, PartialEq, Eq, Debug)]
pub enum TokenKind {
    Bang,
    Dollar,
    Ampersand,
    OpenParen,
    CloseParen,
    Spread,
    Colon,
    Equals,
    At,
    OpenBracket,
    CloseBracket,
    OpenBrace,
    Pipe,
    CloseBrace,
    Name,
    Int,
    Float,
    String,
    BlockString,
}

/// A token of a text.
#[derive(Clone, Copy, Debug)]
pub struct Token<'a> {
    pub kind: TokenKind,
    pub text: &'a str,
    /// Where the token begins in the whole text, in bytes.
    pub offset: usize,
}

/// What comes next in a text.
#[derive(Clone, Copy, Debug)]
pub enum NextToken<'a> {
    Token(Token<'a>),
    /// Nothing is left.
    End,
    /// No token starts at this offset, in bytes.
    NoToken(usize),
}
