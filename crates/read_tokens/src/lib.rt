//! Tokens of GraphQL texts, and what the string tokens mean.
//!
//! [`next_token`] gives the token after an offset. [`TokenCursor`] is a cursor for parsers: it shows the terminal symbols
//! that are left of a text, and cuts each token when it comes. [`string_value`] and [`block_value`] give what a string
//! stands for, [`plain_string`] and [`plain_block`] where that is in the string's own text, if it is a part of it.
//! The rules of tokens are in `specs/Tokens`, texts and their lists of tokens in `specs/Lex`, what a cursor shows in
//! `specs/Input` and `specs/Cursor`.
//!
//! Begin with `specs/Tokens.antt` and `specs/Lex.antt`, then `next.rt` and `token_cursor.rt`.
#![tactic(auto)]

mod block_lines;
pub mod laws;
mod lex;
mod name;
mod next;
mod number;
mod plain;
mod raw;
mod search;
mod string_token;
mod strings;
mod terminal;
mod terminals;
mod token;
mod token_cursor;
mod value;

pub use next::next_token;
pub use plain::{plain_block, plain_string};
pub use strings::{block_value, string_value};
pub use terminal::Terminal;
pub use terminals::terminal_of;
pub use token::{NextToken, Token, TokenKind};
pub use token_cursor::TokenCursor;
