//! Comments and preprocessing tokens: a source cut into its pieces and its logical lines.
#![tactic(auto)]

mod class;
mod comment;
mod fault;
mod first;
mod lanes;
mod laws;
mod left;
mod lexed;
mod lexing;
mod number;
mod plain;
mod punctuator;
mod quote;
mod runs;
mod table;
mod token;
mod token_list;
mod whole;

pub use fault::LexFault;
pub use first::{First, first_piece};
pub use laws::{one_cut, some_cut};
pub use lexed::Lexed;
pub use lexing::tokens;
pub use plain::{
    Stretch, begins_with_hash, begins_with_line_end, pieces_end_with_lines, plain_stretch,
    white_front,
};
pub use token::{PieceKind, Token, TokenKind};
pub use token_list::Tokens;
pub use whole::{one_token, token_kind};
