//! Tokens and pieces of which texts are made: what blanks part in a line, what a byte parts in a text, what single tokens
//! stand for, and how numbers and sets are written. The definitions are in model_text/specs (Cut, Token, CapText, NameText,
//! Hex).
#![tactic(auto)]

mod cap_text;
mod digits;
mod name_rules;
mod numbers;
mod pieces;
mod tokens;

pub use cap_text::read_cap_text;
pub use digits::{hex_value, take_digit};
pub use name_rules::{is_name, is_path};
pub use numbers::{put, put_decimal, put_hex2, put_hex16, put_id};
pub use pieces::first_piece;
pub use tokens::{
    begins_comment, is_blank, next_token, read_cap, read_id, read_number, read_pid, read_word,
    stands_for_equals, token_len,
};

#[cfg(test)]
mod tests;
