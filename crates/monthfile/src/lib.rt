// The month file read (paper 01, "The month file", refusals 11 and 12).
//   names     the names of each block, as bytes
//   cursor    a place in a text, and what is passed from there on
//   scanner   the verdict on a file: each byte passed once, block by block
//   check     the file check, over files on end
//   reading   the values of a file: a line, the lines of a block
//   points    one file judged and read into lent slices
//   reader    the same by a record that holds text and position
#![tactic(auto)]

pub mod check;
mod cursor;
mod names;
pub mod points;
pub mod reader;
pub mod reading;
mod scanner;
