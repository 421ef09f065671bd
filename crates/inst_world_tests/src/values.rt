//! Tests of values: amounts, settings, statement lines, words, boards, deadlines and bytes.
mod boards;
mod bounds;
mod bytes;
mod deadlines;
mod faults;
mod settings;
mod statement_lines;
mod words;
