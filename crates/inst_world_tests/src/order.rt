//! Tests of steps that explain closed books: tables of books, with the number of steps.
mod books;
mod explained;
