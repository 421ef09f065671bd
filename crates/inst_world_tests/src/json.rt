//! Tests of reading lines of JSON, and of writing replies and steps.
mod breaking;
mod hub;
mod reading;
mod refusing;
mod scanning;
mod step_lines;
mod writing;
