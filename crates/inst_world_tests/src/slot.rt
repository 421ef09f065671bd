//! Tests of slots: worked rows on the slots of three participants over one plain board, with 2
//! places and 4 fundings each.
mod answers;
mod cases;
mod confirmations;
mod expiries;
mod histories;
mod openings;
mod places;
