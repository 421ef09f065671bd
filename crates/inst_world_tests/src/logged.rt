//! Tests of a hub with a log: runs that are cut after each line, or stop at each call to the disk,
//! and are resumed; replies that are written again; lines of each length; files that are refused; a
//! reader that fails; logs that begin with books; logs of both versions; damaged logs; a file that
//! another program changes.
mod audits;
mod changes;
mod changing;
mod cuts;
mod damage;
mod digests;
mod errors;
mod failing;
mod headers;
pub(crate) mod keeping;
mod lengths;
mod openings;
mod refusals;
mod stops;
mod telling;
mod vector;
mod versions;
