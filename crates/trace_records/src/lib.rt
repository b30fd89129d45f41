// The records of a trace: what the first bytes of a log mean.
// It rests on trace_kinds for the kinds of records, on calls for what one asks for, and on runs for its worked cases. It makes no call, and
// keeps nothing.
#![tactic(auto)]

mod decoding;
mod fields;

pub use decoding::{BadRecord, Record, decode};
