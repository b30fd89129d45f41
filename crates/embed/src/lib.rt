// The static library: every call for programs in C and Rust, on records, tables and answers that the caller lends as words.
// It rests on the calls' crates for every decision, on tables and functions, and on record_words for records and answers as words.
// It keeps nothing between calls.
// The suffix of each name is the layout's version, CLUNDIP_ABI in include/clundip.h. It is raised with every change of a layout, so that a
// program compiled for another layout does not link.
// Records, tables, slot and answer are parameters of their own everywhere: the C interface (include/clundip.h) hands them over apart.
#![tactic(auto)]

mod frames;
mod hypercalls;
mod registers;
mod slots;
