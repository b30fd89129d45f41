// The guest records as words that a caller lends, an answer as five, and, in specs/Lent.antt, what a call leaves of what is lent to it.
// It rests on records, answers and commands. It makes no call and looks at no table.
#![tactic(auto)]

mod replies;
mod slots;

pub use replies::{put_answer, put_decision};
pub use slots::{ALL_RECORDS_WORDS, guest_in, monitor_in, put_change};
