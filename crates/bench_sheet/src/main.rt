// The cases of document 01's bench sheet that are run and compared, and the published UID, through the real calls.
// It rests on calls for the calls, on functions, records, commands and answers for their arguments and answers, and on std to write a line a
// case. It runs and compares, and states nothing of the calls.
#![tactic(auto)]

mod cases;
mod lines;
mod uid;

use std::io;

fn main(rt: HostRuntime) -> io::Result<()> {
    cases::share_of_65(&rt)?;
    cases::published_uid(&rt)
}
