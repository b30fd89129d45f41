// Logs that the gate replays beside the one of `replay`: each log that an argument names is replayed by itself, as replay does, to standard
// output. They are document 01's example, one of a legacy guest beside one with ranges, one for each sort of bad record, no input, and one of
// 5,047 records, which is longer than a piece. It rests on replay_stream, and on std for its arguments and files. It decides nothing.
#![tactic(auto)]

use std::rt::Files;
use std::{env, fs, io};

// Replays one log. Where it can't be opened, a message says why.
fn replay_file(rt: &(impl Files + Print + Eprint), path: &str) {
    match fs::open(rt, path) {
        Ok(mut log) => {
            replay_stream::replay(&mut log, &mut io::writer(rt), u64::MAX, rt);
        }
        Err(error) => {
            // Where the message can't be written either, the next log is replayed all the same.
            let _ = eprintln!(rt; "{path}: {error}");
        }
    }
}

fn main(rt: HostRuntime) -> io::Result<()> {
    for path in env::args(&rt)?.skip(1) {
        replay_file(&rt, path.as_str());
    }
    Ok(())
}
