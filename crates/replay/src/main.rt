// Replays a trace from standard input to standard output. It may read more pieces than any log has. It rests on replay_stream for all of it.
#![tactic(auto)]

fn main(rt: HostRuntime) {
    replay_stream::replay(&mut rt.stdin(), &mut rt.stdout(), u64::MAX, &rt);
}
