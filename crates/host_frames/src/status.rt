ghost use Rattle.std.specs.Prelude.{◌≡◌, ◌++◌, ℕ, length};
ghost use Rattle.commands.specs.State.{state, answered};
ghost use Rattle.commands.specs.Tests.{first_refusal, refusal_by};
ghost use Rattle.commands.specs.Command.{view, both_tables, length_tests, result_with, result_of};
ghost use Rattle.records.specs.declared.guest.Guest.{Guest};
ghost use Rattle.records.specs.declared.monitor.Monitor.{Monitor};
ghost use Rattle.host_frames.specs.Calls.{range_tests, cleared_command, cleared_of, access_command, host_access_of};

use answers::Answer;
use commands::{Decision, check, check_after};
use pairs::{FrameState, pair_of};
use tables::lengths_hold;
use words::FrameWord;

// The host confirms that a waiting frame was cleared, and the frame is the host's. It answers for any tables and frame number.
#[tactic(auto, using(commands::proofs::CommandLaws::applying, records::proofs::ChangeLaws::beyond), unfolding(crate::specs::Calls::cleared_of))]
pub fn cleared(frames: &mut [u32], map: &[u32], frame: u64) -> Answer
    ensures { (records : Monitor) → answered (state frames.new map.now records) result
        ≡ cleared_of frame (state frames.old map.now records) }
{
    decide_cleared(frames, map, frame).answer
}

// What cleared decides. It has no slot and looks at no record, so the equation holds with any. The frame table it changes.
#[tactic(auto, unfolding(words::specs::FrameWord::frame_bits))]
pub fn decide_cleared(frames: &mut [u32], map: &[u32], frame: u64) -> Decision
    ensures { (slot : ℕ) (guest : Guest) → result_with frames.new map.now result
        ≡ result_of (cleared_command frame) (view frames.old map.now slot guest) }
{
    if let Err(refusal) = range_admission(frames, map, frame) {
        return Decision::keep(refusal);
    }
    match pair_of(map, frames, frame) {
        FrameState::Damaged => Decision::keep(Answer::Damaged),
        FrameState::Host | FrameState::Owned { .. } => Decision::keep(Answer::NotWaiting),
        FrameState::Waiting => {
            let number = frame as usize;
            frames[number] = FrameWord::HOST;
            Decision::keep(Answer::Done(0))
        }
    }
}

// Whether the host may access a frame: 1 or 0. It answers for any tables and frame number.
#[tactic(auto, using(commands::proofs::CommandLaws::applying, records::proofs::ChangeLaws::beyond), unfolding(crate::specs::Calls::host_access_of))]
pub fn access(frames: &[u32], map: &[u32], frame: u64) -> Answer
    ensures { (records : Monitor) → answered (state frames.now map.now records) result
        ≡ host_access_of frame (state frames.now map.now records) }
{
    decide_access(frames, map, frame).answer
}

// What access decides. It has no slot and looks at no record, so the equation holds with any.
pub fn decide_access(frames: &[u32], map: &[u32], frame: u64) -> Decision
    ensures { (slot : ℕ) (guest : Guest) → result_with frames.now map.now result
        ≡ result_of (access_command frame) (view frames.now map.now slot guest) }
{
    if let Err(refusal) = range_admission(frames, map, frame) {
        return Decision::keep(refusal);
    }
    match pair_of(map, frames, frame) {
        FrameState::Damaged => Decision::keep(Answer::Damaged),
        FrameState::Host | FrameState::Owned { shared: true, .. } => {
            Decision::keep(Answer::Done(1))
        }
        FrameState::Waiting | FrameState::Owned { shared: false, .. } => {
            Decision::keep(Answer::Done(0))
        }
    }
}

// The tests before any word is looked at: the tables' lengths, a frame of the table.
fn range_admission(frames: &[u32], map: &[u32], frame: u64) -> Result<(), Answer>
    ensures { refusal_by result ≡ first_refusal (length_tests both_tables frames.now map.now ++ range_tests (length frames.now) frame) }
{
    let lengths = check(lengths_hold(frames.len(), map.len()), Answer::BadLength);
    check_after(lengths, (frame as usize) < frames.len(), Answer::OutOfRange)
}
