use crate::lines::report;
use crate::uid::words;
use answers::Numbers;
use calls::Call;
use commands::Reply;
use functions::Registers;
use records::Monitor;
use std::io;

// W = 128 and F = 256, granules 0 to 64 private: 65 granules shared, then the one that is left.
pub(crate) fn share_of_65(rt: &impl Print) -> io::Result<()> {
    let mut frames = [0u32; 256];
    let mut map = [0u32; 1024];
    let monitor = guest(&mut frames, &mut map, 65);
    let first = share(monitor, &mut frames, &mut map, 0, 65);
    report(
        rt,
        "share 0x0 for 65",
        Numbers::from(first.answer),
        returned(0, 64, 0, 0),
    )?;
    let second = share(first.monitor, &mut frames, &mut map, 0x40000, 1);
    report(
        rt,
        "then share 0x40000 for 1",
        Numbers::from(second.answer),
        returned(0, 1, 0, 0),
    )
}

// W = 64 and F = 256: the UID that a guest is told, against the published text.
pub(crate) fn published_uid(rt: &impl Print) -> io::Result<()> {
    let mut frames = [0u32; 256];
    let mut map = [0u32; 512];
    let monitor = guest(&mut frames, &mut map, 0);
    let reply = hypercall(monitor, &mut frames, &mut map, 0x8600FF01, 0, 0);
    let w = words(b"28b46fb6-2ec5-11e9-a9ca-4b564d003a74");
    report(
        rt,
        "UID 28b46fb6-2ec5-11e9-a9ca-4b564d003a74",
        Numbers::from(reply.answer),
        returned(w[0], w[1], w[2], w[3]),
    )
}

// The records after a guest with ranges is created in slot 0, given this many private granules from 0 on, frame g at granule g, and run.
fn guest(frames: &mut [u32], map: &mut [u32], granules: u64) -> Monitor {
    let create = Call::Create { legacy: false };
    let created = create.perform(Monitor::fresh(), frames, map);
    let filled = (0..granules).fold(created.monitor, |monitor, g| {
        let donate = Call::Donate {
            slot: 0,
            frame: g,
            granule: g,
        };
        donate.perform(monitor, frames, map).monitor
    });
    let run = Call::Run { slot: 0 };
    run.perform(filled, frames, map).monitor
}

fn share(monitor: Monitor, frames: &mut [u32], map: &mut [u32], base: u64, count: u64) -> Reply {
    hypercall(monitor, frames, map, 0xC6000003, base, count)
}

// A hypercall of slot 0 with R3 zero.
fn hypercall(
    monitor: Monitor,
    frames: &mut [u32],
    map: &mut [u32],
    r0: u64,
    r1: u64,
    r2: u64,
) -> Reply {
    let registers = Registers { r0, r1, r2, r3: 0 };
    let call = Call::Hypercall { slot: 0, registers };
    call.perform(monitor, frames, map)
}

// Verdict 10 with R0 to R3.
fn returned(r0: u64, r1: u64, r2: u64, r3: u64) -> Numbers {
    Numbers {
        verdict: 10,
        v0: r0,
        v1: r1,
        v2: r2,
        v3: r3,
    }
}
