// Runs the tasks on standard input, for bench/check, bench/prune and bench/join to time, and prints one line that
// depends on every answer and every output (src/tally.rt says of what).
#![tactic(auto)]

mod calls;
mod tally;
mod task;

use std::io::Read;
use tally::Tally;
use task::{PARTS, ROOM, Task};

// What an output holds before a task.
const FILL: u8 = 165;

fn main(rt: HostRuntime) {
    let mut parts = [0; PARTS];
    let mut out = [0; ROOM];
    let tally = run(&mut rt.reader(), &mut parts, &mut out);
    if println!(rt; "{tally}").is_err() {
        let _ = eprintln!(rt; "call_bench: cannot write");
    }
}

// A proved loop ends: this one where the input does, or after more turns than any run takes.
fn run(source: &mut impl Read, parts: &mut [u8; PARTS], out: &mut [u8; ROOM]) -> Tally {
    let mut tally = Tally::default();
    for _ in 0..u64::MAX {
        let Some(task) = Task::read(source, parts) else {
            break;
        };
        done(&task, out, &mut tally);
    }
    tally
}

// Tallies a task's answers and what stands in its output behind the last of them.
fn done(task: &Task<'_>, out: &mut [u8; ROOM], tally: &mut Tally) {
    let room = &mut out[..usize::from(task.output)];
    room.fill(FILL);
    for _ in 0..task.times {
        tally.answer(&calls::answered(task, room));
    }
    tally.bytes(room);
}
