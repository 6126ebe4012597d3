// Answers to recorded cases on standard input, one line a case (docs/REPLAY.md).
#![tactic(auto)]

mod call;
mod checksum;
mod input;
mod list;
mod output;
mod replay;

use input::Input;
use output::Output;
use replay::{BYTES, DIGITS, LIMBS, Replay};

fn main(rt: HostRuntime) {
    let mut replay = Replay {
        input: Input::new(rt.stdin()),
        output: Output::new(rt.stdout()),
        scalars: [0; BYTES],
        more_scalars: [0; BYTES],
        flags: [0; BYTES],
        points: [0; LIMBS],
        more_points: [0; LIMBS],
        digits: [0; DIGITS],
        windows: [0; LIMBS],
    };
    replay.run();
}
