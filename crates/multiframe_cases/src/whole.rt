// Multiframes of 2048 kbit/s built and taken apart through the C face: one with recognisable bytes, each length at its border, silent channels,
// and 2 before 11.
ghost use Rattle.std.specs.Prelude.{◌≤◌};

use std::{fmt, io};
use telling::inputs;
use telling::say::Spaced;

// What a call is lent: slices of so many bytes, at most one more than a multiframe has. Channels and spare digits count up from 0; every byte
// of the signalling is `signal` but the one at `at`, which is `other`.
#[derive(Clone, Copy)]
struct Making {
    multiframe: usize,
    channels: usize,
    signalling: usize,
    spare: usize,
    signal: u8,
    at: usize,
    other: u8,
    ghost lent: { (multiframe ≤ 513) × (channels ≤ 481) × (signalling ≤ 16) × (spare ≤ 10) },
}

const MAKINGS: [Making; 16] = [
    Making {
        multiframe: 512,
        channels: 480,
        signalling: 15,
        spare: 9,
        signal: 213,
        at: 0,
        other: 213,
    },
    Making {
        multiframe: 512,
        channels: 480,
        signalling: 15,
        spare: 9,
        signal: 16,
        at: 0,
        other: 16,
    },
    Making {
        multiframe: 512,
        channels: 480,
        signalling: 15,
        spare: 9,
        signal: 213,
        at: 0,
        other: 15,
    },
    Making {
        multiframe: 512,
        channels: 480,
        signalling: 15,
        spare: 9,
        signal: 213,
        at: 14,
        other: 0,
    },
    Making {
        multiframe: 512,
        channels: 480,
        signalling: 15,
        spare: 9,
        signal: 15,
        at: 0,
        other: 213,
    },
    Making {
        multiframe: 512,
        channels: 480,
        signalling: 15,
        spare: 9,
        signal: 213,
        at: 7,
        other: 15,
    },
    Making {
        multiframe: 511,
        channels: 480,
        signalling: 15,
        spare: 9,
        signal: 15,
        at: 0,
        other: 15,
    },
    Making {
        multiframe: 513,
        channels: 480,
        signalling: 15,
        spare: 9,
        signal: 15,
        at: 0,
        other: 15,
    },
    Making {
        multiframe: 512,
        channels: 479,
        signalling: 15,
        spare: 9,
        signal: 15,
        at: 0,
        other: 15,
    },
    Making {
        multiframe: 512,
        channels: 481,
        signalling: 15,
        spare: 9,
        signal: 15,
        at: 0,
        other: 15,
    },
    Making {
        multiframe: 512,
        channels: 480,
        signalling: 14,
        spare: 9,
        signal: 15,
        at: 0,
        other: 15,
    },
    Making {
        multiframe: 512,
        channels: 480,
        signalling: 16,
        spare: 9,
        signal: 15,
        at: 0,
        other: 15,
    },
    Making {
        multiframe: 512,
        channels: 480,
        signalling: 15,
        spare: 8,
        signal: 15,
        at: 0,
        other: 15,
    },
    Making {
        multiframe: 512,
        channels: 480,
        signalling: 15,
        spare: 10,
        signal: 15,
        at: 0,
        other: 15,
    },
    Making {
        multiframe: 0,
        channels: 0,
        signalling: 0,
        spare: 0,
        signal: 0,
        at: 0,
        other: 0,
    },
    Making {
        multiframe: 512,
        channels: 480,
        signalling: 15,
        spare: 9,
        signal: 255,
        at: 14,
        other: 16,
    },
];

impl fmt::Display for Making {
    fn fmt<W: fmt::Write>(&self, f: &mut fmt::Formatter<W>) -> fmt::Result {
        write!(
            f,
            "multiframe {} channels {} signalling {} spare {} signal {} at {} other {}",
            self.multiframe,
            self.channels,
            self.signalling,
            self.spare,
            self.signal,
            self.at,
            self.other
        )
    }
}

pub fn make_all(rt: &impl Print) -> io::Result<()> {
    for case in &MAKINGS {
        make(rt, case)?;
    }
    Ok(())
}

// Builds a multiframe, and takes what was built, or what stood there before, apart into slices of the same lengths.
fn make(rt: &impl Print, case: &Making) -> io::Result<()> {
    let mut multiframe = [165u8; 513];
    let mut channels = [0u8; 481];
    let mut signalling = [case.signal; 16];
    let mut spare = [0u8; 10];
    inputs::count_up(&mut channels);
    inputs::count_up(&mut spare);
    inputs::put_byte(&mut signalling, case.at, case.other);
    let multiframe = &mut multiframe[..case.multiframe];
    let channels = &mut channels[..case.channels];
    let signalling = &mut signalling[..case.signalling];
    let spare = &mut spare[..case.spare];
    let mut answer = [0u64; 1];
    let refusal = spritbobbin::spritbobbin_multiframe_build(
        multiframe,
        channels,
        signalling,
        spare,
        &mut answer,
    );
    let [channel] = answer;
    let sum = inputs::sum(multiframe);
    println!(rt; "build {case}: refusal {refusal} channel {channel} sum {sum}")?;
    channels.fill(165);
    signalling.fill(165);
    spare.fill(165);
    let refusal = spritbobbin::spritbobbin_multiframe_apart(
        multiframe, channels, signalling, spare,
    );
    let sums = [
        inputs::sum(channels),
        inputs::sum(signalling),
        inputs::sum(spare),
    ];
    println!(rt; "apart: refusal {refusal} sums{}", Spaced(&sums))
}

// All bytes of a multiframe whose channels and spare digits count up from 0, with signalling 213.
pub fn example(rt: &impl Print) -> io::Result<()> {
    let mut multiframe = [0u8; 512];
    let mut channels = [0u8; 480];
    let signalling = [213u8; 15];
    let mut spare = [0u8; 9];
    inputs::count_up(&mut channels);
    inputs::count_up(&mut spare);
    let mut answer = [0u64; 1];
    let refusal = spritbobbin::spritbobbin_multiframe_build(
        &mut multiframe,
        &channels,
        &signalling,
        &spare,
        &mut answer,
    );
    println!(rt; "multiframe: refusal {refusal}{}", Spaced(&multiframe))
}
