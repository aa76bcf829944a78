// Hashes its input over and over, for bench/hash to time. The input's first two bytes say how many times, the more
// significant first; the rest is cut into texts of 4,096 bytes.
#![tactic(auto)]

ghost use Rattle.std.specs.Prelude.{◌≤◌};

use pages::Hex;
use std::io::Read;

// What is read of the input, in bytes.
const ROOM: usize = 65536;

// A text's bytes; the last one may have fewer.
const TEXT: usize = 4096;

fn main(rt: HostRuntime) {
    let mut space = [0; ROOM];
    let n = read(&mut rt.reader(), &mut space);
    let label = repeated(&space[..n]);
    if println!(rt; "{}", Hex(&label)).is_err() {
        let _ = eprintln!(rt; "hash_bench: cannot write");
    }
}

// How many bytes come: a failed read is taken for the input's end.
fn read(source: &mut impl Read, area: &mut [u8; ROOM]) -> usize
    ensures { result ≤ 65536 }
{
    let mut n = 0;
    'reads: for _ in 0..ROOM {
        match source.read(&mut area[n..]) {
            Ok(got) if 0 < got => n += got,
            _ => break,
        }
    }
    n
}

// The texts joined one after the other, the whole input so many times.
fn repeated(input: &[u8]) -> [u8; 32] {
    let Some((times, texts)) = input.split_first_chunk() else {
        return [0; 32];
    };
    (0..u16::from_be_bytes(*times)).fold([0; 32], |last, _| passed(last, texts))
}

// Each text's label is joined to the last one, and their label is the next: one line at the end then stands for every
// label.
fn passed(begun: [u8; 32], texts: &[u8]) -> [u8; 32] {
    let mut last = begun;
    for text in texts.chunks(TEXT) {
        last = labels::of_parts(&last, &labels::label(text));
    }
    last
}
