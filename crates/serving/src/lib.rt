// The loop of a counter program: reads what is typed, has it served, and hands the answers to the writer. It knows no size of a table.
#![tactic(auto)]

ghost use Rattle.std.specs.Prelude.{◌≡◌, length};
ghost use Rattle.counter.specs.FeedSteps.{counter_of, Ready};
ghost use Rattle.serving.specs.Serving.{MayServe, CameIn, Took, HandedOver, Turned, all_handed, read_out, Served, LastHanded, Ran};

use counter::State;
use lines::Answer;
use std::io::{Read, Write};

// What is read at once, in bytes.
pub const CHUNK: usize = 4096;

// Room for the longest answer to every byte of a chunk, each of which could end a line.
pub const ANSWERS: usize = CHUNK * Answer::LONGEST;

// How a program's turns end.
#[derive(Clone, Copy, Debug, PartialEq, Eq)]
pub enum Ending {
    // Nothing more comes. Everything is answered.
    InputEnded,
    // A read failed. Everything that came before it is answered.
    ReadFailed,
    // The writer took no more: answers are missing from there on.
    NotWritten,
    // The turns are used up, which no run lives to see. Everything that came is answered.
    TurnsSpent,
}

// A whole run, on a table that is cleared first: turn after turn until nothing more comes, a read fails or the writer takes no more.
// What is lent comes apart: in a struct, each part would need a clause in every function that it is still the same.
pub fn serve<R: Read, W: Write>(
    reader: &mut R,
    writer: &mut W,
    t: &mut [u16],
    input: &mut [u8],
    out: &mut [u8],
) -> Ending
    requires { MayServe t.old input.old out.old }
    ensures { Ran t.old t.new result }
{
    let mut s = counter::open(t);
    let ending = serve_all(reader, writer, t, &mut s, input, out);
    counter::finish(t, &mut s, out);
    hand_last(writer, ending, &out[..s.printed])
}

// A proved loop has to end, so the turns are counted, up to a number that no run uses up.
fn serve_all<R: Read, W: Write>(
    reader: &mut R,
    writer: &mut W,
    t: &mut [u16],
    s: &mut State,
    input: &mut [u8],
    out: &mut [u8],
) -> Ending
    requires { Ready (length input.old) t.old out.old s.old }
    ensures { Served (counter_of t.old out.old s.old) (length input.old) t.new out.new s.new (all_handed result) (read_out result) }
{
    for _ in 0..u64::MAX {
        let end = turn(reader, writer, t, s, input, out);
        s.written();
        if let Some(ending) = end {
            return ending;
        }
    }
    Ending::TurnsSpent
}

// Reads once, serves what came, and hands the answers over before anything else is read. How the turns end, if this is the last.
fn turn<R: Read, W: Write>(
    reader: &mut R,
    writer: &mut W,
    t: &mut [u16],
    s: &mut State,
    input: &mut [u8],
    out: &mut [u8],
) -> Option<Ending>
    requires { Ready (length input.old) t.old out.old s.old }
    ensures { Turned (counter_of t.old out.old s.old) out.old input.new t.new out.new s.new result }
{
    let came = take_in(reader, input);
    let n = came.unwrap_or(0);
    counter::feed(t, s, &input[..n], out);
    if !hand_over(writer, &out[..s.printed]) {
        return Some(Ending::NotWritten);
    }
    match came {
        Some(0) => Some(Ending::InputEnded),
        Some(_) => None,
        None => Some(Ending::ReadFailed),
    }
}

// Reads once; how many bytes came, unless the read failed.
fn take_in<R: Read>(reader: &mut R, input: &mut [u8]) -> Option<usize>
    ensures { CameIn input.new result }
{
    reader.read(input).ok()
}

// Hands bytes over, in order, until all are taken or a write fails or takes none; whether all were.
// Write by write: `write_all` does not say how many bytes went out where it fails.
fn hand_over<W: Write>(writer: &mut W, bytes: &[u8]) -> bool
    ensures { HandedOver bytes.now result }
{
    let mut rest = bytes;
    while !rest.is_empty() {
        let took = offer(writer, rest);
        if took == 0 {
            return false;
        }
        rest = &rest[took..];
    }
    true
}

// Offers bytes to the writer once; how many it took, none if the write failed.
fn offer<W: Write>(writer: &mut W, bytes: &[u8]) -> usize
    ensures { Took bytes.now result }
{
    writer.write(bytes).unwrap_or(0)
}

// The last answer goes behind all others, or nowhere.
fn hand_last<W: Write>(writer: &mut W, ending: Ending, bytes: &[u8]) -> Ending
    ensures { LastHanded ending bytes.now result }
{
    if ending == Ending::NotWritten {
        return ending;
    }
    if hand_over(writer, bytes) {
        ending
    } else {
        Ending::NotWritten
    }
}
