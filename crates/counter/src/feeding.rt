// Feeding: a chunk of input however it was cut, its lines answered, and the rest of it kept as the line so far.
// A line that lies whole in the chunk is read where it lies.
// Table, state and buffer are lent apart: in a struct, each would need a clause in every function that it is still the same.
ghost use Rattle.std.specs.Prelude.{◌≡◌, ◌==◌, length, position};
ghost use Rattle.counter.specs.Counter.{line_end, ended, longer, fed, finished};
ghost use Rattle.counter.specs.FeedSteps.{counter_of, MayEnd, Ready, Shows, Opens};

use crate::State;
use crate::answering::serve;
use pages::Small;

// The empty book, at the start of a line. A table that is no book's stays as it is.
pub fn open(t: &mut [u16]) -> State
    ensures { Opens t.old t.new result }
{
    let mut small = Small::empty();
    let _ = index::clear(t, &mut small);
    State::of(small)
}

// A chunk of input. Each of its bytes could end a line, so the buffer has room for as many answers.
pub fn feed(t: &mut [u16], s: &mut State, input: &[u8], out: &mut [u8])
    requires { Ready (length input.now) t.old out.old s.old }
    ensures { Shows (fed input.now (counter_of t.old out.old s.old)) out.old t.new out.new s.new }
{
    let mut rest = input;
    while let Some(end) = first_end(rest) {
        end_line(t, s, &rest[..end], out);
        rest = &rest[end + 1..];
    }
    s.line.push(rest);
}

fn first_end(input: &[u8]) -> Option<usize>
    ensures { result ≡ position (λ b. b == line_end) input.now }
{
    input.iter().position(|b| *b == b'\n')
}

// The line so far ends after more bytes. One that begins with them is read where they lie.
fn end_line(t: &mut [u16], s: &mut State, more: &[u8], out: &mut [u8])
    requires { MayEnd t.old out.old s.old }
    ensures { Shows (ended (longer more.now (counter_of t.old out.old s.old))) out.old t.new out.new s.new }
{
    if s.line.is_empty() {
        s.printed = serve(t, &mut s.small, more, out, s.printed);
        return;
    }
    s.line.push(more);
    end_kept(t, s, out);
}

// The line so far ends.
fn end_kept(t: &mut [u16], s: &mut State, out: &mut [u8])
    requires { MayEnd t.old out.old s.old }
    ensures { Shows (ended (counter_of t.old out.old s.old)) out.old t.new out.new s.new }
{
    s.printed = serve(t, &mut s.small, s.line.as_slice(), out, s.printed);
    s.line.clear();
}

// The end of the input ends a line that has begun.
pub fn finish(t: &mut [u16], s: &mut State, out: &mut [u8])
    requires { Ready 1 t.old out.old s.old }
    ensures { Shows (finished (counter_of t.old out.old s.old)) out.old t.new out.new s.new }
{
    if !s.line.is_empty() {
        end_kept(t, s, out);
    }
}
