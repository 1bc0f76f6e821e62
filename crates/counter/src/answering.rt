// A line's call and its answer, on a book known to be well-formed.
ghost use Rattle.std.specs.Prelude.{true, ◌≡◌, ◌+◌, ◌≤◌, length};
ghost use Rattle.wellformed.specs.WellFormed.{well_formed};
ghost use Rattle.lines.specs.Lines.{parsed};
ghost use Rattle.lines.specs.Printing.{numbered, longest_answer};
ghost use Rattle.lines.specs.declared.reading.Line.TheVariants.{Add};
ghost use Rattle.wide.specs.Wide.{as_given};
ghost use Rattle.recording.specs.RecordSteps.{outcome_is};
ghost use Rattle.asking.specs.Asking.{asked};
ghost use Rattle.index.specs.Calls.{counted};
ghost use Rattle.counter.specs.Counter.{outcome_says, ask_says, count_says};
ghost use Rattle.counter.specs.Steps.{Tells, Serves};

use ground::{Refusal, numbered};
use lines::{Answer, Line};
use pages::Small;
use recording::{Outcome, Recorded};
use wide::WideBox;

// Answers a line, prints the answer at a place and gives the place after it.
pub fn serve(t: &mut [u16], s: &mut Small, line: &[u8], out: &mut [u8], at: usize) -> usize
    requires { (well_formed t.old s.old ≡ true) × (at + longest_answer ≤ length out.old) }
    ensures { Serves t.old t.new s.old s.new (parsed line.now) out.old out.new at result }
{
    let said = answer(t, s, line);
    lines::print(numbered(said), out, at)
}

// A call of its own for each kind of line: what they take differs, so a step handed in would say no more.
fn answer(t: &mut [u16], s: &mut Small, line: &[u8]) -> Result<Answer, Refusal>
    requires { well_formed t.old s.old ≡ true }
    ensures { Tells t.old t.new s.old s.new (parsed line.now) result }
{
    match lines::parse(line)? {
        Line::Add(typed, gust) => add(t, s, typed, gust),
        Line::Ask(typed) => ask(t, *s, typed),
        Line::Count => Ok(count(t, *s)),
    }
}

fn add(t: &mut [u16], s: &mut Small, typed: WideBox, gust: u32) -> Result<Answer, Refusal>
    requires { well_formed t.old s.old ≡ true }
    ensures { Tells t.old t.new s.old s.new (Ok (Add typed gust)) result }
{
    let done = recording::record_sound(t, s, typed.narrow(), wide::narrow(gust))?;
    Ok(recorded(done))
}

#[tactic(auto, unfolding(crate::specs::Counter::outcome_says))]
fn recorded(done: Recorded) -> Answer
    ensures { result ≡ outcome_says (outcome_is done.outcome) done.struck }
{
    match done.outcome {
        Outcome::Kept => Answer::Kept(done.struck),
        Outcome::Cut => Answer::Cut(done.struck),
        Outcome::Covered => Answer::Covered(done.struck),
    }
}

fn ask(t: &[u16], s: Small, typed: WideBox) -> Result<Answer, Refusal>
    ensures { numbered result ≡ ask_says (asked t.now s (as_given typed)) }
{
    let asked = asking::ask(t, s, typed.narrow())?;
    match asked.gust {
        Some(gust) => Ok(Answer::Gust(u32::from(gust), asked.pages)),
        None => Ok(Answer::Nothing(asked.pages)),
    }
}

// On a well-formed book held, struck and covered are accepted together, so that no page is read.
fn count(t: &[u16], s: Small) -> Answer
    requires { well_formed t.now s ≡ true }
    ensures { Ok result ≡ count_says (counted t.now s) }
{
    Answer::Counts {
        accepted: s.accepted,
        held: s.accepted - s.struck - s.covered,
        struck: s.struck,
        covered: s.covered,
    }
}
