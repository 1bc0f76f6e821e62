// The counter program: a book of 180 pages, served from standard input to standard output. All that matters is in `counter` and `serving`.
#![tactic(auto)]

ghost use Rattle.gust.specs.Program.{WholeRun};

use serving::Ending;
use std::io::Write;

// What a clerk is told: nothing unless the answers end early.
fn told(ending: Ending) -> &'static str {
    match ending {
        Ending::InputEnded => "",
        Ending::ReadFailed => {
            "gust: the input could not be read to its end; what came before is answered\n"
        }
        Ending::TurnsSpent => "gust: no more is read; what came before is answered\n",
        Ending::NotWritten => {
            "gust: the answers could not be written; what was asked from there on is not answered\n"
        }
    }
}

fn run(rt: HostRuntime)
    ensures { WholeRun }
{
    // A page table of 180 empty pages.
    let mut table = [0u16; 30600];
    let mut input = [0u8; serving::CHUNK];
    let mut out = [0u8; serving::ANSWERS];
    let ending = serving::serve(
        &mut rt.stdin(),
        &mut rt.stdout(),
        &mut table,
        &mut input,
        &mut out,
    );
    let _ = rt.stderr().write_all(told(ending).as_bytes());
}

fn main(rt: HostRuntime) {
    run(rt);
}
