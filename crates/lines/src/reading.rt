// Reading a line: a command's word, its arguments, and the call that they make.
ghost use Rattle.std.specs.Prelude.{◌≡◌};
ghost use Rattle.lines.specs.Lines.{parsed, command_of};
ghost use Rattle.lines.specs.Cursor.{if_no_more};

use crate::words::Words;
use ground::Refusal;
use wide::WideBox;

// What a line asks for.
#[derive(Clone, Copy, Debug, PartialEq, Eq)]
pub enum Line {
    // A box and a gust.
    Add(WideBox, u32),
    Ask(WideBox),
    Count,
}

impl Line {
    // In bytes, without the one that ends it.
    pub const LONGEST: usize = 80;
}

const ADD: &[u8] = b"add";

const ASK: &[u8] = b"ask";

const COUNT: &[u8] = b"count";

// The call that a line is. The byte that ends it is no part of it.
pub fn parse(line: &[u8]) -> Result<Line, Refusal>
    ensures { result ≡ parsed line.now }
{
    if Line::LONGEST < line.len() {
        return Err(Refusal::Line);
    }
    let mut words = Words::of(line);
    let call = call(&mut words).ok_or(Refusal::Line)?;
    match words.next() {
        None => Ok(call),
        // A word too many.
        Some(_) => Err(Refusal::Line),
    }
}

// The call that the first words are. Each command has its own arguments, so there is no one step to hand in.
fn call(words: &mut Words<'_>) -> Option<Line>
    ensures { if_no_more words.new result ≡ command_of words.old }
{
    let command = words.next()?;
    if command == ADD {
        let typed = words.typed()?;
        let gust = words.number()?;
        return Some(Line::Add(typed, gust));
    }
    if command == ASK {
        let typed = words.typed()?;
        return Some(Line::Ask(typed));
    }
    if command == COUNT {
        return Some(Line::Count);
    }
    None
}
