// A line that is being printed into a lent buffer. By hand: `write!` promises its bytes only where it succeeds, and nothing promises that it does.
ghost use Rattle.std.specs.Prelude.{◌≡◌, ◌+◌, ◌≤◌, ◌++◌, length};
ghost use Rattle.lines.specs.Printing.{decimal};
ghost use Rattle.lines.specs.Filling.{last_digits, Puts};

// What is printed next goes to a place in the buffer.
#[derive(Drop)]
pub struct Text<'a> {
    pub out: &'a mut [u8],
    pub at: usize,
}

impl<'a> Text<'a> {
    pub fn push(&mut self, bytes: &[u8])
        requires { self.old.at + length bytes.now ≤ length self.old.out.now }
        ensures same_buffer { self.new.out.ghost_name ≡ self.old.out.ghost_name }
        ensures puts { Puts bytes.now self.old self.new }
    {
        let end = self.at + bytes.len();
        self.out[self.at..end].copy_from_slice(bytes);
        self.at = end;
    }

    // A label, and a number after it.
    pub fn push_labelled(&mut self, label: &[u8], n: u32)
        requires { self.old.at + length label.now + 10 ≤ length self.old.out.now }
        ensures same_buffer { self.new.out.ghost_name ≡ self.old.out.ghost_name }
        ensures puts { Puts (label.now ++ decimal n) self.old self.new }
        ensures most { self.new.at ≤ self.old.at + length label.now + 10 }
    {
        self.push(label);
        self.push_number(n);
    }

    fn push_number(&mut self, n: u32)
        requires { self.old.at + 10 ≤ length self.old.out.now }
        ensures same_buffer { self.new.out.ghost_name ≡ self.old.out.ghost_name }
        ensures puts { Puts (decimal n) self.old self.new }
    {
        let end = self.at + digit_count(n);
        fill_digits(&mut self.out[self.at..end], n);
        self.at = end;
    }
}

fn digit_count(n: u32) -> usize
    ensures { result ≡ length (decimal n) }
{
    n.max(1).ilog10() as usize + 1
}

// Fills a part with as many of a number's last digits as it has bytes. By index: what a reversed `iter_mut` wrote is not known afterwards.
fn fill_digits(out: &mut [u8], n: u32)
    ensures { out.new ≡ last_digits (length out.old) n }
{
    let mut rest = n;
    for k in (0..out.len()).rev() {
        out[k] = b'0' + (rest % 10) as u8;
        rest /= 10;
    }
}
