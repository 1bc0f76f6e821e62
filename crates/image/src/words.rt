// Words as bytes and back, low byte first: one plain loop each, which moves the table of a whole book.
ghost use Rattle.std.specs.Prelude.{◌≡◌, ◌*◌, length};
ghost use Rattle.image.specs.Bytes.{word_bytes, byte_words};

pub fn write_words(words: &[u16], out: &mut [u8])
    requires { length out.old ≡ 2 * length words.now }
    ensures { out.new ≡ word_bytes words.now }
{
    for (i, word) in words.iter().enumerate() {
        let [low, high] = word.to_le_bytes();
        out[2 * i] = low;
        out[2 * i + 1] = high;
    }
}

pub fn read_words(bytes: &[u8], words: &mut [u16])
    requires { length bytes.now ≡ 2 * length words.old }
    ensures { words.new ≡ byte_words bytes.now }
{
    for (i, word) in words.iter_mut().enumerate() {
        *word = u16::from_le_bytes([bytes[2 * i], bytes[2 * i + 1]]);
    }
}
