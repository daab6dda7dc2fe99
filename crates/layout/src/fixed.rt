// Fixed content: runs of one byte, and byte strings.
ghost use Rattle.std.specs.Prelude.{◌≡◌, length, get_or};
ghost use Rattle.layout.specs.inner.Lent.{byte_at, content_of};

pub const BLANK: u8 = b' ';

pub const ZERO: u8 = b'0';

const LETTER_C: [u8; 1] = *b"C";

const CODE_09: [u8; 2] = *b"09";

const CODE_52: [u8; 2] = *b"52";

// One byte over and over, as blanks, zeros, or the byte that a type or a segment is; or a byte string.
#[derive(Clone, Copy)]
pub enum Content {
    Run(u8),
    LetterC,
    Code09,
    Code52,
}

// A byte of a byte string; past its end 0.
fn byte_in(text: &[u8], i: usize) -> u8
    ensures { result ≡ get_or text.now i 0 }
{
    text.get(i).copied().unwrap_or(0)
}

impl Content {
    // The byte that has to stand at a place of the field, counted from 0.
    pub fn byte_at(self, i: usize) -> u8
        ensures { result ≡ byte_at self i }
    {
        match self {
            Content::Run(b) => b,
            Content::LetterC => byte_in(&LETTER_C, i),
            Content::Code09 => byte_in(&CODE_09, i),
            Content::Code52 => byte_in(&CODE_52, i),
        }
    }

    // Over the whole of a field's part.
    pub fn write(self, part: &mut [u8])
        ensures { part.new ≡ content_of self (length part.old) }
    {
        for (i, byte) in part.iter_mut().enumerate() {
            *byte = self.byte_at(i);
        }
    }
}
