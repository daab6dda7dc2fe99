// The line that is not finished: bytes that wait for the rest of it.
ghost use Rattle.std.specs.Prelude.{◌≡◌, [], ◌+◌, ◌≤◌, length};
ghost use Rattle.checker.specs.Line.{line_bytes};
ghost use Rattle.files.specs.Parts.{waiting, bytes_in};
ghost use Rattle.files.specs.inner.Joined.{joined, Share};

use checker::LINE_BYTES;

// Room for a line, and how many of its bytes are there. Behind them are zeros. An array and a count,
// and no `Vec`: the desk's memory is fixed.
#[derive(Clone, Copy)]
pub(crate) struct Unfinished {
    bytes: [u8; LINE_BYTES],
    count: usize,
}

impl Unfinished {
    // No byte yet.
    pub(crate) fn none() -> Unfinished
        ensures { result ≡ waiting [] }
    {
        Unfinished {
            bytes: [0; LINE_BYTES],
            count: 0,
        }
    }

    // How many bytes are there: a line's at most.
    pub(crate) fn len(self) -> usize
        ensures value { result ≡ length (bytes_in self) }
        ensures upper_bound { result ≤ line_bytes }
    {
        self.count.min(LINE_BYTES)
    }

    // The bytes that are there.
    pub(crate) fn bytes(&self) -> &[u8]
        ensures { result.now ≡ bytes_in self.now }
    {
        &self.bytes[..self.len()]
    }

    // How many bytes of a part go to this line: what it lacks, if it is begun.
    pub(crate) fn share(self, part: usize) -> usize
        ensures { Share (length (bytes_in self)) part result }
    {
        match self.len() {
            0 => 0,
            len => part.min(LINE_BYTES - len),
        }
    }

    // These bytes, and more behind them.
    pub(crate) fn with(self, more: &[u8]) -> Unfinished
        requires { length (bytes_in self) + length more.now ≤ line_bytes }
        ensures { result ≡ joined self more.now }
    {
        let from = self.len();
        let count = from + more.len();
        let mut bytes = self.bytes;
        bytes[from..count].copy_from_slice(more);
        Unfinished { bytes, count }
    }
}
