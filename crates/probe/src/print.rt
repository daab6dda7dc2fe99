// Replies, on standard output.
use answer::Answer;
use reply::Line;
use std::io;

// The line of an answer, of a file's outcome or of a refusal.
pub(crate) fn line(rt: &impl Print, says: impl Into<Line>) -> io::Result<()> {
    rt.println(says.into())
}

// Bytes, and LF.
pub(crate) fn bytes(rt: &impl Print, text: &[u8]) -> io::Result<()> {
    rt.write_all(text)?;
    rt.print('\n')
}

// Of a request that is none.
pub(crate) fn malformed(rt: &impl Print) -> io::Result<()> {
    line(rt, answer::refused(0, 0))
}

// Of a call with output memory.
pub(crate) fn memory(rt: &impl Print, answer: Answer, out: &[u8]) -> io::Result<()> {
    line(rt, answer)?;
    bytes(rt, out)
}
