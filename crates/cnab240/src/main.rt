// Checks the file on standard input and prints one line: `OK batches records payments cents payments
// cents`, the live payments before the withdrawn ones, or `NO number line place`. Every rule stands in
// the library; here the input is read, part by part as it comes, and the answer printed.
#![tactic(auto)]

use files::Incoming;
use reply::Line;
use std::io;
use std::io::Read;

// 270 lines: where each read fills it, as of a file on disk, no line lies in two parts.
const BUFFER_BYTES: usize = 65340;

// A read error never looks like an answer.
fn unread(rt: &impl Eprint) -> io::Result<()> {
    eprintln!(rt; "cnab240: standard input can't be read")
}

// Reads to the end of the input, or up to a refusal. A proved loop has to end, and nothing says that
// the input does; so it counts its turns, up to a number that no run uses up.
fn check(rt: &(impl Print + Eprint), source: &mut impl Read, buf: &mut [u8]) -> io::Result<()> {
    let mut state = Incoming::start();
    for _ in 0..u64::MAX {
        match source.read(buf) {
            Ok(0) => return rt.println(Line::from(state.end().outcome)),
            Ok(bytes) => {
                let taken = state.part(&buf[..bytes]);
                if taken.answer.is_err() {
                    return rt.println(Line::from(taken.answer));
                }
                state = taken.state;
            }
            Err(_) => return unread(rt),
        }
    }
    Ok(())
}

fn main(rt: HostRuntime) -> io::Result<()> {
    let mut buf = [0; BUFFER_BYTES];
    check(&rt, &mut rt.stdin(), &mut buf)
}
