// What program `tally` does with a log (01, Log): it prints the text that `log_text::lines` writes, a buffer at a time.
#![tactic(auto)]

ghost use Rattle.std.specs.Prelude.{◌≡◌, ◌≤◌, length};
ghost use Rattle.log_walk.specs.Walk.{printed_text};

use std::io;

// Prints bytes, unless the output has failed before.
// stays beside the length, not in its place: what `tally` promises of the length holds where the output fails too
fn put<R: Print>(rt: &R, before: io::Result<()>, bytes: &[u8]) -> io::Result<()> {
    before?;
    rt.write_all(bytes)
}

// Prints a log's text, as many whole lines at a time as fit in the buffer, and gives its length; beside it the error where the output took no more of it.
fn print_log<R: Print>(rt: &R, s: &[u8]) -> (usize, io::Result<()>)
    requires { length s.now ≤ 65536 }
    ensures { result.0 ≡ length (printed_text s.now) }
{
    let mut page = [0u8; 65536];
    let mut w = log_walk::start();
    let mut printed = 0usize;
    let mut written = Ok(());
    // stays a loop: a buffer is seen to be the last one when it is filled
    loop {
        let r = log_text::lines(w, s, &mut page);
        let n = r.written;
        if n == 0 {
            return (printed, written);
        }
        written = put(rt, written, &page[..n]);
        printed += n;
        w = r.walk;
    }
}

// Prints the text of a log and gives its length; beside it the error where the output took no more of it. Bytes past 65,536 are not read.
pub fn tally<R: Print>(rt: &R, s: &[u8]) -> (usize, io::Result<()>)
    ensures { result.0 ≡ length (printed_text s.now) }
{
    let whole = s.len() <= 65536;
    if whole {
        return print_log(rt, s);
    }
    print_log(rt, &s[..65536])
}
