// The script program: reads a script on standard input, plays it on a bench bottom part and prints the transcript. All
// that matters is proved in the crate script; what is read and written is tested (host/test-play).
//
// What goes wrong is told on standard error, and the status is then 1: after a read that failed nothing is printed on
// standard output, and a transcript that could not be written whole is said to be cut. A line that begins
// `play: warning: ` says what the transcript does not, and changes no status.
#![tactic(auto)]

ghost use Rattle.std.specs.Prelude.{◌≡◌, ◌+◌, ◌<◌, ◌≤◌, ◌↔◌, length, take, slice_index, SomeIndex, IsTrue, OnOk, IfOk, IfErr, ℕ};
ghost use Rattle.std.specs.Io.KnownBytes.{Appends, Consumes, IsAtEnd};

use std::io::{Read, Write};
use std::process::ExitCode;
use std::{io, str};

// Reads until the text is full or the input ends, and gives the number of bytes. A read that gives fewer bytes than
// there is room for is not the end.
fn read_text<R: Read>(input: &mut R, text: &mut [u8]) -> io::Result<usize>
    ensures count { IfOk result (λ n. n ≤ length text.new) }
    // where the bytes that the reader has left are known: the text begins with those that it gave
    ensures bytes { IfOk result (λ n. Consumes (R.remaining input.old) (R.remaining input.new) (take n text.new)) }
    // and where there is room left, none are left
    ensures whole { IfOk result (λ n. n < length text.new → IsAtEnd (R.remaining input.new)) }
    // and where a read failed, too, the text begins with those that it gave
    ensures failed { IfErr result (λ _. (n : ℕ) × (n ≤ length text.new) × Consumes (R.remaining input.old) (R.remaining input.new) (take n text.new)) }
{
    let mut count = 0;
    while count < text.len() {
        match input.read(&mut text[count..])? {
            0 => return Ok(count),
            more => count += more,
        }
    }
    Ok(count)
}

// Whether some line ends in CR LF.
fn has_cr_lf(text: &[u8]) -> bool
    ensures { IsTrue result ↔ SomeIndex text.now (λ i. (i + 1 < length text.now) × (slice_index text.now i ≡ 13) × (slice_index text.now (i + 1) ≡ 10)) }
{
    text.windows(2).any(|pair| matches!(pair, [b'\r', b'\n']))
}

// Warns of a script that is played otherwise than its author may think. A warning that cannot be written is lost, and
// the script is played.
fn warn(rt: &impl Eprint, text: &[u8]) {
    if text.len() > 16384 {
        let _ = eprintln!(rt;
            "play: warning: the script is longer than 16,384 bytes; only the first 16,384 are played"
        );
    }
    if has_cr_lf(script::script_of(text)) {
        let _ = eprintln!(rt;
            "play: warning: lines end in CR LF, not LF; each of them is refused 6"
        );
    }
}

// Writes the first bytes of the room.
fn print<W: Write>(out: &mut W, room: &[u8], end: usize) -> io::Result<()>
    requires { end ≤ length room.now }
    // where the bytes that the writer holds are known
    ensures { OnOk result (Appends (W.contents out.old) (W.contents out.new) (take end room.now)) }
{
    out.write_all(&room[..end])
}

// Tells on standard error what failed and why: the system's text of the error, without the number that std writes
// after it.
fn fail(rt: &impl Eprint, what: &str, error: io::Error) -> ExitCode {
    let mut text = [0u8; 256];
    let mut room = &mut text[..];
    let _ = write!(room, "{error}");
    let n = 256usize.saturating_sub(room.len());
    let _ = match str::from_utf8(&text[..n]) {
        Ok(said) => {
            let reason = said
                .split_once(" (os error ")
                .map_or(said, |(reason, _)| reason);
            eprintln!(rt; "{what}: {reason}")
        }
        Err(_) => eprintln!(rt; "{what}: {error}"),
    };
    ExitCode::FAILURE
}

fn main(rt: HostRuntime) -> ExitCode {
    // Only the first 16,384 bytes are the script, however they arrive. One more is read, to tell an input that is
    // longer.
    let mut text = [0u8; 16385];
    let read = match read_text(&mut rt.stdin(), &mut text) {
        Ok(count) => &text[..count],
        Err(error) => {
            return fail(
                &rt,
                "play: the script cannot be read: standard input",
                error,
            );
        }
    };
    warn(&rt, read);
    // The bench part's words, all FFFFh at the start.
    let mut array = [0xffffu16; 16384];
    // The erase counts, which power-up sets to 0. No line of a script asks for them.
    let mut main = [[0u16; 16]; 16];
    let mut small = [0u16; 4];
    // Room for every transcript, as its type asks.
    let mut room = [0u8; 262154];
    let end = script::play_text(read, &mut main, &mut small, &mut array, &mut room);
    match print(&mut rt.stdout(), &room, end) {
        Ok(()) => ExitCode::SUCCESS,
        Err(error) => fail(
            &rt,
            "play: the transcript is not whole: standard output",
            error,
        ),
    }
}
