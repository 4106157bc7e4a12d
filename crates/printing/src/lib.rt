// The text that the script program prints (document 01, "The script program"), written into borrowed room.
// Each function puts its bytes at a place and gives the next place. It takes every number: what does not fit the room
// is dropped.
// A struct of the room and the place keeps the place in memory: 16,384 empty lines then take 1.26 ms, and 1.00 ms so.
#![tactic(auto)]

ghost use Rattle.std.specs.Prelude.{◌≡◌, [], ◌∷◌, ◌%◌};
ghost use Rattle.printing.specs.Text.{digit_of, decimal, hex4, answer_text, line_text, end_text};
ghost use Rattle.printing.specs.Room.{Put};

use semantics::Answer;

// One byte. The place stays at the room's end, so that no sum of places wraps. Not get_mut, whose clauses do not say
// what it leaves in the room.
fn put_byte(room: &mut [u8], at: usize, byte: u8) -> usize
    ensures { Put room.old at (byte ∷ []) room.new result }
{
    if at < room.len() {
        room[at] = byte;
        at + 1
    } else {
        at
    }
}

// The bytes of a text.
fn put_bytes(room: &mut [u8], at: usize, bytes: &[u8]) -> usize
    ensures { Put room.old at bytes.now room.new result }
{
    let mut next = at;
    for b in bytes {
        next = put_byte(room, next, *b);
    }
    next
}

// The lowest hex digit of a number.
#[tactic(auto, unfolding(crate::specs::Text::digit_of))]
pub fn digit(n: u32) -> u8
    ensures { result ≡ digit_of (n % 16) }
{
    let d = (n % 16) as u8;
    if d < 10 { b'0' + d } else { b'A' + (d - 10) }
}

fn put_digit(room: &mut [u8], at: usize, n: u32) -> usize
    ensures { Put room.old at (digit_of (n % 16) ∷ []) room.new result }
{
    put_byte(room, at, digit(n))
}

// A number in decimal: the digits of its tenth, then its last digit.
fn put_decimal(room: &mut [u8], at: usize, n: u32) -> usize
    ensures { Put room.old at (decimal n) room.new result }
{
    if n < 10 {
        put_digit(room, at, n)
    } else {
        let next = put_decimal(room, at, n / 10);
        put_digit(room, next, n % 10)
    }
}

// A word in 4 hex digits.
fn put_hex4(room: &mut [u8], at: usize, word: u16) -> usize
    ensures { Put room.old at (hex4 word) room.new result }
{
    let w = u32::from(word);
    let second = put_digit(room, at, w / 4096);
    let third = put_digit(room, second, w / 256);
    let fourth = put_digit(room, third, w / 16);
    put_digit(room, fourth, w)
}

fn put_answer(room: &mut [u8], at: usize, answer: Answer) -> usize
    ensures { Put room.old at (answer_text answer) room.new result }
{
    match answer {
        Answer::Word(w) => put_hex4(room, at, w),
        Answer::Units(n) => put_decimal(room, at, n),
        Answer::Done => put_bytes(room, at, b"ok"),
        Answer::Refused(e) => {
            let next = put_bytes(room, at, b"refused ");
            put_decimal(room, next, e.into())
        }
    }
}

// The line that a script line prints.
pub fn put_line(room: &mut [u8], at: usize, number: u32, answer: Answer) -> usize
    ensures { Put room.old at (line_text number answer) room.new result }
{
    let space = put_decimal(room, at, number);
    let text = put_byte(room, space, b' ');
    let end = put_answer(room, text, answer);
    put_byte(room, end, b'\n')
}

// The line at the end.
pub fn put_end(room: &mut [u8], at: usize, count: u32) -> usize
    ensures { Put room.old at (end_text count) room.new result }
{
    let digits = put_bytes(room, at, b"end ");
    let last = put_decimal(room, digits, count);
    put_byte(room, last, b'\n')
}
