// Reading Intel HEX (document 02, item 3) from borrowed text into a borrowed array. The text is gone over twice: it is
// judged whole before the first word is written, since a refused file leaves the array as it was.
#![tactic(auto)]

ghost use Rattle.std.specs.Prelude.{◌≡◌, ℕ, ◌+◌, ◌*◌, ◌/◌, ◌%◌, ◌<◌, ◌≤◌, true, length, None};
ghost use Rattle.std.specs.Iterator.{YieldsFirstRef, item_count};
ghost use Rattle.std.specs.Result.{result_err};
ghost use Rattle.intelhex.specs.Records.{record_lines, digit, all_digits, pairs, kind, named_from, refusal_from, named};
ghost use Rattle.intelhex.specs.Records.{words_after, size, verdict, array_read};
ghost use Rattle.hexread.specs.Ends.{record_end};
ghost use Rattle.hexread.specs.Put.{with_byte};
ghost use Rattle.hexread.specs.Storing.{Storable};
ghost use Rattle.hexread.specs.Bytes.{pair_at, kind_of, header_of, scanned, shaped_kind, outside_of, refusal_by};
ghost use Rattle.hexread.specs.Bytes.{record_of, looked, judged};

use geometry::Part;
use intelhex::BadRecord;
use refusal::Refusal;

// ---- the bytes of a record

// What the type of a record stands for.
#[derive(Clone, Copy)]
enum Kind {
    Data,
    End,
    Upper,
    Other,
}

impl From<u16> for Kind {
    ghost from_gives = { λ n k. k ≡ kind_of n };

    fn from(n: u16) -> Kind {
        match n {
            0 => Kind::Data,
            1 => Kind::End,
            4 => Kind::Upper,
            _ => Kind::Other,
        }
    }
}

// A record's number of data bytes, its offset and its type.
#[derive(Clone, Copy)]
struct Header {
    count: u32,
    offset: u32,
    kind: Kind,
}

// What a good record does: it names so many bytes from an offset on, ends the file, or gives the upper half of the
// addresses that hold after it.
#[derive(Clone, Copy)]
enum Record {
    Names { offset: u32, count: u32 },
    Ends,
    Moves(u32),
}

// The value of a hex digit of either case, and 16 for any other byte. Both answers are worked out and one is chosen: a
// branch by the digit would be taken wrongly too often.
fn digit(b: u8) -> u8
    ensures { result ≡ digit b }
{
    let decimal = (48 <= b) & (b < 58);
    let upper = (65 <= b) & (b < 71);
    let lower = (97 <= b) & (b < 103);
    if decimal | (upper | lower) {
        b % 16 + b / 64 * 9
    } else {
        16
    }
}

// The byte whose two digits begin at a place.
fn byte_at(line: &[u8], at: usize) -> u16
    requires { at + 1 < length line.now }
    ensures { result ≡ pair_at line.now at }
{
    u16::from(digit(line[at])) * 16 + u16::from(digit(line[at + 1]))
}

// The sum of the bytes of digits as it wraps at 256, where they are digits only. All of them are read, which is faster
// than to stop at the first that is none. Document 01 names the form of the sum: wrapping add on u8.
fn scan(digits: &[u8]) -> Option<u8>
    requires { length digits.now % 2 ≡ 0 }
    ensures { result ≡ scanned digits.now }
{
    let mut good = true;
    let mut sum: u8 = 0;
    for pair in digits.chunks_exact(2) {
        let high = digit(pair[0]);
        let low = digit(pair[1]);
        good &= (high < 16) & (low < 16);
        let byte = u16::from(high) * 16 + u16::from(low);
        sum = sum.wrapping_add((byte % 256) as u8);
    }
    if good { Some(sum) } else { None }
}

// ---- a record

impl Header {
    fn of(line: &[u8]) -> Header
        requires { 11 ≤ length line.now }
        ensures { result ≡ header_of line.now }
    {
        Header {
            count: u32::from(byte_at(line, 1)),
            offset: u32::from(byte_at(line, 3)) * 256 + u32::from(byte_at(line, 5)),
            kind: Kind::from(byte_at(line, 7)),
        }
    }

    fn is_shaped(self) -> bool
        ensures { result ≡ shaped_kind self.kind self.offset self.count }
    {
        match self.kind {
            Kind::End => (self.offset == 0) & (self.count == 0),
            Kind::Upper => (self.offset == 0) & (self.count == 2),
            Kind::Data | Kind::Other => true,
        }
    }

    // Refusal 13. A record of no bytes names none.
    fn is_outside(self, upper: u32, size: u64) -> bool
        ensures { result ≡ outside_of self upper size }
    {
        let end = u64::from(self.offset) + u64::from(self.count);
        end > 65536
            || matches!(self.kind, Kind::Data)
                && self.count != 0
                && u64::from(upper) * 65536 + end > size
    }

    // Refuses what is left of a record of the right length that has digits only.
    fn test(self, sum: u8, upper: u32, size: u64) -> Result<(), Refusal>
        ensures { result_err result ≡ refusal_by self sum upper size }
    {
        if !self.is_shaped() {
            Err(Refusal::RecordForm)
        } else if sum != 0 {
            Err(Refusal::RecordSum)
        } else if matches!(self.kind, Kind::Other) {
            Err(Refusal::RecordType)
        } else if self.is_outside(upper, size) {
            Err(Refusal::OutsideArray)
        } else {
            Ok(())
        }
    }

    // What the good record of a line does: `Other` is not its type. Inlined, since a call here takes 6% of a reading.
    #[inline(always)]
    fn record(self, line: &[u8]) -> Record
        requires header { self ≡ header_of line.now }
        requires upper { kind line.now ≡ 4 → 13 ≤ length line.now }
        ensures { result ≡ record_of line.now }
    {
        match self.kind {
            Kind::End => Record::Ends,
            Kind::Upper => Record::Moves(
                u32::from(byte_at(line, 9)) * 256 + u32::from(byte_at(line, 11)),
            ),
            Kind::Data | Kind::Other => Record::Names {
                offset: self.offset,
                count: self.count,
            },
        }
    }
}

// The record of a line, for an array of so many bytes, where an upper half of the address holds.
fn look(line: &[u8], upper: u32, size: u64) -> Result<Record, Refusal>
    ensures { result ≡ looked size upper line.now }
{
    if line.len() < 11 {
        return Err(Refusal::RecordForm);
    }
    let h = Header::of(line);
    if line.len() != 2 * (5 + h.count as usize) + 1 || line[0] != b':' {
        return Err(Refusal::RecordForm);
    }
    let sum = scan(&line[1..]).ok_or(Refusal::RecordForm)?;
    h.test(sum, upper, size)?;
    Ok(h.record(line))
}

// ---- the text

// Where the record of a line ends: before a CR, where the LF comes after it.
fn record_end(text: &[u8], to: usize) -> usize
    requires { to ≤ length text.now }
    ensures { result ≡ record_end text.now to }
{
    if to < text.len() && 0 < to && text[to - 1] == b'\r' {
        to - 1
    } else {
        to
    }
}

// The records of the lines of a text, one after the other.
#[derive(Drop)]
struct Records<'a> {
    rest: &'a [u8],
}

impl<'a> Iterator for Records<'a> {
    type Item = &'a [u8];

    ghost next_gives = { YieldsFirstRef (λ s. record_lines s.rest.now) };

    ghost remaining = { item_count (λ s. record_lines s.rest.now) };

    fn next(&mut self) -> Option<&'a [u8]> {
        let text = self.rest;
        if text.is_empty() {
            return None;
        }
        let taken = lines::taken_at(text, 0);
        self.rest = &text[taken.next..];
        Some(&text[..record_end(text, taken.to)])
    }
}

// Judges a text for an array of so many bytes.
fn judge(text: &[u8], size: u64) -> Result<usize, BadRecord>
    ensures { result ≡ judged size text.now }
{
    let mut upper: u32 = 0;
    // Counted by hand, and not by `enumerate`: it is told after the loop too.
    let mut line: usize = 0;
    for record in (Records { rest: text }) {
        line += 1;
        match look(record, upper, size) {
            Ok(Record::Names { .. }) => {}
            Ok(Record::Moves(next)) => upper = next,
            Ok(Record::Ends) => return Ok(line),
            Err(refusal) => return Err(BadRecord { refusal, line }),
        }
    }
    Err(BadRecord {
        refusal: Refusal::NoEndRecord,
        line,
    })
}

// ---- the array

// A word with the byte at an address put into it: an even address is the low half.
fn with_byte(word: u16, address: usize, byte: u16) -> u16
    requires { byte < 256 }
    ensures { result ≡ with_byte word address byte }
{
    if address % 2 == 0 {
        word / 256 * 256 + byte
    } else {
        byte * 256 + word % 256
    }
}

// Writes the bytes of digits from an address on.
fn store(digits: &[u8], start: usize, array: &mut [u16])
    requires { Storable digits.now start array.old }
    ensures { array.new ≡ words_after (named_from start (pairs digits.now)) array.old }
{
    for (i, pair) in digits.chunks_exact(2).enumerate() {
        let address = start + i;
        let w = address / 2;
        array[w] = with_byte(array[w], address, byte_at(pair, 0));
    }
}

// Writes what an accepted text names.
fn fill(text: &[u8], array: &mut [u16])
    requires { refusal_from (size array.old) 0 (record_lines text.now) ≡ None }
    ensures { array.new ≡ words_after (named 0 (record_lines text.now)) array.old }
{
    let mut upper: u32 = 0;
    for line in (Records { rest: text }) {
        match Header::of(line).record(line) {
            Record::Names { offset, count } => {
                let start = upper as usize * 65536 + offset as usize;
                store(&line[9..9 + 2 * count as usize], start, array);
            }
            Record::Moves(next) => upper = next,
            Record::Ends => return,
        }
    }
}

// Reads a text into a part's array.
pub fn read(part: Part, text: &[u8], array: &mut [u16]) -> Result<usize, BadRecord>
    ensures value { result ≡ verdict part text.now array.old }
    ensures array { array.new ≡ array_read part text.now array.old }
{
    let n = geometry::length_of(part) as usize;
    if array.len() != n {
        return Err(BadRecord {
            refusal: Refusal::ArrayLength,
            line: 0,
        });
    }
    let lines = judge(text, 2 * n as u64)?;
    fill(text, array);
    Ok(lines)
}
