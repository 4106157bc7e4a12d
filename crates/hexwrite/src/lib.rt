// Writes an array as Intel HEX into borrowed room (document 02, item 3). What the text is, is defined in the crate
// intelhex. A private function is told that its bytes fit, so none tests a place.
#![tactic(auto)]

ghost use Rattle.std.specs.Prelude.{◌≡◌, ℕ, ◌+◌, ◌*◌, ◌/◌, ◌%◌, ◌<◌, ◌≤◌, [], ◌∷◌, length};
ghost use Rattle.printing.specs.Room.{placed};
ghost use Rattle.intelhex.specs.Text.{bytes_of, upper_record, data_record, end_record, written, room_after};
ghost use Rattle.intelhex.specs.Sizes.{text_length};
ghost use Rattle.hexwrite.specs.Records.{type_of, Added, Begun, ended};
ghost use Rattle.hexwrite.specs.Texts.{sixteen_of, plain_text};

use geometry::Part;
use printing::digit;
use refusal::Refusal;

// What a record is, by the type that is written for it.
#[derive(Clone, Copy)]
enum Kind {
    Data = 0,
    End = 1,
    Upper = 4,
}

impl From<Kind> for u8 {
    ghost from_gives = { λ kind byte. byte ≡ type_of kind };

    fn from(kind: Kind) -> u8 {
        kind as u8
    }
}

// A record that is begun: the place of its next byte, and the sum of its bytes so far, as it wraps at 256. The room is
// not one of its fields: a struct that holds it would have to say in each method that it is the same room.
#[derive(Clone, Copy)]
struct Record {
    at: usize,
    sum: u8,
}

impl Record {
    // A colon, and a record's first four bytes.
    fn begin(text: &mut [u8], at: usize, count: u8, offset: u16, kind: Kind) -> Record
        requires { at + 9 ≤ length text.old }
        ensures { Begun text.old at (count ∷ offset / 256 ∷ offset % 256 ∷ type_of kind ∷ []) text.new result }
    {
        let [high, low] = offset.to_be_bytes();
        text[at] = b':';
        Record { at: at + 1, sum: 0 }
            .put_byte(text, count)
            .put_byte(text, high)
            .put_byte(text, low)
            .put_byte(text, kind.into())
    }

    // A byte in two digits.
    fn put_byte(self, text: &mut [u8], byte: u8) -> Record
        requires { self.at + 2 ≤ length text.old }
        ensures { Added text.old self (byte ∷ []) text.new result }
    {
        text[self.at] = digit(u32::from(byte / 16));
        text[self.at + 1] = digit(u32::from(byte));
        Record {
            at: self.at + 2,
            sum: self.sum.wrapping_add(byte),
        }
    }

    // A word's two bytes, the low half first.
    fn put_word(self, text: &mut [u8], word: u16) -> Record
        requires { self.at + 4 ≤ length text.old }
        ensures { Added text.old self (bytes_of (word ∷ [])) text.new result }
    {
        let [low, high] = word.to_le_bytes();
        self.put_byte(text, low).put_byte(text, high)
    }

    fn put_words(mut self, text: &mut [u8], words: &[u16]) -> Record
        requires { self.at + 4 * length words.now ≤ length text.old }
        ensures { Added text.old self (bytes_of words.now) text.new result }
    {
        for word in words {
            self = self.put_word(text, *word);
        }
        self
    }

    // The check byte, with which the sum comes to 0, and LF.
    fn end(self, text: &mut [u8]) -> usize
        requires { self.at + 3 ≤ length text.old }
        ensures value { result ≡ self.at + 3 }
        ensures text { text.new ≡ placed text.old self.at (ended self.sum) }
    {
        let last = self.put_byte(text, 0u8.wrapping_sub(self.sum)).at;
        text[last] = b'\n';
        last + 1
    }
}

// The 04 record of the upper half of an address.
fn put_upper(text: &mut [u8], at: usize, upper: u16) -> usize
    requires { at + 16 ≤ length text.old }
    ensures value { result ≡ at + 16 }
    ensures text { text.new ≡ placed text.old at (upper_record upper) }
{
    let [high, low] = upper.to_be_bytes();
    Record::begin(text, at, 2, 0, Kind::Upper)
        .put_byte(text, high)
        .put_byte(text, low)
        .end(text)
}

// The record of 8 words.
fn put_data(text: &mut [u8], at: usize, offset: u16, words: &[u16]) -> usize
    requires room { at + 44 ≤ length text.old }
    requires eight { length words.now ≡ 8 }
    ensures value { result ≡ at + 44 }
    ensures text { text.new ≡ placed text.old at (data_record offset (bytes_of words.now)) }
{
    Record::begin(text, at, 16, offset, Kind::Data)
        .put_words(text, words)
        .end(text)
}

// The end record.
fn put_end(text: &mut [u8], at: usize)
    requires { at + 12 ≤ length text.old }
    ensures { text.new ≡ placed text.old at end_record }
{
    Record::begin(text, at, 0, 0, Kind::End).end(text);
}

// The records of the sixteen bytes of number k: a 04 record where 65,536 bytes begin, and their own.
fn put_sixteen(text: &mut [u8], at: usize, k: usize, words: &[u16]) -> usize
    requires room { at + length (sixteen_of k words.now) ≤ length text.old }
    requires eight { length words.now ≡ 8 }
    requires limit { k < 2097152 }
    ensures value { result ≡ at + length (sixteen_of k words.now) }
    ensures text { text.new ≡ placed text.old at (sixteen_of k words.now) }
{
    let offset = (k % 4096 * 16) as u16;
    if offset == 0 {
        let next = put_upper(text, at, (k / 4096) as u16);
        put_data(text, next, offset, words)
    } else {
        put_data(text, at, offset, words)
    }
}

// The text of an array: its whole sixteens, and the end record.
fn put_text(text: &mut [u8], array: &[u16])
    requires room { length (plain_text array.now) ≤ length text.old }
    requires limit { length array.now ≤ 16777216 }
    ensures { text.new ≡ placed text.old 0 (plain_text array.now) }
{
    let mut at = 0;
    for (k, words) in array.chunks_exact(8).enumerate() {
        at = put_sixteen(text, at, k, words);
    }
    put_end(text, at);
}

// The length of the text of a part's array.
pub fn text_length(part: Part) -> usize
    ensures { result ≡ text_length part }
{
    match part {
        Part::FullBottom | Part::FullTop => 92282892,
        Part::BenchBottom | Part::BenchTop => 90140,
    }
}

// Writes the text of a part's array. Refuses 1 where the array is not a part's, then 17 where the room is too short; a
// refusal leaves the room as it was.
pub fn write(part: Part, array: &[u16], text: &mut [u8]) -> Result<usize, Refusal>
    ensures value { result ≡ written part array.now text.old }
    ensures text { text.new ≡ room_after part array.now text.old }
{
    if array.len() != geometry::length_of(part) as usize {
        return Err(Refusal::ArrayLength);
    }
    let length = text_length(part);
    if text.len() < length {
        return Err(Refusal::RoomLength);
    }
    put_text(text, array);
    Ok(length)
}
