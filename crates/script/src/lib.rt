// A script text played whole on a device, with the transcript written into borrowed room: document 01, "The script
// program".
// Each public function takes every text, place and number.
#![tactic(auto)]

ghost use Rattle.std.specs.Prelude.{◌≡◌, ◌<◌, length};
ghost use Rattle.wear.specs.Counts.{lent};
ghost use Rattle.script.specs.Script.{script_of, LinePlayed, LinesPlayed, Transcribed};
ghost use Rattle.script.specs.Laws.{PlayedAt, Begun};
ghost use Rattle.script.specs.Lent.{SameLent};

use device::{Device, Outcome};
use geometry::Part;
use refusal::Refusal;
use semantics::Answer;

// ---- the text of a script

// The part of a text that is the script.
pub fn script_of(text: &[u8]) -> &[u8]
    ensures { result.now ≡ script_of text.now }
{
    text.get(..16384).unwrap_or(text)
}

// ---- what is played, and on what

// The device after a line, and the place of the room after the line's text.
#[derive(Clone, Copy)]
struct Played {
    device: Device,
    place: usize,
}

// How far a script is played: the device, the number of lines played, the place of the room after their text, and the
// place of the script where the next line begins.
#[derive(Clone, Copy)]
struct Progress {
    device: Device,
    count: u32,
    place: usize,
    next: usize,
}

// The borrowed script, and the place in it where the next line begins.
#[derive(Drop)]
struct Reader<'a> {
    text: &'a [u8],
    at: usize,
}

// What a script is played on, all borrowed: the erase counts, the array, and the room for the transcript.
#[derive(Drop)]
struct Lent<'a> {
    main: &'a mut [[u16; 16]; 16],
    small: &'a mut [u16; 4],
    array: &'a mut [u16],
    room: &'a mut [u8],
}

impl Lent<'_> {
    // Plays the step of a line, or refuses the line where it has none, and prints the answer.
    fn play_line(&mut self, line: &[u8], device: Device, number: u32, place: usize) -> Played
        ensures same { SameLent self.old self.new }
        ensures played { LinePlayed line.now device number (lent self.old.main.now self.old.small.now) self.old.array.now self.old.room.now place result (lent self.new.main.now self.new.small.now) self.new.array.now self.new.room.now }
    {
        let o = match line::step_of_line(line) {
            Some(step) => device.step(self.main, self.small, self.array, step),
            None => {
                let refusal = device::refusal_of(device.state, self.main, self.array.len());
                Outcome {
                    device,
                    answer: Answer::Refused(refusal.unwrap_or(Refusal::NoStep)),
                }
            }
        };
        Played {
            device: o.device,
            place: printing::put_line(self.room, place, number, o.answer),
        }
    }

    // Plays the line that begins at the reader's place.
    fn play_next(&mut self, reader: &Reader, p: Progress) -> Progress
        requires { (reader.now.at < length reader.now.text.now) × (p.count < 16384) }
        ensures same { SameLent self.old self.new }
        ensures played { PlayedAt reader.now.text.now reader.now.at p (lent self.old.main.now self.old.small.now) self.old.array.now self.old.room.now result (lent self.new.main.now self.new.small.now) self.new.array.now self.new.room.now }
    {
        let taken = lines::taken_at(reader.text, reader.at);
        let line = &reader.text[taken.from..taken.to];
        let count = p.count + 1;
        let played = self.play_line(line, p.device, count, p.place);
        Progress {
            device: played.device,
            count,
            place: played.place,
            next: taken.next,
        }
    }

    // Plays the lines of a script one after the other. The reader keeps the script and the place in it: document 01
    // names this form.
    fn play_lines(&mut self, script: &[u8], mut p: Progress) -> Progress
        requires { Begun script.now p (lent self.old.main.now self.old.small.now) }
        ensures same { SameLent self.old self.new }
        ensures played { LinesPlayed script.now self.old.array.now self.old.room.now result (lent self.new.main.now self.new.small.now) self.new.array.now self.new.room.now }
    {
        let mut reader = Reader {
            text: script,
            at: 0,
        };
        while reader.at < reader.text.len() {
            p = self.play_next(&reader, p);
            reader.at = p.next;
        }
        p
    }
}

// ---- the script

// Plays the script of a text on a bench bottom part from power-up, with borrowed erase counts, on a borrowed array, and
// writes the transcript from the room's start on. The room holds every transcript. Gives its length.
pub fn play_text(
    text: &[u8],
    main: &mut [[u16; 16]; 16],
    small: &mut [u16; 4],
    array: &mut [u16],
    room: &mut [u8; 262154],
) -> usize
    ensures { Transcribed text.now array.old room.old result (lent main.new small.new) array.new room.new }
{
    let begun = Progress {
        device: Device::power_up(Part::BenchBottom, main, small),
        count: 0,
        place: 0,
        next: 0,
    };
    let mut lent = Lent {
        main,
        small,
        array,
        room,
    };
    let p = lent.play_lines(script_of(text), begun);
    printing::put_end(lent.room, p.place, p.count)
}
