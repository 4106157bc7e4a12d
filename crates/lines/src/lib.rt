// Where the lines of a text begin and end, at every text and place.
#![tactic(auto)]

ghost use Rattle.std.specs.Prelude.{◌≡◌, ◌==◌, position};
ghost use Rattle.lines.specs.Lines.{taken_at};

// Where a line begins and ends, and where the next one begins.
#[derive(Clone, Copy)]
pub struct Taken {
    pub from: usize,
    pub to: usize,
    pub next: usize,
}

// Where the first LF of a text stands.
fn first_lf(text: &[u8]) -> Option<usize>
    ensures { result ≡ position (λ b. b == 10) text.now }
{
    text.iter().position(|b| *b == b'\n')
}

// The line that begins at a place. It ends at the first LF from there on, and the next one begins past that; or both at
// the text's end, where there is none.
pub fn taken_at(text: &[u8], at: usize) -> Taken
    ensures { result ≡ taken_at text.now at }
{
    let rest = text.get(at..).unwrap_or_default();
    match first_lf(rest) {
        Some(n) => Taken {
            from: at,
            to: at + n,
            next: at + n + 1,
        },
        None => Taken {
            from: at,
            to: at + rest.len(),
            next: at + rest.len(),
        },
    }
}
