// Intel HEX files (document 02, item 3): the type of a reading's refusal, and no function. What a record is, what a
// text is refused for, what it makes of an array and what text an array is written as are in specs/, and the theorem
// that reading back gives the same words is in proofs/. The code is in hexread and hexwrite.
#![tactic(auto)]

use refusal::Refusal;

// Why a text is refused, and how many lines were looked at. The last of them is the bad record's; beside `NoEndRecord`
// it is the text's last, and beside `ArrayLength` there is none.
#[derive(Clone, Copy)]
pub struct BadRecord {
    pub refusal: Refusal,
    pub line: usize,
}
