// The memory that one transcript takes, and the call that makes the transcript in it.
ghost use Rattle.std.specs.Prelude.{◌≡◌, ◌+◌, ◌*◌, ◌≤◌, [], string_bytes, string_capacity, vec_capacity};
ghost use Rattle.transcript.specs.Transcripts.{Printed};

use crate::faults::push_fault;
use crate::transcripts::push_transcript;
use dispatcher::Entry;
use sheet::read_borrowed;
use std::alloc::{AllocError, Global};

// The most calls of a script. A text has at most 32,768 bytes, and each call of an at-line takes one or more of them; and there are
// at most 10,000 ticks.
const MOST_CALLS: usize = 32768 + 10000;

// The most bytes of a transcript: 96 for each of at most 16 rows, 96 for each call, and 192 for the totals.
const MOST_BYTES: usize = 96 * (16 + MOST_CALLS) + 192;

/// The memory in which one transcript is made: an empty script with room for 42,768 calls, which no sheet exceeds, and an empty text
/// with room for 4,107,456 bytes, which no transcript exceeds. It is taken before a text is known, and from then on nothing can fail.
#[derive(Drop)]
pub struct Room {
    script: Vec<Entry>,
    out: String,
    ghost empty: { (script.items ≡ []) × (string_bytes out ≡ []) },
    ghost large: { (42768 ≤ vec_capacity script) × (96 * (16 + 42768) + 192 ≤ string_capacity out) },
}

impl Room {
    /// Takes all the memory, whatever text comes later.
    ///
    /// # Errors
    ///
    /// `AllocError` if there is too little memory. No later call fails for want of it.
    pub fn new(heap: Global) -> Result<Room, AllocError> {
        let script = Vec::with_capacity(heap, MOST_CALLS)?;
        let out = String::with_capacity(heap, MOST_BYTES)?;
        Ok(Room { script, out })
    }

    /// What is printed of a text, which may be any bytes: the transcript of the sheet that it is, or the one line of the fault that it
    /// has. Every line ends with byte 10. It answers for every text, takes no more memory, and uses up the room.
    pub fn transcript(self, text: &[u8]) -> String
        ensures { Printed text.now (string_bytes result) }
    {
        let Room {
            mut script,
            mut out,
        } = self;
        match read_borrowed(text) {
            Ok(sheet) => push_transcript(&mut script, &mut out, sheet),
            Err(fault) => push_fault(&mut out, &fault.report()),
        }
        out
    }
}
