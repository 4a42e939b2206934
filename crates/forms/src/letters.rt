// The layer of letters: every byte of a line is one that a sheet may hold.
ghost use Rattle.std.specs.Prelude.{◌≡◌, not, position};
ghost use Rattle.forms.specs.Faults.{failing, letters_report};
ghost use Rattle.forms.specs.Lines.{allowed, bad_letter};

use crate::faults::{LettersFault, Position};
use crate::lines::{Line, Part};

fn allowed(b: u8) -> bool
    ensures { result ≡ allowed b }
{
    (b' '..=b'~').contains(&b)
}

// The first byte that is not allowed.
fn first_bad(bytes: &[u8]) -> Option<usize>
    ensures { result ≡ position (λ b. not (allowed b)) bytes.now }
{
    bytes.iter().position(|b| !allowed(*b))
}

// The first byte that is not allowed is a fault, at its position.
pub fn letters(line: Line) -> Result<(), LettersFault>
    ensures { failing letters_report result ≡ bad_letter line.entry.part.position line.entry.part.bytes.now }
{
    let Part { bytes, position } = line.part;
    match first_bad(bytes) {
        None => Ok(()),
        Some(ahead) => Err(LettersFault(Position {
            byte: position.byte + ahead,
            ..position
        })),
    }
}
