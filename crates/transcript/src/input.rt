// What is read of an input before a sheet is made of it.
ghost use Rattle.std.specs.Prelude.{◌≡◌, take, vec_items, IfOk, IfSome};

use std::alloc::Global;
use std::io;
use std::io::Read;

// One byte more than a sheet may have: an input with so many bytes is too long, whatever follows them.
const MOST_READ: u64 = 32769;

/// The bytes of an input: all of them, or the first 32,769 of a longer one. Those are too many for a sheet, so the same is printed of
/// them as of the whole: fault 17.
///
/// # Errors
///
/// The error of a read that fails, and an error if memory runs out.
pub fn read_input<R: Read + Drop>(heap: Global, input: R) -> io::Result<Vec<u8>>
    ensures { IfOk result (λ text. IfSome (R.remaining input) (λ bytes. text.items ≡ take 32769 bytes)) }
{
    let mut text = Vec::new(heap);
    input.take(MOST_READ).read_to_end(&mut text)?;
    Ok(text)
}
