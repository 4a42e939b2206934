// Calls that add to a text with room for what they add, so that none can fail.
ghost use Rattle.std.specs.Prelude.{◌≡◌, ◌+◌, ◌≤◌, ◌++◌, decimal, length, string_bytes, string_capacity, string_len};

use itoa::Buffer;

// Adds a text.
pub(crate) fn push(out: &mut String, text: &str)
    requires room { string_len out.old + length text.now ≤ string_capacity out.old }
    ensures bytes { string_bytes out.new ≡ string_bytes out.old ++ text.now }
    ensures grown { string_len out.new ≡ string_len out.old + length text.now }
    ensures kept { string_capacity out.old ≤ string_capacity out.new }
{
    // There is room for it.
    out.push_str(text).unwrap()
}

// Adds a number in decimal digits, which are at most 20.
pub(crate) fn push_number(out: &mut String, number: u64)
    requires room { string_len out.old + 20 ≤ string_capacity out.old }
    ensures bytes { string_bytes out.new ≡ string_bytes out.old ++ decimal number }
    ensures grown { string_len out.new ≤ string_len out.old + 20 }
    ensures kept { string_capacity out.old ≤ string_capacity out.new }
{
    let mut digits = Buffer::new();
    push(out, digits.format(number))
}

// Adds a total, whose digits are at most 40.
pub(crate) fn push_total(out: &mut String, total: u128)
    requires room { string_len out.old + 40 ≤ string_capacity out.old }
    ensures bytes { string_bytes out.new ≡ string_bytes out.old ++ decimal total }
    ensures grown { string_len out.new ≤ string_len out.old + 40 }
    ensures kept { string_capacity out.old ≤ string_capacity out.new }
{
    let mut digits = Buffer::new();
    push(out, digits.format(total))
}
