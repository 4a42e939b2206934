// The numbers of a form.
ghost use Rattle.std.specs.Prelude.{◌≡◌};
ghost use Rattle.forms.specs.Items.{is_number, items_left, numbers, numbers_fit, value};
ghost use Rattle.forms.specs.Numbers.{NumbersByValue};

use crate::items::Items;

// The largest number that a sheet may hold: the largest `u32`.
const LARGEST: u64 = 4294967295;

// The most digits that it may be written with.
const MOST_DIGITS: usize = 10;

// One digit or more, and nothing else.
pub fn is_number(item: &[u8]) -> bool
    ensures { result ≡ is_number item.now }
{
    !item.is_empty() && item.iter().all(|b| b.is_ascii_digit())
}

// The value of digits, or the largest number where it is past that. A `u32` holds no larger one, and `parse` would fail there.
pub fn value(item: &[u8]) -> u32
    ensures { result ≡ value item.now }
{
    item.iter().fold(0u32, |value, b| {
        value
            .saturating_mul(10)
            .saturating_add(u32::from(b.saturating_sub(b'0')))
    })
}

// Every run of digits has at most ten digits and is not past the largest number. `parse` would want each run cut out first, and it takes
// any number of zeros in front.
pub fn numbers_fit(form: &[u8]) -> bool
    ensures { result ≡ numbers_fit form.now }
{
    let mut count: usize = 0;
    let mut value: u64 = 0;
    for b in form {
        if b.is_ascii_digit() {
            value = value * 10 + u64::from(*b - b'0');
            if count >= MOST_DIGITS || value > LARGEST {
                return false;
            }
            count += 1;
        } else {
            count = 0;
            value = 0;
        }
    }
    true
}

// The values of items that are exactly N numbers.
pub fn numbers<const N: usize>(mut items: Items) -> Option<[u32; N]>
    ensures { result ≡ numbers N (items_left items.entry) }
{
    let mut values = [0; N];
    for number in values.iter_mut() {
        let item = items.next()?;
        if !is_number(item.bytes) {
            return None;
        }
        *number = value(item.bytes);
    }
    items.next().is_none().then_some(values)
}

/// The law that numbers count by value: one that is written in decimal digits is read as itself, with or without zeros in front.
pub fn numbers_by_value()
    ensures { NumbersByValue }
{}
