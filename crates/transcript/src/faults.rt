// The line that is printed of a text that is no sheet.
ghost use Rattle.std.specs.Prelude.{◌≡◌, ◌+◌, ◌≤◌, ◌++◌, length, string_bytes, string_capacity, string_len};
ghost use Rattle.transcript.specs.Lines.{behind_layer, fault_line, layer_word, position_words};

use crate::text::{push, push_number};
use forms::{Layer, Report};

// The layer that finds a fault, by its word.
fn layer_word(layer: Layer) -> &'static str
    ensures word { result.now ≡ layer_word layer }
    ensures short { length result.now ≤ 7 }
{
    match layer {
        Layer::Letters => "letters",
        Layer::Forms => "forms",
        Layer::Sheet => "sheet",
        Layer::Table => "table",
    }
}

// A position: a line and a byte.
fn push_position(out: &mut String, line: usize, byte: usize)
    requires room { string_len out.old + 41 ≤ string_capacity out.old }
    ensures bytes { string_bytes out.new ≡ string_bytes out.old ++ position_words line byte }
    ensures grown { string_len out.new ≤ string_len out.old + 41 }
    ensures kept { string_capacity out.old ≤ string_capacity out.new }
{
    push_number(out, line as u64);
    push(out, " ");
    push_number(out, byte as u64);
}

// What stands behind the layer: the row, if there is one, and the end of the line.
fn push_behind_layer(out: &mut String, row: Option<u32>)
    requires room { string_len out.old + 23 ≤ string_capacity out.old }
    ensures bytes { string_bytes out.new ≡ string_bytes out.old ++ behind_layer row }
    ensures grown { string_len out.new ≤ string_len out.old + 23 }
    ensures kept { string_capacity out.old ≤ string_capacity out.new }
{
    if let Some(row) = row {
        push(out, " ");
        push_number(out, u64::from(row));
    }
    push(out, ")\n");
}

// The line of a fault.
pub(crate) fn push_fault(out: &mut String, fault: &Report)
    requires room { string_len out.old + 192 ≤ string_capacity out.old }
    ensures { string_bytes out.new ≡ string_bytes out.old ++ fault_line fault.now }
{
    push(out, "(fault ");
    push_number(out, u64::from(fault.number));
    push(out, " ");
    push_position(out, fault.line, fault.byte);
    push(out, " ");
    push(out, layer_word(fault.layer));
    push_behind_layer(out, fault.row);
}
