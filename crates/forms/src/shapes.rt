// Which lines are forms: those whose brackets pair up, and whose bytes may stand one after the other.
ghost use Rattle.std.specs.Prelude.{◌≡◌};
ghost use Rattle.forms.specs.Grammar.{FormsByGrammar};
ghost use Rattle.forms.specs.Forms.{bracketed, in_brackets, is_form, is_remark, may_follow, spelled_out};

// The deepest that brackets may nest.
const DEEPEST: usize = 16;

// What may stand after a byte of a form.
fn may_follow(a: u8, b: u8) -> bool
    ensures { result ≡ may_follow a b }
{
    match a {
        b'(' => matches!(b, b'a'..=b'z'),
        b'a'..=b'z' => matches!(b, b'a'..=b'z' | b' ' | b')'),
        b'0'..=b'9' => matches!(b, b'0'..=b'9' | b' ' | b')'),
        b' ' => matches!(b, b'a'..=b'z' | b'0'..=b'9' | b'('),
        b')' => matches!(b, b' ' | b')'),
        _ => false,
    }
}

// Each byte may stand after the one before it.
fn spelled_out(part: &[u8]) -> bool
    ensures { result ≡ spelled_out part.now }
{
    part.iter()
        .zip(part.iter().skip(1))
        .all(|(a, b)| may_follow(*a, *b))
}

// The first byte is a bracket, which the last byte closes; brackets pair up, and do not nest too deep.
fn bracketed(part: &[u8]) -> bool
    ensures { result ≡ bracketed part.now }
{
    let [b'(', rest @ ..] = part else {
        return false;
    };
    let mut depth = 1;
    for (i, b) in rest.iter().enumerate() {
        match b {
            b'(' if depth >= DEEPEST => return false,
            b'(' => depth += 1,
            b')' if depth == 1 => return i + 1 == rest.len(),
            b')' => depth -= 1,
            _ => {}
        }
    }
    false
}

// The first byte is an opening bracket, and the last one a closing bracket.
pub fn in_brackets(part: &[u8]) -> bool
    ensures { result ≡ in_brackets part.now }
{
    part.starts_with(b"(") && part.ends_with(b")")
}

// The line begins as a remark.
pub fn is_remark(part: &[u8]) -> bool
    ensures { result ≡ is_remark part.now }
{
    part.starts_with(b"(remark ") || part.starts_with(b"(remark)")
}

/// The law that the definition of a form rests on: a line is a form by the grammar exactly if its brackets pair up and each of its bytes
/// may stand after the one before it.
pub fn forms_by_grammar()
    ensures { FormsByGrammar }
{}

// The line is a form or a remark.
pub fn is_form(part: &[u8]) -> bool
    ensures { result ≡ is_form part.now }
{
    bracketed(part) && (is_remark(part) || spelled_out(part))
}
