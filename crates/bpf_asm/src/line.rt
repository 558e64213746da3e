//! The parts of a line: its word, and its operands between commas.

ghost use Rattle.std.specs.Prelude.{◌≡◌, ◌≤◌, ◌∷◌, ◌==◌, length, option_map};
ghost use Rattle.std.specs.List.{position_or_len, before_first};
ghost use Rattle.bpf_asm.specs.Reading as definitions;
ghost use Rattle.bpf_asm.specs.Reading.{is_space, is_comma, after_spaces, before_spaces, operands_in, rest_of};

/// Where the first such byte of a text is, or the text's length.
pub fn place_of(byte: u8, text: &[u8]) -> usize
    ensures is { result ≡ position_or_len (λ b. b == byte) text.now }
    ensures is_within { result ≤ length text.now }
{
    for place in 0..text.len() {
        if text[place] == byte {
            return place;
        }
    }
    text.len()
}

/// A text without the spaces before it.
fn after_spaces(text: &[u8]) -> &[u8]
    ensures { result.now ≡ after_spaces text.now }
{
    for place in 0..text.len() {
        if text[place] != b' ' {
            return &text[place..];
        }
    }
    &[]
}

/// A text without the spaces at its end.
fn before_spaces(text: &[u8]) -> &[u8]
    ensures { result.now ≡ before_spaces text.now }
{
    let mut end = text.len();
    while end > 0 {
        if text[end - 1] != b' ' {
            return &text[..end];
        }
        end -= 1;
    }
    &[]
}

/// A line without the spaces at its ends.
pub fn trimmed(line: &[u8]) -> &[u8]
    ensures { result.now ≡ before_spaces (after_spaces line.now) }
{
    before_spaces(after_spaces(line))
}

/// The word of a line, and what is after its first space, if it has one.
pub fn word_and_rest(line: &[u8]) -> (&[u8], Option<&[u8]>)
    ensures word { result.0.now ≡ before_first is_space line.now }
    ensures rest { option_map (λ r. r.now) result.1 ≡ rest_of line.now }
{
    let end = place_of(b' ', line);
    if end < line.len() {
        (&line[..end], Some(&line[end + 1..]))
    } else {
        (line, None)
    }
}

/// The first operand of a text, without the spaces before it, and what is after its comma.
fn first(text: &[u8]) -> (&[u8], Option<&[u8]>)
    ensures { operands_in (Some text.now) ≡ result.0.now ∷ operands_in (option_map (λ r. r.now) result.1) }
{
    let end = place_of(b',', text);
    if end < text.len() {
        (after_spaces(&text[..end]), Some(&text[end + 1..]))
    } else {
        (after_spaces(text), None)
    }
}

/// The operand of the rest of a line, if there is exactly one.
pub fn one(rest: Option<&[u8]>) -> Option<&[u8]>
    ensures { option_map (λ r. r.now) result ≡ definitions.single (operands_in (option_map (λ r. r.now) rest.entry)) }
{
    let text = rest?;
    match first(text) {
        (operand, None) => Some(operand),
        (_, Some(_)) => None,
    }
}

/// The operands of the rest of a line, if there are exactly two.
pub fn two(rest: Option<&[u8]>) -> Option<(&[u8], &[u8])>
    ensures { option_map (λ r. (r.0.now, r.1.now)) result ≡ definitions.pair (operands_in (option_map (λ r. r.now) rest.entry)) }
{
    let text = rest?;
    let (operand, rest) = first(text);
    let second = one(rest)?;
    Some((operand, second))
}

/// The operands of the rest of a line, if there are exactly three.
pub fn three(rest: Option<&[u8]>) -> Option<(&[u8], &[u8], &[u8])>
    ensures { option_map (λ r. (r.0.now, r.1.now, r.2.now)) result ≡ definitions.triple (operands_in (option_map (λ r. r.now) rest.entry)) }
{
    let text = rest?;
    let (operand, rest) = first(text);
    let (second, third) = two(rest)?;
    Some((operand, second, third))
}
