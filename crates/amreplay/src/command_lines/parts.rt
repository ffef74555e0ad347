//! Cutting a command line into its word and its argument, at white space. The parts are slices of
//! the line, so this takes no memory.
ghost use Rattle.std.specs.Prelude.{◌≡◌, ◌≤◌, length};
ghost use Rattle.std.specs.List.{prefix_len, position_or_len};
ghost use Rattle.amr_events.specs.Scripts.{is_space as is_space_byte};
ghost use Rattle.amreplay.specs.CommandLines.Parts.{trimmed_front, trimmed_back, without_outer_space as trimmed_text, word_in, argument_in};

/// Returns whether the byte is white space of JSON (RFC 8259).
fn is_space(byte: u8) -> bool
    ensures { result ≡ is_space_byte byte }
{
    matches!(byte, b' ' | b'\t' | b'\n' | b'\r')
}

/// Returns how many bytes of white space the text begins with.
#[tactic(auto, using(crate::proofs::CommandLinesLemmas::Fronts::front_len))]
fn space_len(text: &[u8]) -> usize
    ensures value { result ≡ prefix_len is_space_byte text.now }
    ensures bound { result ≤ length text.now }
{
    text.iter().take_while(|byte| is_space(**byte)).count()
}

/// Returns how many bytes are before the first white space.
#[tactic(auto, using(crate::proofs::CommandLinesLemmas::Fronts::front_len))]
fn word_len(text: &[u8]) -> usize
    ensures value { result ≡ position_or_len is_space_byte text.now }
    ensures bound { result ≤ length text.now }
{
    text.iter().take_while(|byte| !is_space(**byte)).count()
}

/// Returns the text without the white space that it begins with.
fn without_front(text: &[u8]) -> &[u8]
    ensures { result.now ≡ trimmed_front text.now }
{
    &text[space_len(text)..]
}

/// Returns the text without the white space that it ends with.
fn without_back(text: &[u8]) -> &[u8]
    ensures { result.now ≡ trimmed_back text.now }
{
    let mut end = text.len();
    while end > 0 && is_space(text[end - 1]) {
        end -= 1;
    }
    &text[..end]
}

/// Returns a line without the white space at both ends.
pub(crate) fn trimmed(line: &[u8]) -> &[u8]
    ensures { result.now ≡ trimmed_text line.now }
{
    without_back(without_front(line))
}

/// Returns what is before the first white space.
pub(crate) fn word(text: &[u8]) -> &[u8]
    ensures { result.now ≡ word_in text.now }
{
    &text[..word_len(text)]
}

/// Returns what is after the word and the white space that follows it.
pub(crate) fn argument(text: &[u8]) -> &[u8]
    ensures { result.now ≡ argument_in text.now }
{
    without_front(&text[word_len(text)..])
}
