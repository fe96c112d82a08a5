//! Counting the bytes of a text that need no escape, eight at a time.
ghost use Rattle.std.specs.Prelude.{◌≡◌, ◌<◌, ◌≤◌, false, not, length, take, get_or, position, flat_map};
ghost use Rattle.std.specs.List.{list_all};
ghost use Rattle.pv_model.specs.Machine.{is_plain as parses_as_itself, quote_byte};

// The number of bytes that are tested at once.
const AT_ONCE: usize = 8;

// Returns whether a byte represents itself between quotation marks. It has no branch, so that several bytes can be
// tested at once.
#[inline]
fn is_plain(byte: u8) -> bool
    ensures { result ≡ parses_as_itself byte }
{
    (b' '..=b'~').contains(&byte) & (byte != b'"') & (byte != b'\\')
}

// Returns whether each of some bytes represents itself.
#[inline]
fn are_plain(bytes: &[u8; AT_ONCE]) -> bool
    ensures { result ≡ list_all parses_as_itself bytes.now }
{
    let mut plain = true;
    for byte in bytes {
        plain &= is_plain(*byte);
    }
    plain
}

// Returns the index of the first byte of a text that does not represent itself.
#[inline]
fn plain_end(text: &[u8]) -> Option<usize>
    ensures { result ≡ position (λ byte. not (parses_as_itself byte)) text.now }
{
    text.iter().position(|byte| !is_plain(*byte))
}

// Returns the number of bytes at the start of a text that represent themselves. It tests them one by one.
#[inline]
#[tactic(auto, using(crate::proofs::UnescapedFronts::front_within, crate::proofs::UnescapedFronts::front_same, crate::proofs::UnescapedFronts::front_ends))]
fn plain_front(text: &[u8]) -> usize
    ensures within { result ≤ length text.now }
    ensures same { flat_map quote_byte (take result text.now) ≡ take result text.now }
    ensures next { result < length text.now → parses_as_itself (get_or text.now result 0) ≡ false }
{
    plain_end(text).unwrap_or(text.len())
}

/// Returns the number of bytes at the start of a text that represent themselves between quotation marks.
#[inline]
#[tactic(auto, using(crate::proofs::UnescapedFronts::onward_same))]
pub fn plain_count(text: &[u8]) -> usize
    ensures within { result ≤ length text.now }
    ensures same { flat_map quote_byte (take result text.now) ≡ take result text.now }
    ensures next { result < length text.now → parses_as_itself (get_or text.now result 0) ≡ false }
{
    let mut rest = text;
    while let Some((component, following)) = rest.split_first_chunk::<AT_ONCE>() {
        if !are_plain(component) {
            break;
        }
        rest = following;
    }
    text.len() - rest.len() + plain_front(rest)
}
