//! Fences of code blocks.

ghost use Rattle.std.specs.Prelude.{◌≡◌, ◌≤◌, length, drop, Some};
ghost use Rattle.std.specs.List.{list_any, list_all, prefix_len};
ghost use Rattle.just_search_load.specs.Fences.{is_sign, run_of, behind_run, is_blank, is_no_blank, without_blanks, before_blank, first_word, fence_with, backtick_fence, fence_of, closes};

/// A line that opens a code block.
#[derive(Clone, Copy)]
pub struct Fence {
    /// The byte that it begins with.
    pub sign: u8,
    /// How often.
    pub count: usize,
    /// Whether the block is of a justfile.
    pub is_just: bool,
}

fn is_sign(sign: u8, byte: u8) -> bool
    ensures { result ≡ is_sign sign byte }
{
    byte == sign
}

fn is_blank(byte: u8) -> bool
    ensures { result ≡ is_blank byte }
{
    byte == b' ' || byte == b'\t'
}

fn is_no_blank(byte: u8) -> bool
    ensures { result ≡ is_no_blank byte }
{
    !is_blank(byte)
}

/// How many of a sign a line begins with.
#[tactic(auto, using(crate::proofs::Fronts::front_more, crate::proofs::Fronts::front_ends, crate::proofs::Fronts::front_all))]
fn run_of(sign: u8, line: &[u8]) -> usize
    ensures run { result ≡ run_of sign line.now }
    ensures within { result ≤ length line.now }
{
    'bytes: for at in 0..line.len() {
        if !is_sign(sign, line[at]) {
            return at;
        }
    }
    line.len()
}

/// What stands behind them.
fn behind_run(sign: u8, line: &[u8]) -> &[u8]
    ensures { result.now ≡ behind_run sign line.now }
{
    &line[run_of(sign, line)..]
}

/// Whether a sign stands in a text.
fn has_sign(sign: u8, text: &[u8]) -> bool
    ensures { result ≡ list_any (is_sign sign) text.now }
{
    text.contains(&sign)
}

/// Whether a text is of blanks alone.
fn is_all_blank(text: &[u8]) -> bool
    ensures { result ≡ list_all is_blank text.now }
{
    text.iter().all(|byte| is_blank(*byte))
}

/// How many blanks stand in front of a text.
#[tactic(auto, using(crate::proofs::Fronts::front_more, crate::proofs::Fronts::front_ends, crate::proofs::Fronts::front_all))]
fn blanks_in_front(text: &[u8]) -> usize
    ensures blanks { result ≡ prefix_len is_blank text.now }
    ensures within { result ≤ length text.now }
{
    'bytes: for at in 0..text.len() {
        if !is_blank(text[at]) {
            return at;
        }
    }
    text.len()
}

/// How many bytes stand before the first blank of a text.
#[tactic(auto, using(crate::proofs::Fronts::front_more, crate::proofs::Fronts::front_ends, crate::proofs::Fronts::front_all))]
fn end_of_word(text: &[u8]) -> usize
    ensures bytes { result ≡ prefix_len is_no_blank text.now }
    ensures within { result ≤ length text.now }
{
    'bytes: for at in 0..text.len() {
        if !is_no_blank(text[at]) {
            return at;
        }
    }
    text.len()
}

/// A text without the blanks in front.
fn without_blanks(text: &[u8]) -> &[u8]
    ensures { result.now ≡ without_blanks text.now }
{
    &text[blanks_in_front(text)..]
}

/// What stands before the first blank of a text.
fn before_blank(text: &[u8]) -> &[u8]
    ensures { result.now ≡ before_blank text.now }
{
    &text[..end_of_word(text)]
}

/// The first word of a text.
fn first_word(text: &[u8]) -> &[u8]
    ensures { result.now ≡ first_word text.now }
{
    before_blank(without_blanks(text))
}

/// A fence of a sign.
fn fence_with(sign: u8, line: &[u8]) -> Option<Fence>
    ensures { result ≡ fence_with sign line.now }
{
    let count = run_of(sign, line);
    if count < 3 {
        return None;
    }
    let is_just = first_word(behind_run(sign, line)) == b"just".as_slice();
    Some(Fence {
        sign,
        count,
        is_just,
    })
}

/// A fence of backticks.
fn backtick_fence(line: &[u8]) -> Option<Fence>
    ensures { result ≡ backtick_fence line.now }
{
    if has_sign(b'`', behind_run(b'`', line)) {
        return None;
    }
    fence_with(b'`', line)
}

/// The fence that a line is.
pub(crate) fn fence_of(line: &[u8]) -> Option<Fence>
    ensures { result ≡ fence_of line.now }
{
    match backtick_fence(line) {
        Some(fence) => Some(fence),
        None => fence_with(b'~', line),
    }
}

/// Whether a line closes the block of a fence.
pub(crate) fn closes(fence: Fence, line: &[u8]) -> bool
    ensures { result ≡ closes fence line.now }
{
    run_of(fence.sign, line) >= fence.count && is_all_blank(behind_run(fence.sign, line))
}
