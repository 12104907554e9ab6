//! Texts that are cut at some of their characters.

ghost use Rattle.std.specs.Prelude.{◌≡◌};
ghost use Rattle.std.specs.Option.{option_map};
ghost use Rattle.just_exec_work.specs.Cuts.{is_blank, is_newline, is_separator, before_first, behind_first, last_piece};

fn is_blank(byte: u8) -> bool
    ensures { result ≡ is_blank byte }
{
    byte == b' ' || byte == b'\t'
}

fn is_newline(byte: u8) -> bool
    ensures { result ≡ is_newline byte }
{
    byte == b'\n'
}

fn is_separator(byte: u8) -> bool
    ensures { result ≡ is_separator byte }
{
    byte == b'/' || byte == b'\\'
}

/// The first line of a text, without its end.
#[tactic(auto, using(crate::proofs::CutTexts::before_more, crate::proofs::CutTexts::before_ends, crate::proofs::CutTexts::all_before))]
pub(crate) fn first_line(text: &str) -> &str
    ensures { result.now ≡ before_first is_newline text.now }
{
    let bytes = text.as_bytes();
    'bytes: for at in 0..bytes.len() {
        if is_newline(bytes[at]) {
            return &text[..at];
        }
    }
    text
}

/// What stands before the first blank of a text and, where there is one, behind it.
#[tactic(auto, using(crate::proofs::CutTexts::before_more, crate::proofs::CutTexts::before_ends, crate::proofs::CutTexts::all_before, crate::proofs::CutTexts::behind_more, crate::proofs::CutTexts::behind_begins, crate::proofs::CutTexts::none_behind))]
pub(crate) fn split_at_blank(text: &str) -> (&str, Option<&str>)
    ensures before { result.0.now ≡ before_first is_blank text.now }
    ensures behind { option_map (λ t. t.now) result.1 ≡ behind_first is_blank text.now }
{
    let bytes = text.as_bytes();
    'bytes: for at in 0..bytes.len() {
        if is_blank(bytes[at]) {
            return (&text[..at], Some(&text[at + 1..]));
        }
    }
    (text, None)
}

/// What stands behind the last `/` or `\` of a text; all where there is none.
#[tactic(auto, using(crate::proofs::LastPieces::piece_begins, crate::proofs::LastPieces::piece_after, crate::proofs::LastPieces::piece_more, crate::proofs::LastPieces::piece_ends))]
pub(crate) fn last_piece(text: &str) -> &str
    ensures { result.now ≡ last_piece text.now }
{
    let bytes = text.as_bytes();
    let mut from = 0;
    'bytes: for at in 0..bytes.len() {
        if is_separator(bytes[at]) {
            from = at + 1;
        }
    }
    &text[from..]
}
