//! The sigils in front of a line.

ghost use Rattle.std.specs.Prelude.{◌≡◌};
ghost use Rattle.just_eval.specs.Bodies.{no_sigils, with_sigil, split_sigils};

/// The sigils in front of a line.
#[derive(Clone, Copy)]
pub(crate) struct Sigils {
    /// `@`
    pub(crate) quiet: bool,
    /// `-`
    pub(crate) forgiving: bool,
    /// `?`
    pub(crate) guard: bool,
}

/// The sigils with one more, where the character is a sigil that isn't among them.
fn with_sigil(guards: bool, read: Sigils, sign: u8) -> Option<Sigils>
    ensures { result ≡ with_sigil guards read sign }
{
    if sign == b'@' && !read.quiet {
        return Some(Sigils {
            quiet: true,
            forgiving: read.forgiving,
            guard: read.guard,
        });
    }
    if sign == b'-' && !read.forgiving {
        return Some(Sigils {
            quiet: read.quiet,
            forgiving: true,
            guard: read.guard,
        });
    }
    if sign == b'?' && guards && !read.guard {
        return Some(Sigils {
            quiet: read.quiet,
            forgiving: read.forgiving,
            guard: true,
        });
    }
    None
}

/// The sigils in front of a text, each once and in any order, and the text behind them.
#[tactic(auto, using(crate::proofs::Signs::sign_more, crate::proofs::Signs::no_sign, crate::proofs::Signs::all_signs))]
pub(crate) fn split_sigils(guards: bool, text: &str) -> (Sigils, &str)
    ensures sigils { result.0 ≡ (split_sigils guards no_sigils text.now).0 }
    ensures behind { result.1.now ≡ (split_sigils guards no_sigils text.now).1 }
{
    let bytes = text.as_bytes();
    let mut read = Sigils {
        quiet: false,
        forgiving: false,
        guard: false,
    };
    'bytes: for at in 0..bytes.len() {
        match with_sigil(guards, read, bytes[at]) {
            Some(more) => read = more,
            None => return (read, &text[at..]),
        }
    }
    (read, "")
}
