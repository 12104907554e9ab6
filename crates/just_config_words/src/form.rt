//! The forms of values and of variables.
ghost use Rattle.std.specs.Prelude.{◌≡◌, map};
ghost use Rattle.std.specs.Str.{bytes_eq};
ghost use Rattle.std.specs.Char.{to_ascii_lowercase};
ghost use Rattle.just_config_words.specs.Forms.{is_no, are_in_form};

use super::Form;
use just_lang_read::is_within;
use just_path_text::Text;

impl Form {
    ghost use Rattle.just_config_words.specs.Forms.{is_in_form, gives};

    /// Whether a text is in the form: of `Indentation`, `tab` and `4` are, `17` and `04` aren't.
    pub(crate) fn has(self, text: &str) -> bool
        ensures { result ≡ is_in_form self text.now }
    {
        match self {
            Form::Text | Form::LooseSwitch => true,
            Form::Switch => matches!(text, "true" | "false" | ""),
            Form::Count => is_within(text, 0, 255),
            Form::AliasStyle => matches!(text, "left" | "right" | "separate"),
            Form::DumpFormat => text == "just",
            Form::EvaluateFormat => matches!(text, "just" | "shell"),
            Form::Indentation => text == "tab" || is_within(text, 1, 16),
            Form::Jobs => is_within(text, 1, u64::MAX),
            Form::Vectors => is_within(text, 1, 20_000),
        }
    }

    /// Whether all of the texts are in the form.
    pub(crate) fn has_all(self, texts: &[Text]) -> bool
        ensures { result ≡ are_in_form self texts.now }
    {
        'texts: for text in texts {
            if !self.has(text.as_str()) {
                return false;
            }
        }
        true
    }

    /// Whether a variable of that text, which is in the form, gives its option.
    pub(crate) fn is_given_by(self, text: &str) -> bool
        ensures { result ≡ gives self text.now }
    {
        match self {
            Form::Switch => text == "true",
            Form::LooseSwitch => !is_no(text),
            _ => true,
        }
    }
}

/// Whether a variable's text means no.
fn is_no(text: &str) -> bool
    ensures { result ≡ is_no text.now }
{
    text.is_empty()
        || text.eq_ignore_ascii_case("n")
        || text.eq_ignore_ascii_case("no")
        || text.eq_ignore_ascii_case("f")
        || text.eq_ignore_ascii_case("false")
        || text.eq_ignore_ascii_case("off")
        || text.eq_ignore_ascii_case("0")
}
