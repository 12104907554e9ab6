//! What is wrong at a word.
ghost use Rattle.std.specs.Prelude.{◌≡◌, ◌&&◌, ◌||◌, [], IfOk, bytes_eq, take};
ghost use Rattle.std.specs.List.{list_any};
ghost use Rattle.just_config_words.specs.Faults.{is_unknown, is_left_out, are_json, is_ill_joined, lacks_value, has_surplus, is_ill_formed, is_of_option, is_repeat, has_repeat, fault_of, test_of, asks_for_help, asks_for_version};

use super::occurrence::is_given;
use super::parsed::is_value;
use super::{Attached, Occurrence, ParsedOption, UsageKind, Values};
use just_path_text::Text;

/// Whether the values are the one value `json`.
fn are_json(values: &[Text]) -> bool
    ensures { result ≡ are_json values.now }
{
    match values {
        [value] => value.as_str() == "json",
        _ => false,
    }
}

/// Whether what is joined to a letter is no value.
fn is_ill_joined(values: Values, attached: &Attached) -> bool
    ensures { result ≡ is_ill_joined values attached.now }
{
    match attached {
        Attached::Joined(text) => !(values.takes_any() || is_value(text.as_str())),
        Attached::Nothing | Attached::Assigned(_) => false,
    }
}

/// What an option of a word is tested for.
#[derive(Clone, Copy)]
pub(crate) enum Test {
    /// There is no such option.
    Unknown,
    /// It is left out.
    LeftOut,
    /// It has too few values.
    LacksValue,
    /// It has a value and takes none.
    Surplus,
    /// A value isn't in the form.
    IllFormed,
    /// It asks for the help.
    Help,
    /// It asks for the version.
    Version,
}

impl ParsedOption {
    /// Whether it is what the test says.
    fn passes(&self, test: Test) -> bool
        ensures { result ≡ test_of test self.now }
    {
        match test {
            Test::Unknown => self.option.is_none(),
            Test::LeftOut => self.is_left_out(),
            Test::LacksValue => self.lacks_value(),
            Test::Surplus => self.has_surplus(),
            Test::IllFormed => self.is_ill_formed(),
            Test::Help => self.asks_for_help(),
            Test::Version => self.asks_for_version(),
        }
    }

    /// Whether it is an option that is left out, or the left-out value of `--dump-format`.
    fn is_left_out(&self) -> bool
        ensures { result ≡ is_left_out self.now }
    {
        match &self.option {
            None => false,
            Some(entry) => {
                entry.kind.is_left_out()
                    || (entry.name.as_str() == "dump-format" && are_json(self.values.as_slice()))
            }
        }
    }

    /// Whether it has too few values.
    fn lacks_value(&self) -> bool
        ensures { result ≡ lacks_value self.now }
    {
        match &self.option {
            None => false,
            Some(entry) => {
                is_ill_joined(entry.values, &self.attached)
                    || self.values.len() < entry.values.least()
            }
        }
    }

    /// Whether it has a value and takes none.
    fn has_surplus(&self) -> bool
        ensures { result ≡ has_surplus self.now }
    {
        match &self.option {
            None => false,
            Some(entry) => entry.values.takes_nothing() && !self.attached.is_nothing(),
        }
    }

    /// Whether a value isn't in the form.
    fn is_ill_formed(&self) -> bool
        ensures { result ≡ is_ill_formed self.now }
    {
        match &self.option {
            None => false,
            Some(entry) => {
                !entry.values.takes_nothing() && !entry.form.has_all(self.values.as_slice())
            }
        }
    }

    /// Whether it is of the option of that name.
    fn is_of(&self, name: &str) -> bool
        ensures { result ≡ is_of_option name.now self.now }
    {
        match &self.option {
            None => false,
            Some(entry) => entry.name.as_str() == name,
        }
    }

    /// Whether it may stand once, and stands before, in the words or in its own word.
    fn is_repeat(&self, before: &[Occurrence], earlier: &[ParsedOption]) -> bool
        ensures { result ≡ is_repeat before.now earlier.now self.now }
    {
        match &self.option {
            None => false,
            Some(entry) => {
                let name = entry.name.as_str();
                entry.kind.is_once() && (is_given(name, before) || has_option(name, earlier))
            }
        }
    }

    /// Whether it asks for the help.
    fn asks_for_help(&self) -> bool
        ensures { result ≡ asks_for_help self.now }
    {
        match &self.option {
            None => false,
            Some(entry) => entry.kind.is_help(),
        }
    }

    /// Whether it asks for the version.
    fn asks_for_version(&self) -> bool
        ensures { result ≡ asks_for_version self.now }
    {
        match &self.option {
            None => false,
            Some(entry) => entry.kind.is_version(),
        }
    }
}

/// Whether one of the options of a word is what the test says.
pub(crate) fn has(test: Test, parsed: &[ParsedOption]) -> bool
    ensures { result ≡ list_any (test_of test) parsed.now }
{
    'parsed: for one in parsed {
        if one.passes(test) {
            return true;
        }
    }
    false
}

/// Whether one of the options of a word is the one of that name.
fn has_option(name: &str, parsed: &[ParsedOption]) -> bool
    ensures { result ≡ list_any (is_of_option name.now) parsed.now }
{
    parsed.iter().any(|one| one.is_of(name))
}

/// Whether one of the options stands twice that may stand once.
fn has_repeat(before: &[Occurrence], parsed: &[ParsedOption]) -> bool
    ensures { result ≡ has_repeat before.now [] parsed.now }
{
    let mut index = 0;
    'parsed: while index < parsed.len() {
        if parsed[index].is_repeat(before, &parsed[..index]) {
            return true;
        }
        index += 1;
    }
    false
}

/// The fault of a word with these options, behind those before: the first kind of this list that comes at one of its options.
pub(crate) fn fault_of(before: &[Occurrence], parsed: &[ParsedOption]) -> Option<UsageKind>
    ensures { result ≡ fault_of before.now parsed.now }
{
    if has(Test::Unknown, parsed) {
        Some(UsageKind::Unknown)
    } else if has(Test::LeftOut, parsed) {
        Some(UsageKind::LeftOut)
    } else if has(Test::LacksValue, parsed) {
        Some(UsageKind::MissingValue)
    } else if has(Test::Surplus, parsed) {
        Some(UsageKind::UnexpectedValue)
    } else if has(Test::IllFormed, parsed) {
        Some(UsageKind::BadValue)
    } else if has_repeat(before, parsed) {
        Some(UsageKind::Repeated)
    } else {
        None
    }
}
