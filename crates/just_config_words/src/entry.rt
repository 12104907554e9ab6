//! What the table of options says of an option.

use just_path_text::Text;

/// The kinds of options.
#[derive(Clone, Copy)]
pub enum Kind {
    /// It is set where it stands, and stands once.
    Flag,
    /// It counts how often it stands.
    Counter,
    /// It has one value, and stands once.
    Single,
    /// It may stand several times, each time with values.
    Repeatable,
    /// It says what is done in place of a run.
    Command,
    /// It asks for the help.
    Help,
    /// It asks for the version.
    Version,
    /// An option of `just` that isn't read here.
    LeftOut,
}

/// The words that an option takes as its values. But for `Any` and `Rest`, a value doesn't begin with `-`, unless it is `-` alone or stands
/// behind `=`.
#[derive(Clone, Copy)]
pub enum Values {
    /// No word.
    Nothing,
    /// One word.
    One,
    /// One word, whatever it begins with.
    Any,
    /// Two words.
    Two,
    /// The words up to the next option; none is allowed.
    Following,
    /// The words up to the next option, at least one.
    AtLeastOne,
    /// All words to the end, at least one.
    Rest,
}

/// The form of an option's values, and of its variable.
#[derive(Clone, Copy)]
pub enum Form {
    /// Any text.
    Text,
    /// `true`, or `false` or nothing, which leave a flag unset.
    Switch,
    /// Any text; an empty one, `n`, `no`, `f`, `false`, `off` and `0` leave a flag unset.
    LooseSwitch,
    /// A decimal number from 0 to 255.
    Count,
    /// `left`, `right` or `separate`.
    AliasStyle,
    /// `just`.
    DumpFormat,
    /// `just` or `shell`.
    EvaluateFormat,
    /// `tab`, or a decimal number from 1 to 16.
    Indentation,
    /// A decimal number from 1 to 18,446,744,073,709,551,615.
    Jobs,
    /// A decimal number from 1 to 20,000.
    Vectors,
}

/// An option, as the table has it.
pub struct Entry {
    /// Its first long name, without dashes.
    pub name: Text,
    pub kind: Kind,
    pub values: Values,
    pub form: Form,
}

impl Drop for Entry {
    fn drop(self) {
        let Entry {
            name: _,
            kind: _,
            values: _,
            form: _,
        } = self;
    }
}
