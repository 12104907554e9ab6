//! What the grammar asks of the attributes, settings and keys that it knows by name.
ghost use Rattle.std.specs.Prelude.{◌≡◌, map};
ghost use Rattle.just_lang_syntax.specs.Forms.{form_of, is_one_of, attributes, bare_attributes, key_form, is_cache_key, sort_of, settings, flags, is_left_out_setting, is_left_out_attribute};

/// The names of the attributes that have nothing behind them.
const BARE_ATTRIBUTES: [&str; 17] = [
    "default",
    "exit-message",
    "no-cd",
    "no-exit-message",
    "no-quiet",
    "parallel",
    "positional-arguments",
    "private",
    "linux",
    "unix",
    "macos",
    "windows",
    "openbsd",
    "freebsd",
    "netbsd",
    "dragonfly",
    "android",
];

/// The names of the settings that are expressions.
const TEXT_SETTINGS: [&str; 6] = [
    "dotenv-command",
    "dotenv-filename",
    "dotenv-path",
    "indentation",
    "tempdir",
    "working-directory",
];

/// The names of the settings that are flags.
const FLAGS: [&str; 17] = [
    "allow-duplicate-recipes",
    "allow-duplicate-variables",
    "default-list",
    "dotenv-load",
    "dotenv-override",
    "dotenv-required",
    "export",
    "fallback",
    "guards",
    "ignore-comments",
    "lists",
    "no-cd",
    "no-exit-message",
    "positional-arguments",
    "quiet",
    "unstable",
    "windows-powershell",
];

/// Whether a name is one of these.
pub fn is_one_of(names: &[&str], name: &str) -> bool
    ensures { result ≡ is_one_of (map (λ n. n.now) names.now) name.now }
{
    'names: for known in names {
        if name == *known {
            return true;
        }
    }
    false
}

/// What may stand behind the name of an attribute.
#[derive(Clone, Copy)]
pub enum Form {
    /// Nothing.
    Bare,
    /// Nothing, or one text.
    MaybeText,
    /// One text.
    Text,
    /// Nothing, or texts.
    Texts,
    /// A parameter's name, and keys.
    Arg,
    /// Keys with texts.
    Cache,
    /// Anything: the name isn't known, or is left out.
    Open,
}

impl Form {
    ghost use Rattle.just_lang_syntax.specs.Forms.{may_be_bare, has_colon, is_known};

    /// Whether the name of the attribute is known, and isn't left out.
    fn is_known(self) -> bool
        ensures { result ≡ is_known self }
    {
        match self {
            Form::Bare | Form::MaybeText | Form::Text | Form::Texts | Form::Arg | Form::Cache =>
                true,
            Form::Open => false,
        }
    }

    /// Whether nothing may stand behind the name.
    pub fn may_be_bare(self) -> bool
        ensures { result ≡ may_be_bare self }
    {
        match self {
            Form::Bare | Form::MaybeText | Form::Texts | Form::Open => true,
            Form::Text | Form::Arg | Form::Cache => false,
        }
    }

    /// Whether one string may stand behind a colon.
    pub fn has_colon(self) -> bool
        ensures { result ≡ has_colon self }
    {
        match self {
            Form::MaybeText | Form::Text | Form::Texts | Form::Arg | Form::Open => true,
            Form::Bare | Form::Cache => false,
        }
    }
}

/// The form of the attribute with that name.
pub fn form_of(name: &str) -> Form
    ensures { result ≡ form_of name.now }
{
    if is_one_of(&["confirm", "doc"], name) {
        Form::MaybeText
    } else if is_one_of(&["extension", "group", "working-directory"], name) {
        Form::Text
    } else if name == "script" {
        Form::Texts
    } else if name == "arg" {
        Form::Arg
    } else if name == "cache" {
        Form::Cache
    } else if is_bare(name) {
        Form::Bare
    } else {
        Form::Open
    }
}

/// Whether there is an attribute of that name.
#[tactic(auto, using(crate::proofs::Listed::attribute_known))]
pub fn is_attribute(name: &str) -> bool
    ensures { result ≡ is_one_of attributes name.now }
{
    form_of(name).is_known()
}

/// Whether it is the name of an attribute that has nothing behind it.
fn is_bare(name: &str) -> bool
    ensures { result ≡ is_one_of bare_attributes name.now }
{
    is_one_of(&BARE_ATTRIBUTES, name)
}

/// What may stand behind a key of `arg`.
#[derive(Clone, Copy)]
pub enum KeyForm {
    /// Nothing.
    Alone,
    /// Nothing, or `=` and a text.
    Either,
    /// `=` and a text.
    Value,
    /// `=` and a number as a string.
    Number,
    /// It is no key of `arg`.
    Unknown,
}

impl KeyForm {
    ghost use Rattle.just_lang_syntax.specs.Forms.{may_stand_alone};

    /// Whether nothing may stand behind the key.
    pub fn may_stand_alone(self) -> bool
        ensures { result ≡ may_stand_alone self }
    {
        match self {
            KeyForm::Alone | KeyForm::Either => true,
            KeyForm::Value | KeyForm::Number | KeyForm::Unknown => false,
        }
    }
}

/// The form of the key of `arg` with that name.
pub fn key_form(name: &str) -> KeyForm
    ensures { result ≡ key_form name.now }
{
    if is_one_of(&["flag", "multiple"], name) {
        KeyForm::Alone
    } else if name == "long" {
        KeyForm::Either
    } else if is_one_of(&["short", "value", "help", "pattern"], name) {
        KeyForm::Value
    } else if is_one_of(&["min", "max"], name) {
        KeyForm::Number
    } else {
        KeyForm::Unknown
    }
}

/// Whether `cache` has this key.
pub fn is_cache_key(name: &str) -> bool
    ensures { result ≡ is_cache_key name.now }
{
    is_one_of(&["inputs", "outputs", "extra"], name)
}

/// The sorts of settings.
#[derive(Clone, Copy)]
pub enum Sort {
    /// It is set, or `true` or `false`.
    Flag,
    /// An expression.
    Text,
    /// A list of strings.
    List,
    /// Any of these: the name isn't known, or is left out.
    Open,
}

impl Sort {
    ghost use Rattle.just_lang_syntax.specs.Forms.{is_sorted};

    /// Whether the name of the setting is known, and isn't left out.
    fn is_sorted(self) -> bool
        ensures { result ≡ is_sorted self }
    {
        match self {
            Sort::Flag | Sort::Text | Sort::List => true,
            Sort::Open => false,
        }
    }
}

/// Whether there is a setting of that name.
#[tactic(auto, using(crate::proofs::Listed::setting_sorted))]
pub fn is_setting(name: &str) -> bool
    ensures { result ≡ is_one_of settings name.now }
{
    sort_of(name).is_sorted()
}

/// The sort of the setting with that name.
pub fn sort_of(name: &str) -> Sort
    ensures { result ≡ sort_of name.now }
{
    if is_one_of(&TEXT_SETTINGS, name) {
        Sort::Text
    } else if is_one_of(&["shell", "script-interpreter", "windows-shell"], name) {
        Sort::List
    } else if is_flag(name) {
        Sort::Flag
    } else {
        Sort::Open
    }
}

/// Whether it is the name of a setting that is a flag.
fn is_flag(name: &str) -> bool
    ensures { result ≡ is_one_of flags name.now }
{
    is_one_of(&FLAGS, name)
}

/// Whether the setting with that name is left out.
pub fn is_left_out_setting(name: &str) -> bool
    ensures { result ≡ is_left_out_setting name.now }
{
    is_one_of(&["lazy", "minimum-version", "default-script"], name)
}

/// Whether the attribute with that name is left out.
pub fn is_left_out_attribute(name: &str) -> bool
    ensures { result ≡ is_left_out_attribute name.now }
{
    is_one_of(&["env", "metadata", "timestamp"], name)
}
