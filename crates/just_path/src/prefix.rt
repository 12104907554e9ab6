//! The prefixes that a path has on Windows, kept since their types are public; no path here gives one.
ghost use Rattle.std.specs.Prelude.{◌≡◌, Bool};
ghost use Rattle.just_path.specs.Prefix.{is_verbatim, prefix_text, prefix_kind};

/// The prefixes that a path has on Windows. No Unix path gives one.
#[derive(Clone, Copy, PartialEq, Eq, PartialOrd, Ord, Hash)]
pub enum Utf8Prefix<'a> {
    /// `\\?\NAME`
    Verbatim(&'a str),
    /// `\\?\UNC\SERVER\SHARE`
    VerbatimUNC(&'a str, &'a str),
    /// `\\?\C:`
    VerbatimDisk(u8),
    /// `\\.\NAME`
    DeviceNS(&'a str),
    /// `\\SERVER\SHARE`
    UNC(&'a str, &'a str),
    /// `C:`
    Disk(u8),
}

impl<'a> Utf8Prefix<'a> {
    /// Whether the prefix begins with `\\?\`.
    ///
    /// ```
    /// assert!(!Utf8Prefix::Disk(b'C').is_verbatim());
    /// ```
    pub fn is_verbatim(&self) -> bool
        ensures { result ≡ is_verbatim self.now }
    {
        match self {
            Utf8Prefix::Verbatim(_) => true,
            Utf8Prefix::VerbatimUNC(_, _) => true,
            Utf8Prefix::VerbatimDisk(_) => true,
            Utf8Prefix::DeviceNS(_) => false,
            Utf8Prefix::UNC(_, _) => false,
            Utf8Prefix::Disk(_) => false,
        }
    }
}

/// A prefix with its text. Comparisons read the parsed prefix alone.
#[derive(Clone, Copy)]
#[derive_where(PartialEq, Eq, PartialOrd, Ord, Hash)]
pub struct Utf8PrefixComponent<'a> {
    #[derive_where(skip(EqHashOrd))]
    raw: &'a str,
    parsed: Utf8Prefix<'a>,
}

impl<'a> Utf8PrefixComponent<'a> {
    /// The parsed prefix.
    ///
    /// ```
    /// let kind = prefix.kind();
    /// ```
    pub fn kind(&self) -> Utf8Prefix<'a>
        ensures { result ≡ prefix_kind self.now }
    {
        self.parsed
    }

    /// The text, as it stood.
    ///
    /// ```
    /// let text = prefix.as_str();
    /// ```
    pub fn as_str(&self) -> &'a str
        ensures { result.now ≡ prefix_text self.now }
    {
        self.raw
    }

    /// The text's bytes.
    ///
    /// ```
    /// let bytes = prefix.as_os_str();
    /// ```
    pub fn as_os_str(&self) -> &'a [u8]
        ensures { result.now ≡ prefix_text self.now }
    {
        self.raw.as_bytes()
    }
}
