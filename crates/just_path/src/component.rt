//! A component of a path.
ghost use Rattle.std.specs.Prelude.{◌≡◌};
ghost use Rattle.just_path.specs.Comps.{comp_text, comps_of_piece};
ghost use Rattle.std.specs.Option.{option_copied};
ghost use Rattle.just_path.specs.Names.{name_of};
ghost use Rattle.just_path.specs.Component.{comp_of, one_of};

use super::Utf8PrefixComponent;

/// A component of a path.
#[derive(Clone, Copy, PartialEq, Eq, PartialOrd, Ord, Hash)]
pub enum Utf8Component<'a> {
    /// No Unix path has one.
    Prefix(Utf8PrefixComponent<'a>),
    /// The root, `/`.
    RootDir,
    /// A `.` in front of a relative path.
    CurDir,
    /// `..`
    ParentDir,
    /// A name.
    Normal(&'a str),
}

impl<'a> Utf8Component<'a> {
    /// The text of the component: `/`, `.`, `..` or the name.
    ///
    /// ```
    /// assert!(Utf8Component::ParentDir.as_str() == "..");
    /// ```
    pub fn as_str(&self) -> &'a str
        ensures { result.now ≡ comp_text (comp_of self.now) }
    {
        match *self {
            Utf8Component::Prefix(prefix) => prefix.as_str(),
            Utf8Component::RootDir => "/",
            Utf8Component::CurDir => ".",
            Utf8Component::ParentDir => "..",
            Utf8Component::Normal(name) => name,
        }
    }

    /// The text of a name.
    pub(crate) fn name(&self) -> Option<&'a str>
        ensures { option_copied result ≡ name_of (comp_of self.now) }
    {
        match *self {
            Utf8Component::Prefix(_) => None,
            Utf8Component::RootDir => None,
            Utf8Component::CurDir => None,
            Utf8Component::ParentDir => None,
            Utf8Component::Normal(name) => Some(name),
        }
    }

    /// The text's bytes.
    ///
    /// ```
    /// assert!(Utf8Component::Normal("a").as_os_str() == b"a".as_slice());
    /// ```
    pub fn as_os_str(&self) -> &'a [u8]
        ensures { result.now ≡ comp_text (comp_of self.now) }
    {
        self.as_str().as_bytes()
    }
}

/// The component that a piece between slashes gives, if it gives one.
pub(crate) fn component_of(piece: &str) -> Option<Utf8Component<'_>>
    ensures { one_of result ≡ comps_of_piece piece.now }
{
    match piece {
        "" => None,
        "." => None,
        ".." => Some(Utf8Component::ParentDir),
        name => Some(Utf8Component::Normal(name)),
    }
}
