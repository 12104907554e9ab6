//! Versions.
ghost use Rattle.std.specs.Prelude.{◌≡◌, IfOk, IfErr, None, Some, codes};
ghost use Rattle.just_config.specs.Versions.{version_of, number_of, version_text};

use just_config_words::cut::cut;
use just_lang_read::decimal;
use std::fmt;

/// A version: three numbers of one to nine digits.
#[derive(Clone, Copy)]
pub struct Version {
    pub major: u64,
    pub minor: u64,
    pub patch: u64,
}

/// The number of a text of at most nine digits.
fn number_of(text: &str) -> Option<u64>
    ensures { result ≡ number_of text.now }
{
    if text.len() <= 9 { decimal(text) } else { None }
}

/// The version of a text.
fn version_of(text: &str) -> Option<Version>
    ensures { result ≡ version_of text.now }
{
    let (major, rest) = cut(text, '.')?;
    let (minor, patch) = cut(rest, '.')?;
    Some(Version {
        major: number_of(major)?,
        minor: number_of(minor)?,
        patch: number_of(patch)?,
    })
}

impl Version {
    /// The version of a text: three numbers of one to nine digits without zeros in front, joined by dots.
    ///
    /// ```
    /// assert!(matches!(Version::from_str("1.58.0"), Ok(version) if version.minor == 58) && Version::from_str("01.2.3").is_err());
    /// ```
    pub fn from_str(text: &str) -> Result<Version, &'static str>
        ensures read { IfOk result (λ v. version_of text.now ≡ Some v) }
        ensures refused { IfErr result (λ e. (version_of text.now ≡ None) × (e.now ≡ codes "expected `MAJOR.MINOR.PATCH`")) }
    {
        match version_of(text) {
            Some(version) => Ok(version),
            None => Err("expected `MAJOR.MINOR.PATCH`"),
        }
    }

    /// The version of `just` whose words, files and texts are read and written here.
    pub fn current() -> Version
        ensures { result ≡ record { major = 1; minor = 58; patch = 0 } }
    {
        Version {
            major: 1,
            minor: 58,
            patch: 0,
        }
    }
}

impl fmt::Display for Version {
    ghost output = { λ v. Some (version_text v) };

    /// The three numbers with dots between: `1.58.0`.
    fn fmt<W: fmt::Write>(&self, f: &mut fmt::Formatter<W>) -> fmt::Result {
        write!(f, "{}.{}.{}", self.major, self.minor, self.patch)
    }
}
