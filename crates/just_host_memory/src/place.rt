//! Places: clean absolute paths, at which the things of a tree stand.
ghost use Rattle.std.specs.Prelude.{◌≡◌, true, IfOk};
ghost use Rattle.just_path.specs.Path.{text_of, is_absolute};
ghost use Rattle.just_path.specs.Clean.{is_clean_absolute};
ghost use Rattle.just_path.specs.Comps.{slash};
ghost use Rattle.just_path.specs.View.{place_under};

use just_path::{Utf8Path, Utf8PathBuf};
use just_path_text::NoMemory;
use std::alloc::Global;

/// A clean absolute path.
#[derive(Debug)]
pub struct Place {
    /// The path; it begins with `/`, and has no `.`, no `..` and no empty component.
    pub path: Utf8PathBuf,
    pub ghost clean: { is_clean_absolute path ≡ true },
}

impl Drop for Place {
    fn drop(self) {
        let Place { path: _ } = self;
    }
}

impl Place {
    /// The place of a path under the root.
    pub fn new(alloc: Global, path: Utf8Path<'_>) -> Result<Place, NoMemory>
        ensures { IfOk result (λ p. p.path ≡ place_under slash (text_of path.entry)) }
    {
        Place::under(alloc, Utf8Path::new("/"), path)
    }

    /// The place of a path under an absolute folder.
    pub fn under(alloc: Global, folder: Utf8Path<'_>, path: Utf8Path<'_>) -> Result<Place, NoMemory>
        requires { is_absolute (text_of folder) ≡ true }
        ensures { IfOk result (λ p. p.path ≡ place_under (text_of folder.entry) (text_of path.entry)) }
    {
        let whole = folder.join(alloc, path)?;
        let path = whole.as_path().clean(alloc)?;
        Ok(Place { path })
    }

    /// The path; it is absolute.
    pub fn as_path(&self) -> Utf8Path<'_>
        ensures text { text_of result ≡ self.now.path }
        ensures absolute { is_absolute (text_of result) ≡ true }
    {
        self.path.as_path()
    }

    /// The text of the path.
    pub fn as_str(&self) -> &str
        ensures { result.now ≡ self.now.path }
    {
        self.path.as_str()
    }

    /// The path, which is handed on.
    pub fn into_path(self) -> Utf8PathBuf
        ensures { result ≡ self.path }
    {
        let Place { path } = self;
        path
    }
}
