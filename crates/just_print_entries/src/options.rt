//! How a project is listed.
use just_path_text::Text;

/// How a listing shows the other names of recipes.
#[derive(Clone, Copy)]
pub enum AliasStyle {
    /// In front of the doc.
    Left,
    /// Behind the doc.
    Right,
    /// As entries of their own.
    Separate,
    /// Not at all.
    Hidden,
}

/// How a project is listed.
#[derive(Clone, Copy, Drop)]
pub struct ListOptions<'o> {
    /// What is printed first.
    pub heading: &'o str,
    /// What stands before each line, once for each depth.
    pub prefix: &'o str,
    /// The groups that are listed; all where there are none.
    pub groups: &'o [Text],
    /// Whether all stands in the order of the sources.
    pub unsorted: bool,
    pub alias_style: AliasStyle,
    /// Whether modules are listed with what stands in them.
    pub list_submodules: bool,
}
