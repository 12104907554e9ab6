//! The parts of a path: components, parents, file name, and what stands behind a base.
ghost use Rattle.std.specs.Prelude.{◌≡◌, ◌++◌, ℕ, List, ◌<◌, IfOk, IfSome, MatchResult, length, take, map, true, false, option_map, option_and_then, Some};
ghost use Rattle.std.specs.Option.{option_copied};
ghost use Rattle.just_path.specs.Path.{text_of, pushed};
ghost use Rattle.just_path.specs.Comps.{Comp, comp_text, comps, has_prefix};
ghost use Rattle.just_path.specs.Parts.{slice, parent_of, parent_of_lead, HasOneLess};
ghost use Rattle.just_path.specs.Component.{one_of};
ghost use Rattle.just_path.specs.Names.{file_name_of, stem_of, prefix_of, extension_of};
ghost use Rattle.just_path.specs.Mixture.{Move, Walks, IsWalkOver};
ghost use Rattle.just_path.specs.declared.components.Utf8Components.{Utf8Components};
ghost use Rattle.just_path.specs.declared.iter.Iter.{Iter};
ghost use Rattle.just_path.specs.Order.{begins_with, ends_with};
ghost use Rattle.just_path.specs.Walk.{comps_left, slice_left, texts_left, texts_slice_left};
ghost use Rattle.just_path.specs.Ancestors.{ancestors_of, ancestors_left};

use super::name::{extension_of, prefix_of, stem_of};
use super::order::{begins_with, ends_with, same};
use super::scan::leading;
use super::walk::{last_name, trim_back};
use super::{Iter, StripPrefix, Utf8Ancestors, Utf8Component, Utf8Components, Utf8Path};

impl<'a> Utf8Path<'a> {
    /// The components, from either end: the root or the `.` in front, then names and `..`. Empty pieces and any other `.`
    /// give none.
    ///
    /// ```
    /// let mut components = Utf8Path::new("./a//b/./..").components();
    /// assert!(components.next() == Some(Utf8Component::CurDir));
    /// assert!(components.next_back() == Some(Utf8Component::ParentDir));
    /// assert!(components.as_path().as_str() == "a//b");
    /// ```
    #[tactic(auto, using(crate::proofs::Parents::no_prefix))]
    pub fn components(&self) -> Utf8Components<'a>
        ensures left { comps_left result ≡ comps (text_of self.now) }
        ensures slice { (n k : ℕ) → slice_left result n k ≡ slice n k (text_of self.now) }
        // Taken from front and back in any mixture, each comes once and then none for good, and `as_path` is exactly the
        // slice between those that came.
        ensures walk { (moves : List (Move Comp)) (after : Utf8Components) → Walks comps_left slice_left result moves after → IsWalkOver (comps (text_of self.now)) (λ n k. slice n k (text_of self.now)) moves (comps_left after) (slice_left after 0 0) }
        // None of them is a prefix.
        ensures unix { has_prefix (comps (text_of self.now)) ≡ false }
    {
        Utf8Components::new(self.as_str())
    }

    /// The texts of the components, from either end.
    ///
    /// ```
    /// let mut texts = Utf8Path::new("/a/b").iter();
    /// assert!(texts.next() == Some("/"));
    /// assert!(texts.next_back() == Some("b"));
    /// ```
    pub fn iter(&self) -> Iter<'a>
        ensures left { texts_left result ≡ map comp_text (comps (text_of self.now)) }
        ensures slice { (n k : ℕ) → texts_slice_left result n k ≡ slice n k (text_of self.now) }
        // The law of the components' iterator, of their texts.
        ensures walk { (moves : List (Move (List ℕ))) (after : Iter) → Walks texts_left texts_slice_left result moves after → IsWalkOver (map comp_text (comps (text_of self.now))) (λ n k. slice n k (text_of self.now)) moves (texts_left after) (texts_slice_left after 0 0) }
    {
        Iter::new(self.components())
    }

    /// The path up to the end of its last component but one: none where there is no component, or the root alone.
    ///
    /// ```
    /// assert!(Utf8Path::new("/a").parent().is_some_and(|path| path.as_str() == "/"));
    /// assert!(Utf8Path::new("a").parent().is_some_and(|path| path.as_str() == ""));
    /// assert!(Utf8Path::new("/").parent().is_none());
    /// ```
    #[tactic(auto, using(crate::proofs::FileNames::parent_behind, crate::proofs::FileNames::parent_alone, crate::proofs::Leads::no_longer, crate::proofs::TextFronts::parent_front, crate::proofs::Parents::less_behind, crate::proofs::Parents::less_alone))]
    pub fn parent(&self) -> Option<Utf8Path<'a>>
        ensures parent { option_map text_of result ≡ parent_of (text_of self.now) }
        ensures shorter { IfSome result (λ p. length (text_of p) < length (text_of self.now)) }
        // It has one component less; none is answered only where there is no component, or the root alone.
        ensures less { HasOneLess (comps (text_of self.now)) (option_map text_of result) }
        // It is a front of the text.
        ensures front { IfSome result (λ p. take (length (text_of p)) (text_of self.now) ≡ text_of p) }
    {
        let text = self.as_str();
        match last_name(text) {
            Some((before, _)) => Some(Utf8Path::new(trim_back(before))),
            None => above(leading(text)),
        }
    }

    /// The path itself, its parent, and so on, until there is none.
    ///
    /// ```
    /// // "/a/b", "/a", "/"
    /// for path in Utf8Path::new("/a/b").ancestors() {}
    /// ```
    pub fn ancestors(&self) -> Utf8Ancestors<'a>
        ensures { ancestors_left result ≡ ancestors_of (text_of self.now) }
    {
        Utf8Ancestors::new(*self)
    }

    /// The last component, where it is a name; so none behind a `..`, and none of the root.
    ///
    /// ```
    /// assert!(Utf8Path::new("a/b.txt/").file_name() == Some("b.txt"));
    /// assert!(Utf8Path::new("a/..").file_name().is_none());
    /// ```
    #[tactic(auto, using(crate::proofs::FileNames::file_name_last, crate::proofs::FileNames::file_name_none))]
    pub fn file_name(&self) -> Option<&'a str>
        ensures { option_copied result ≡ file_name_of (text_of self.now) }
    {
        match last_name(self.as_str()) {
            Some((_, last)) => last.name(),
            None => None,
        }
    }

    /// The file name up to its last dot: the whole, where it has no dot but in front.
    ///
    /// ```
    /// assert!(Utf8Path::new(".tar.gz").file_stem() == Some(".tar"));
    /// ```
    pub fn file_stem(&self) -> Option<&'a str>
        ensures { option_copied result ≡ option_map stem_of (file_name_of (text_of self.now)) }
    {
        match self.file_name() {
            Some(name) => Some(stem_of(name)),
            None => None,
        }
    }

    /// The file name up to its first dot that isn't in front.
    ///
    /// ```
    /// assert!(Utf8Path::new("a.tar.gz").file_prefix() == Some("a"));
    /// ```
    pub fn file_prefix(&self) -> Option<&'a str>
        ensures { option_copied result ≡ option_map prefix_of (file_name_of (text_of self.now)) }
    {
        match self.file_name() {
            Some(name) => Some(prefix_of(name)),
            None => None,
        }
    }

    /// What stands behind the last dot of the file name, where it has one that isn't in front.
    ///
    /// ```
    /// assert!(Utf8Path::new(".tar.gz").extension() == Some("gz"));
    /// assert!(Utf8Path::new(".env").extension().is_none());
    /// ```
    pub fn extension(&self) -> Option<&'a str>
        ensures { option_copied result ≡ option_and_then extension_of (file_name_of (text_of self.now)) }
    {
        match self.file_name() {
            Some(name) => extension_of(name),
            None => None,
        }
    }

    /// Whether the components begin with those of `base`; so whole names are compared.
    ///
    /// ```
    /// assert!(Utf8Path::new("/a/b").starts_with(Utf8Path::new("/a/")));
    /// assert!(!Utf8Path::new("/ab").starts_with(Utf8Path::new("/a")));
    /// ```
    pub fn starts_with(&self, base: Utf8Path<'_>) -> bool
        ensures { result ≡ begins_with (comps (text_of self.now)) (comps (text_of base.entry)) }
    {
        begins_with(self.as_str(), base.as_str())
    }

    /// Whether the components end with those of `child`.
    ///
    /// ```
    /// assert!(Utf8Path::new("/a/b/").ends_with(Utf8Path::new("b")));
    /// ```
    pub fn ends_with(&self, child: Utf8Path<'_>) -> bool
        ensures { result ≡ ends_with (comps (text_of self.now)) (comps (text_of child.entry)) }
    {
        ends_with(self.as_str(), child.as_str())
    }

    /// The slice behind the components of `base`, from the first to the last component that remains. It is refused exactly
    /// where the components don't begin with those of `base`.
    ///
    /// ```
    /// assert!(Utf8Path::new("/a/b/").strip_prefix(Utf8Path::new("/a")).is_ok_and(|path| path.as_str() == "b"));
    /// ```
    pub fn strip_prefix(&self, base: Utf8Path<'_>) -> Result<Utf8Path<'a>, StripPrefix>
        ensures slice { MatchResult result
            (λ r. text_of r ≡ slice (length (comps (text_of base.entry))) 0 (text_of self.now))
            (λ e. begins_with (comps (text_of self.now)) (comps (text_of base.entry)) ≡ false) }
        // What remains are the components behind those of `base`.
        ensures remains { IfOk result (λ r. comps (text_of self.now) ≡ comps (text_of base.entry) ++ comps (text_of r)) }
        // The law of the slice: joined to `base` again it is the path.
        ensures joins { IfOk result (λ r. comps (pushed (text_of base.entry) (text_of r)) ≡ comps (text_of self.now)) }
    {
        let mut left = self.components();
        let mut wanted = base.components();
        'components: while let Some(want) = wanted.take_first() {
            match left.take_first() {
                None => return Err(StripPrefix),
                Some(component) => {
                    if !same(&component, &want) {
                        return Err(StripPrefix);
                    }
                }
            }
        }
        Ok(left.as_path())
    }
}

/// The parent of a path that has no name: the empty one, where the path is `.`.
fn above<'a>(leading: Option<Utf8Component<'_>>) -> Option<Utf8Path<'a>>
    ensures parent { option_map text_of result ≡ parent_of_lead (one_of leading.entry) }
    ensures shorter { IfSome result (λ p. length (text_of p) < length (one_of leading.entry)) }
{
    match leading {
        Some(Utf8Component::CurDir) => Some(Utf8Path::new("")),
        Some(Utf8Component::Prefix(_)) => None,
        Some(Utf8Component::RootDir) => None,
        Some(Utf8Component::ParentDir) => None,
        Some(Utf8Component::Normal(_)) => None,
        None => None,
    }
}
