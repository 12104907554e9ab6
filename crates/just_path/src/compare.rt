//! Equality, order and hash of paths, which speak of their components alone.
ghost use Rattle.std.specs.Prelude.{◌≡◌, ◌↔◌, IsTrue, Some, fold};
ghost use Rattle.std.proofs.Common.{rules};
ghost use Rattle.std.specs.Ordering.{is_eq};
ghost use Rattle.std.specs.Cmp;
ghost use Rattle.std.specs.Cmp.{eq_by_cmp_equiv, partial_order_from_total};
ghost use Rattle.std.specs.Cmp.Rules.{comparing};
ghost use Rattle.just_path.specs.Path.{text_of};
ghost use Rattle.just_path.specs.Comps.{comps};
ghost use Rattle.just_path.specs.Order.{comp_cmp, path_cmp, path_hash};
ghost use Rattle.just_path.specs.Walk.{comps_left};
ghost use Rattle.std.specs.Cmp.Lexicographic.{slice_cmp};
ghost use Rattle.just_path.specs.OrderLaws.{path_cmp_total, left_cmp_total, path_hash_respects};

use super::order::{compare, compare_left, hash_components};
use super::{Utf8Components, Utf8Path, Utf8PathBuf};
use std::cmp::Ordering;
use std::hash::{Hash, Hasher};

impl<'a> Utf8Path<'a> {
    /// Whether the text, read as a path, has the same components.
    ///
    /// ```
    /// assert!(Utf8Path::new("a//b").eq_str("a/b/"));
    /// ```
    #[tactic(auto, using(crate::specs::OrderLaws::same_is_equal))]
    pub fn eq_str(&self, other: &str) -> bool
        ensures order { result ≡ is_eq (path_cmp (text_of self.now) other.now) }
        ensures same { IsTrue result ↔ (comps (text_of self.now) ≡ comps other.now) }
    {
        compare(self.as_str(), other).is_eq()
    }

    /// The order of this path and the text, read as a path.
    ///
    /// ```
    /// assert!(Utf8Path::new("a/b").cmp_str("a/c") == Ordering::Less);
    /// ```
    pub fn cmp_str(&self, other: &str) -> Ordering
        ensures { result ≡ path_cmp (text_of self.now) other.now }
    {
        compare(self.as_str(), other)
    }
}

impl Utf8PathBuf {
    /// Whether the text, read as a path, has the same components.
    ///
    /// ```
    /// assert!(path.eq_str(path.as_str()));
    /// ```
    #[tactic(auto, using(crate::specs::OrderLaws::same_is_equal))]
    pub fn eq_str(&self, other: &str) -> bool
        ensures order { result ≡ is_eq (path_cmp self.now other.now) }
        ensures same { IsTrue result ↔ (comps self.now ≡ comps other.now) }
    {
        compare(self.as_str(), other).is_eq()
    }

    /// The order of this path and the text, read as a path.
    ///
    /// ```
    /// assert!(path.cmp_str(path.as_str()) == Ordering::Equal);
    /// ```
    pub fn cmp_str(&self, other: &str) -> Ordering
        ensures { result ≡ path_cmp self.now other.now }
    {
        compare(self.as_str(), other)
    }
}

impl<'a> PartialEq for Utf8Path<'a> {
    ghost eq = { λ x y. is_eq (path_cmp (text_of x) (text_of y)) };

    ghost laws = { Cmp.partial_equiv_from_equiv (eq_by_cmp_equiv (path_cmp_total text_of)) };

    fn eq(&self, other: &Utf8Path<'a>) -> bool {
        compare(self.as_str(), other.as_str()).is_eq()
    }
}

impl<'a> Eq for Utf8Path<'a> {
    ghost laws = { eq_by_cmp_equiv (path_cmp_total text_of) };
}

impl<'a> PartialOrd for Utf8Path<'a> {
    ghost partial_cmp = { λ x y. Some (path_cmp (text_of x) (text_of y)) };

    ghost laws = { partial_order_from_total (path_cmp_total text_of) };

    fn partial_cmp(&self, other: &Utf8Path<'a>) -> Option<Ordering> {
        Some(compare(self.as_str(), other.as_str()))
    }
}

impl<'a> Ord for Utf8Path<'a> {
    ghost cmp = { λ x y. path_cmp (text_of x) (text_of y) };

    ghost total = { path_cmp_total text_of };

    ghost matches_partial_cmp = { Prim.search (comparing, rules) };

    ghost matches_eq = { Prim.search (comparing, rules) };

    fn cmp(&self, other: &Utf8Path<'a>) -> Ordering {
        compare(self.as_str(), other.as_str())
    }
}

impl<'a> Hash for Utf8Path<'a> {
    ghost hash_input = { λ p. path_hash (text_of p) };

    ghost respects_eq = { λ x y. path_hash_respects (text_of x) (text_of y) };

    fn hash<H: Hasher>(&self, state: &mut H) {
        hash_components(self.as_str(), state);
    }
}

impl PartialEq for Utf8PathBuf {
    ghost eq = { λ x y. is_eq (path_cmp x y) };

    ghost laws = { Cmp.partial_equiv_from_equiv (eq_by_cmp_equiv (path_cmp_total (λ t. t))) };

    fn eq(&self, other: &Utf8PathBuf) -> bool {
        compare(self.as_str(), other.as_str()).is_eq()
    }
}

impl Eq for Utf8PathBuf {
    ghost laws = { eq_by_cmp_equiv (path_cmp_total (λ t. t)) };
}

impl PartialOrd for Utf8PathBuf {
    ghost partial_cmp = { λ x y. Some (path_cmp x y) };

    ghost laws = { partial_order_from_total (path_cmp_total (λ t. t)) };

    fn partial_cmp(&self, other: &Utf8PathBuf) -> Option<Ordering> {
        Some(compare(self.as_str(), other.as_str()))
    }
}

impl Ord for Utf8PathBuf {
    ghost cmp = { λ x y. path_cmp x y };

    ghost total = { path_cmp_total (λ t. t) };

    ghost matches_partial_cmp = { Prim.search (comparing, rules) };

    ghost matches_eq = { Prim.search (comparing, rules) };

    fn cmp(&self, other: &Utf8PathBuf) -> Ordering {
        compare(self.as_str(), other.as_str())
    }
}

impl Hash for Utf8PathBuf {
    ghost hash_input = { path_hash };

    ghost respects_eq = { path_hash_respects };

    fn hash<H: Hasher>(&self, state: &mut H) {
        hash_components(self.as_str(), state);
    }
}

// Iterators are compared by what is left of them.
impl<'a> PartialEq for Utf8Components<'a> {
    ghost eq = { λ x y. is_eq (slice_cmp comp_cmp (comps_left x) (comps_left y)) };

    ghost laws = { Cmp.partial_equiv_from_equiv (eq_by_cmp_equiv (left_cmp_total comps_left)) };

    fn eq(&self, other: &Utf8Components<'a>) -> bool {
        compare_left(self.copied(), other.copied()).is_eq()
    }
}

impl<'a> Eq for Utf8Components<'a> {
    ghost laws = { eq_by_cmp_equiv (left_cmp_total comps_left) };
}

impl<'a> PartialOrd for Utf8Components<'a> {
    ghost partial_cmp = { λ x y. Some (slice_cmp comp_cmp (comps_left x) (comps_left y)) };

    ghost laws = { partial_order_from_total (left_cmp_total comps_left) };

    fn partial_cmp(&self, other: &Utf8Components<'a>) -> Option<Ordering> {
        Some(compare_left(self.copied(), other.copied()))
    }
}

impl<'a> Ord for Utf8Components<'a> {
    ghost cmp = { λ x y. slice_cmp comp_cmp (comps_left x) (comps_left y) };

    ghost total = { left_cmp_total comps_left };

    ghost matches_partial_cmp = { Prim.search (comparing, rules) };

    ghost matches_eq = { Prim.search (comparing, rules) };

    fn cmp(&self, other: &Utf8Components<'a>) -> Ordering {
        compare_left(self.copied(), other.copied())
    }
}
