//! The clean form of a path, made on a stack of the components that stay.
ghost use Rattle.std.specs.Prelude.{◌≡◌, ◌++◌, ◌∷◌, [], List, true, fold, IfOk, OnOk};
ghost use Rattle.just_path.specs.Path.{text_of, pushed};
ghost use Rattle.just_path.specs.Comps.{Comp, parent, comp_text, comps};
ghost use Rattle.just_path.specs.Component.{comp_of};
ghost use Rattle.just_path.specs.Clean.{normal_form, or_current, cleaned, IsNormalForm, IsCleanOf, parents_first};
ghost use Rattle.just_path.specs.Reduced.{may_precede, is_reduced, comps_of};
ghost use Rattle.just_path.specs.Walk.{comps_left};

use super::{Utf8Component, Utf8Components, Utf8Path, Utf8PathBuf};
use just_path_text::NoMemory;
use std::alloc::Global;

impl<'a> Utf8Path<'a> {
    /// The path without each `.`, each name with the `..` directly behind it, and each `..` directly behind the root. Where
    /// nothing is left it is `.`. The files aren't asked, so where a name is a link the clean path may lead elsewhere.
    ///
    /// ```
    /// assert!(Utf8Path::new("/../a/./b/..").clean(alloc)?.as_str() == "/a");
    /// assert!(Utf8Path::new("a/..").clean(alloc)?.as_str() == ".");
    /// ```
    pub fn clean(&self, alloc: Global) -> Result<Utf8PathBuf, NoMemory>
        ensures clean { IfOk result (λ p. p ≡ cleaned (text_of self.now)) }
        // It is made of a normal form of the path's components under the rewrites, or of `.` where that is empty.
        ensures normal { IfOk result (λ p. IsCleanOf (text_of self.now) p) }
        // Each normal form of the path's components is this one.
        ensures only { IfOk result (λ p. (n : List Comp) → IsNormalForm (comps (text_of self.now)) n → comps p ≡ or_current n) }
        // What is clean stays as it is.
        ensures again { IfOk result (λ p. cleaned p ≡ p) }
        // `..` stands only in front, and not at all behind the root.
        ensures ups { IfOk result (λ p. parents_first (comps p) ≡ true) }
    {
        let path = made(alloc, self.as_str())?;
        Ok(path)
    }
}

/// The clean path of a text.
fn made(alloc: Global, text: &str) -> Result<Utf8PathBuf, NoMemory>
    ensures { IfOk result (λ p. p ≡ cleaned text.now) }
{
    let kept = kept_of(alloc, Utf8Components::new(text))?;
    let components = kept.as_slice();
    if components.is_empty() {
        return Utf8PathBuf::from_str(alloc, ".");
    }
    path_of(alloc, components)
}

/// The components that stay.
fn kept_of<'a>(
    alloc: Global,
    components: Utf8Components<'a>,
) -> Result<Vec<Utf8Component<'a>>, NoMemory>
    ensures { IfOk result (λ v. comps_of v.items ≡ normal_form (comps_left components.entry)) }
{
    let mut left = components;
    let mut kept = Vec::new(alloc);
    'components: while let Some(component) = left.take_first() {
        put(&mut kept, component)?;
    }
    Ok(kept)
}

/// Puts a component behind those that stay, as far as the rewrites leave it there.
fn put<'a>(kept: &mut Vec<Utf8Component<'a>>, component: Utf8Component<'a>) -> Result<(), NoMemory>
    requires { is_reduced (comps_of kept.old.items) ≡ true }
    ensures reduced { OnOk result (is_reduced (comps_of kept.new.items) ≡ true) }
    ensures same { OnOk result ((rest : List Comp) → normal_form (comps_of kept.new.items ++ rest) ≡ normal_form (comps_of kept.old.items ++ comp_of component.entry ∷ rest)) }
{
    match component {
        Utf8Component::CurDir => Ok(()),
        Utf8Component::ParentDir => put_parent(kept),
        Utf8Component::Prefix(_) => push_on(kept, component),
        Utf8Component::RootDir => push_on(kept, component),
        Utf8Component::Normal(_) => push_on(kept, component),
    }
}

/// Puts a component behind those that stay, where no rewrite begins.
fn push_on<'a>(
    kept: &mut Vec<Utf8Component<'a>>,
    component: Utf8Component<'a>,
) -> Result<(), NoMemory>
    requires { is_reduced (comps_of kept.old.items ++ comp_of component ∷ []) ≡ true }
    ensures reduced { OnOk result (is_reduced (comps_of kept.new.items) ≡ true) }
    ensures same { OnOk result ((rest : List Comp) → normal_form (comps_of kept.new.items ++ rest) ≡ normal_form (comps_of kept.old.items ++ comp_of component.entry ∷ rest)) }
{
    kept.push(component)?;
    Ok(())
}

/// Puts a `..` behind those that stay.
fn put_parent(kept: &mut Vec<Utf8Component<'_>>) -> Result<(), NoMemory>
    requires { is_reduced (comps_of kept.old.items) ≡ true }
    ensures reduced { OnOk result (is_reduced (comps_of kept.new.items) ≡ true) }
    ensures same { OnOk result ((rest : List Comp) → normal_form (comps_of kept.new.items ++ rest) ≡ normal_form (comps_of kept.old.items ++ parent ∷ rest)) }
{
    let last = match kept.pop() {
        Some(last) => last,
        None => return Ok(kept.push(Utf8Component::ParentDir)?),
    };
    match last {
        Utf8Component::Normal(_) => Ok(()),
        Utf8Component::RootDir => push_on(kept, last),
        Utf8Component::Prefix(_) => put_back(kept, last),
        Utf8Component::CurDir => put_back(kept, last),
        Utf8Component::ParentDir => put_back(kept, last),
    }
}

/// Puts a component back, and a `..` behind it.
fn put_back<'a>(kept: &mut Vec<Utf8Component<'a>>, last: Utf8Component<'a>) -> Result<(), NoMemory>
    requires reduced { is_reduced (comps_of kept.old.items ++ comp_of last ∷ []) ≡ true }
    requires fits { may_precede (comp_of last) (parent ∷ []) ≡ true }
    ensures reduced { OnOk result (is_reduced (comps_of kept.new.items) ≡ true) }
    ensures same { OnOk result ((rest : List Comp) → normal_form (comps_of kept.new.items ++ rest) ≡ normal_form ((comps_of kept.old.items ++ comp_of last.entry ∷ []) ++ parent ∷ rest)) }
{
    kept.push(last)?;
    kept.push(Utf8Component::ParentDir)?;
    Ok(())
}

/// The path of components.
fn path_of(alloc: Global, components: &[Utf8Component<'_>]) -> Result<Utf8PathBuf, NoMemory>
    ensures { IfOk result (λ p. p ≡ fold (λ path component. pushed path (comp_text (comp_of component))) [] components.now) }
{
    let mut path = Utf8PathBuf::new(alloc);
    for component in components {
        path.push(Utf8Path::new(component.as_str()))?;
    }
    Ok(path)
}
