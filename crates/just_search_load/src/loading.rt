//! The sources of a project, loaded one after the other.

ghost use Rattle.std.specs.Prelude.{◌≡◌, ◌+◌, ◌<◌, ◌⊎◌, ◌++◌, ◌∷◌, [], List, ℕ, Some, None, Ok, Err, length, reverse, take, IfOk, IfErr, OnOk, OnErr};
ghost use Rattle.just_path.specs.Path.{text_of};
ghost use Rattle.just_path.specs.Clean.{cleaned};
ghost use Rattle.just_search_load.specs.Loads.{source_at, LoadsOne, Loads, LoadsAll, Ends, IsGrown, to_load};
ghost use Rattle.just_search_load.specs.Named.{SourceNames};
ghost use Rattle.just_search_load.specs.Numbers.{number_at, number_of, AreNumbered};
ghost use Rattle.just_search_load.specs.Shows.{sources_of};
ghost use Rattle.just_search_load.specs.Turns.{Nexts, Turns, AddsNames};
ghost use Rattle.just_search_load.specs.Whole.{IsWhole};
ghost use Rattle.just_env.specs.Answers.{Answers, Gains, GivesEnviron, told_entries};
ghost use Rattle.just_search_load.specs.Shown.{ReadsText};
ghost use Rattle.just_env.specs.declared.search_error.SearchError.TheVariants.{NoMemory as OutOfMemory};

use super::loader::Sources;
use super::named::add_source;
use super::shown::read_text;
use super::{Loader, SearchError};
use just_env::environment;
use just_host_record::Host;
use just_lang_types::Source;
use just_path::{Utf8Path, Utf8PathBuf};
use just_path_text::{Environ, NoMemory, Text};
use std::alloc::Global;
use std::collections::BTreeMap;

/// The source of a path with that text. Its root is the path's parent; the path itself where it has none.
fn source_of(alloc: Global, path: Utf8PathBuf, text: Text) -> Result<Source, NoMemory>
    ensures { IfOk result (λ s. s ≡ source_at path text) }
{
    let root = match path.as_path().parent() {
        Some(parent) => parent.to_path_buf(alloc)?,
        None => path.try_clone()?,
    };
    Ok(Source { path, root, text })
}

/// Reads the source of a path.
fn read_source<H: Host>(
    alloc: Global,
    host: &mut H,
    path: Utf8PathBuf,
) -> Result<Source, SearchError>
    ensures source { IfOk result (λ s. s ≡ source_at path s.text) }
    ensures text { IfOk result (λ s. ReadsText (H.told host.old).world path (Ok s.text)) }
    ensures refused { IfErr result (λ e. (e ≡ OutOfMemory) ⊎ ReadsText (H.told host.old).world path (Err e)) }
    ensures entries { (H.told host.new).entries ≡ (H.told host.old).entries ++ told_entries result }
    ensures world { (H.told host.new).world ≡ (H.told host.old).world }
{
    match read_text(alloc, host, path.as_path()) {
        Ok(text) => Ok(source_of(alloc, path, text)?),
        Err(error) => Err(error),
    }
}

impl Sources {
    /// Puts a source behind the others; `place` is its clean path, which no other has. It gets the next number.
    #[tactic(auto, using(crate::proofs::Numbered::numbered_more))]
    fn keep(&mut self, source: Source, place: Text) -> Result<u32, NoMemory>
        requires numbered { AreNumbered self.old.sources.items self.old.numbers }
        requires place { place ≡ cleaned source.path }
        requires new { number_at self.old.sources.items place ≡ None }
        ensures numbered { AreNumbered self.new.sources.items self.new.numbers }
        ensures number { IfOk result (λ n. n ≡ length self.old.sources.items) }
        ensures small { OnOk result (length self.old.sources.items < 4294967296) }
        ensures kept { OnOk result (self.new.sources.items ≡ self.old.sources.items ++ source ∷ []) }
        ensures same { OnErr result (self.new.sources.items ≡ self.old.sources.items) }
    {
        let Ok(number) = u32::try_from(self.sources.len()) else {
            return Err(NoMemory);
        };
        self.sources.reserve(1)?;
        self.numbers.insert(place, number)?;
        self.sources.push_reserved(source);
        Ok(number)
    }

    /// Takes all but the first sources away.
    fn forget(&mut self, known: usize)
        requires { AreNumbered self.old.sources.items self.old.numbers }
        ensures sources { self.new.sources.items ≡ take known self.old.sources.items }
        ensures numbered { AreNumbered self.new.sources.items self.new.numbers }
    {
        self.sources.truncate(known);
        self.numbers.retain(|_, number| (*number as usize) < known);
    }

    /// The number of the source of a clean path, if it was loaded.
    fn number(&self, place: &Text) -> Option<u32>
        requires { AreNumbered self.now.sources.items self.now.numbers }
        ensures { result ≡ number_at self.now.sources.items place.now }
    {
        self.numbers.get(place).copied()
    }
}

impl Loader {
    /// A loader that has loaded nothing.
    #[tactic(auto, using(crate::proofs::Numbered::numbered_none))]
    pub fn new(alloc: Global) -> Loader
        ensures { sources_of result ≡ [] }
    {
        let inside = Sources {
            alloc,
            sources: Vec::new(alloc),
            numbers: BTreeMap::new(alloc),
        };
        Loader { inside }
    }

    /// The sources that were loaded, in the order of loading.
    pub fn sources(&self) -> &[Source]
        ensures { result.now ≡ sources_of self.now }
    {
        self.inside.sources.as_slice()
    }

    /// Loads the source of a path, unless it was loaded before, and answers its number. On an error nothing is loaded.
    #[tactic(auto, using(crate::proofs::Numbered::number_last, crate::proofs::Numbered::one_before, crate::proofs::Numbered::one_now))]
    pub fn load<H: Host>(&mut self, host: &mut H, path: Utf8Path<'_>) -> Result<u32, SearchError>
        ensures number { IfOk result (λ n. number_of (sources_of self.new) (text_of path.entry) ≡ Some n) }
        ensures loaded { OnOk result (LoadsOne (H.told host.old).world (sources_of self.old) (text_of path.entry) (sources_of self.new)) }
        ensures refused { IfErr result (λ e. (e ≡ OutOfMemory) ⊎ ((number_of (sources_of self.old) (text_of path.entry) ≡ None) × ReadsText (H.told host.old).world (text_of path.entry) (Err e))) }
        ensures same { OnErr result (sources_of self.new ≡ sources_of self.old) }
        ensures entries { (H.told host.new).entries ≡ (H.told host.old).entries ++ told_entries result }
        ensures world { (H.told host.new).world ≡ (H.told host.old).world }
    {
        let alloc = self.inside.alloc;
        let place = Text::from(path.clean(alloc)?.into_string());
        let path = path.to_path_buf(alloc)?;
        match self.inside.number(&place) {
            Some(number) => Ok(number),
            None => match read_source(alloc, host, path) {
                Ok(source) => Ok(self.inside.keep(source, place)?),
                Err(error) => Err(error),
            },
        }
    }

    /// The next path on a stack that wasn't loaded, with its clean form.
    #[tactic(auto, using(crate::proofs::Skipped::skips_none, crate::proofs::Skipped::skips_more, crate::proofs::Skipped::skips_next, crate::proofs::Skipped::skips_all))]
    fn next(&self, pending: &mut Vec<Utf8PathBuf>) -> Result<Option<(Utf8PathBuf, Text)>, NoMemory>
        ensures { IfOk result (Nexts (sources_of self.now) pending.old.items pending.new.items) }
    {
        'paths: while let Some(path) = pending.pop() {
            let place = Text::from(path.as_path().clean(self.inside.alloc)?.into_string());
            if self.inside.number(&place).is_none() {
                return Ok(Some((path, place)));
            }
        }
        Ok(None)
    }

    /// Loads the source of a path that wasn't loaded, and puts the files that it names on the stack. On an error nothing is loaded.
    #[tactic(auto, using(just_env::proofs::Laws::gains_nothing, just_env::proofs::Laws::gains_before, just_env::proofs::Laws::gains_none, just_env::proofs::Laws::gains_then, just_env::proofs::Laws::gains_one))]
    fn load_next<H: Host>(
        &mut self,
        host: &mut H,
        environ: &Environ,
        path: Utf8PathBuf,
        place: Text,
        pending: &mut Vec<Utf8PathBuf>,
    ) -> Result<(), SearchError>
        requires place { place ≡ cleaned path }
        requires new { number_at (sources_of self.old) place ≡ None }
        ensures turns { Turns (H.told host.old).world environ.now.pairs (sources_of self.old) path (to_load pending.old.items) (sources_of self.new) (to_load pending.new.items) result }
        ensures more { OnOk result (length (sources_of self.new) ≡ length (sources_of self.old) + 1) }
        ensures small { OnOk result (length (sources_of self.old) < 4294967296) }
        ensures grown { IsGrown (sources_of self.old) (sources_of self.new) }
        ensures gains { Gains (H.told host.old).entries (H.told host.new).entries result }
        ensures world { (H.told host.new).world ≡ (H.told host.old).world }
    {
        let alloc = self.inside.alloc;
        let source = match read_source(alloc, host, path) {
            Ok(source) => source,
            Err(error) => return Err(error),
        };
        match push_names(alloc, host, environ, &source, pending) {
            Ok(()) => {}
            Err(error) => return Err(error),
        }
        self.inside.keep(source, place)?;
        Ok(())
    }

    /// Loads the paths on a stack and all that they lead to.
    #[tactic(auto, using(just_env::proofs::Laws::gains_nothing, just_env::proofs::Laws::gains_before, just_env::proofs::Laws::gains_none, just_env::proofs::Laws::gains_then, crate::proofs::Growing::grown_none, crate::proofs::Growing::grown_then))]
    fn load_pending<H: Host>(
        &mut self,
        host: &mut H,
        environ: &Environ,
        pending: Vec<Utf8PathBuf>,
    ) -> Result<(), SearchError>
        ensures ends { Ends (Loads (H.told host.old).world environ.now.pairs (sources_of self.old) (to_load pending.items)) (sources_of self.new) result }
        ensures grown { IsGrown (sources_of self.old) (sources_of self.new) }
        ensures gains { Gains (H.told host.old).entries (H.told host.new).entries result }
        ensures world { (H.told host.new).world ≡ (H.told host.old).world }
    {
        let mut pending = pending;
        'paths: while let Some((path, place)) = self.next(&mut pending)? {
            match self.load_next(host, environ, path, place, &mut pending) {
                Ok(()) => {}
                Err(error) => return Err(error),
            }
        }
        Ok(())
    }

    /// Loads a source and all that it leads to. On an error those that were loaded before it stay.
    #[tactic(auto, using(just_env::proofs::Laws::gains_nothing, just_env::proofs::Laws::gains_before, just_env::proofs::Laws::gains_none, just_env::proofs::Laws::gains_then, just_env::proofs::Laws::gains_one, crate::proofs::Growing::grown_none, crate::proofs::Rooted::root_loads))]
    fn load_root<H: Host>(
        &mut self,
        host: &mut H,
        environ: &Environ,
        root: Utf8Path<'_>,
    ) -> Result<(), SearchError>
        ensures ends { Ends (Loads (H.told host.old).world environ.now.pairs (sources_of self.old) (text_of root.entry ∷ [])) (sources_of self.new) result }
        ensures grown { IsGrown (sources_of self.old) (sources_of self.new) }
        ensures gains { Gains (H.told host.old).entries (H.told host.new).entries result }
        ensures world { (H.told host.new).world ≡ (H.told host.old).world }
    {
        let alloc = self.inside.alloc;
        let mut pending = Vec::new(alloc);
        pending.push(root.to_path_buf(alloc)?)?;
        self.load_pending(host, environ, pending)
    }

    /// Loads a source and all that it leads to, over an environment: behind each source the files that its imports and modules name, in
    /// their order, before what else is to be loaded. A file that isn't there is left out; so is one that was loaded before, with what it
    /// names. On an error nothing is loaded.
    #[tactic(auto, using(crate::proofs::Growing::grown_cut))]
    pub fn load_over<H: Host>(
        &mut self,
        host: &mut H,
        environ: &Environ,
        root: Utf8Path<'_>,
    ) -> Result<(), SearchError>
        // The sources are those that the root leads to over the environment, or the first refusal.
        ensures ends { Ends (Loads (H.told host.old).world environ.now.pairs (sources_of self.old) (text_of root.entry ∷ [])) (sources_of self.new) result }
        ensures same { OnErr result (sources_of self.new ≡ sources_of self.old) }
        // The record gains misses, and the entry of the refused call.
        ensures gains { Gains (H.told host.old).entries (H.told host.new).entries result }
        ensures world { (H.told host.new).world ≡ (H.told host.old).world }
    {
        let known = self.inside.sources.len();
        match self.load_root(host, environ, root) {
            Ok(()) => Ok(()),
            Err(error) => {
                self.inside.forget(known);
                Err(error)
            }
        }
    }

    /// Loads a source and all that it leads to, over the environment that the host gives, as `load_over` does.
    #[tactic(auto, using(just_env::proofs::Laws::gains_nothing, just_env::proofs::Laws::gains_before, just_env::proofs::Laws::gains_none, just_env::proofs::Laws::gains_then, just_env::proofs::Laws::gains_one, crate::proofs::Rooted::root_given, crate::proofs::Rooted::root_unread))]
    pub fn load_all<H: Host>(&mut self, host: &mut H, root: Utf8Path<'_>) -> Result<(), SearchError>
        // The sources are those that the root leads to over the host's environment, or the first refusal.
        ensures ends { Ends (LoadsAll (H.told host.old).world (sources_of self.old) (text_of root.entry)) (sources_of self.new) result }
        // So those that are new are what the root leads to, each once.
        ensures whole { OnOk result (IsWhole (H.told host.old).world (sources_of self.old) (text_of root.entry) (sources_of self.new)) }
        ensures same { OnErr result (sources_of self.new ≡ sources_of self.old) }
        // The record gains misses, and the entry of the refused call.
        ensures gains { Gains (H.told host.old).entries (H.told host.new).entries result }
        ensures world { (H.told host.new).world ≡ (H.told host.old).world }
    {
        match environment(self.inside.alloc, host) {
            Ok(environ) => self.load_over(host, &environ, root),
            Err(error) => Err(error),
        }
    }
}

/// Puts names on a stack, the first one on top.
#[tactic(auto, using(crate::proofs::Skipped::turns_one))]
fn stack_names(names: Vec<Utf8PathBuf>, pending: &mut Vec<Utf8PathBuf>) -> Result<(), NoMemory>
    ensures { OnOk result (to_load pending.new.items ≡ names.items ++ to_load pending.old.items) }
{
    let mut names = names;
    'names: while let Some(name) = names.pop() {
        pending.push(name)?;
    }
    Ok(())
}

/// Puts the files that a source names on a stack, the first one on top.
#[tactic(auto, using(just_env::proofs::Laws::gains_nothing, just_env::proofs::Laws::gains_before, just_env::proofs::Laws::gains_none, just_env::proofs::Laws::gains_then))]
fn push_names<H: Host>(
    alloc: Global,
    host: &mut H,
    environ: &Environ,
    source: &Source,
    pending: &mut Vec<Utf8PathBuf>,
) -> Result<(), SearchError>
    ensures names { AddsNames (SourceNames (H.told host.old).world environ.now.pairs source.now) (to_load pending.old.items) (to_load pending.new.items) result }
    ensures gains { Gains (H.told host.old).entries (H.told host.new).entries result }
    ensures world { (H.told host.new).world ≡ (H.told host.old).world }
{
    let mut names = Vec::new(alloc);
    match add_source(alloc, host, environ, source, &mut names) {
        Ok(()) => {}
        Err(error) => return Err(error),
    }
    stack_names(names, pending)?;
    Ok(())
}
