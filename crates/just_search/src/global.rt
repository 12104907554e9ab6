//! The user's own justfile.

ghost use Rattle.std.specs.Prelude.{◌≡◌, ◌≢◌, ◌++◌, ◌∷◌, [], None, option_map, IfOk, IfErr, OnOk, Err};
ghost use Rattle.std.specs.Option.{option_copied};
ghost use Rattle.just_path_text.specs.Environ.{home_of};
ghost use Rattle.just_env.specs.Answers.{Answers, entries_of};
ghost use Rattle.just_search.specs.Global.{config_folder, global_places, place_of, place_in_config, places_at_home, same_name, LooksAtPlace, FindsAmong, FindsGlobal};
ghost use Rattle.just_search.specs.Listing.{GainsListings};
ghost use Rattle.just_search.specs.Record.{Leaves};
ghost use Rattle.just_path.specs.Path.{pushed};

use super::SearchError;
use super::listing::names_in;
use super::place::Place;
use just_host_record::Host;
use just_path::{Utf8Path, Utf8PathBuf};
use just_path_text::{Environ, NoMemory, Text};
use std::alloc::Global;

/// The folder of the user's configuration.
fn config_folder(alloc: Global, environ: &Environ) -> Result<Option<Utf8PathBuf>, NoMemory>
    ensures { IfOk result (λ folder. folder ≡ config_folder environ.now.pairs) }
{
    if let Some(folder) = environ.get("XDG_CONFIG_HOME") {
        let folder = Utf8Path::new(folder);
        if folder.is_absolute() {
            return Ok(Some(folder.to_path_buf(alloc)?));
        }
    }
    match environ.home() {
        Some(home) => {
            let folder = Utf8Path::new(home).join(alloc, Utf8Path::new(".config"))?;
            Ok(Some(folder))
        }
        None => Ok(None),
    }
}

/// A folder under a path, and a name in it.
fn place_under(alloc: Global, base: &str, folder: &str, name: &str) -> Result<Place, NoMemory>
    ensures { IfOk result (λ place. place ≡ place_of (pushed base.now folder.now) name.now) }
{
    Ok(Place {
        folder: Utf8Path::new(base).join(alloc, Utf8Path::new(folder))?,
        name: Text::from_str(alloc, name)?,
    })
}

/// A folder, and a name in it.
fn place(alloc: Global, folder: &str, name: &str) -> Result<Place, NoMemory>
    ensures { IfOk result (λ place. place ≡ place_of folder.now name.now) }
{
    Ok(Place {
        folder: Utf8PathBuf::from_str(alloc, folder)?,
        name: Text::from_str(alloc, name)?,
    })
}

/// Adds the places in the home folder.
fn add_places_at_home(
    alloc: Global,
    home: Option<&str>,
    places: &mut Vec<Place>,
) -> Result<(), NoMemory>
    ensures { OnOk result (places.new.items ≡ places.old.items ++ places_at_home (option_copied home.entry)) }
{
    if let Some(home) = home {
        places.push(place_under(alloc, home, ".config/just", "justfile")?)?;
        places.push(place(alloc, home, "justfile")?)?;
        places.push(place(alloc, home, ".justfile")?)?;
    }
    Ok(())
}

/// Where the user's own justfile may be, in the order in which it is looked for.
fn global_places(alloc: Global, environ: &Environ) -> Result<Vec<Place>, NoMemory>
    ensures { IfOk result (λ places. places.items ≡ global_places environ.now.pairs) }
{
    let mut places = Vec::new(alloc);
    if let Some(folder) = config_folder(alloc, environ)? {
        places.push(place_under(alloc, folder.as_str(), "just", "justfile")?)?;
    }
    add_places_at_home(alloc, environ.home(), &mut places)?;
    Ok(places)
}

/// The first of some names that is a name in any case of its letters.
fn same_name<'n>(wanted: &str, names: &'n [Text]) -> Option<&'n Text>
    ensures { option_copied result ≡ same_name wanted.now names.now }
{
    names
        .iter()
        .find(|name| name.as_str().eq_ignore_ascii_case(wanted))
}

/// The path of that name in a place's folder.
fn path_at(alloc: Global, place: &Place, names: &[Text]) -> Result<Option<Utf8PathBuf>, NoMemory>
    ensures { IfOk result (λ path. path ≡ option_map (λ name. pushed place.now.folder name) (same_name place.now.name names.now)) }
{
    match same_name(place.name.as_str(), names) {
        Some(name) => {
            let name = Utf8Path::new(name.as_str());
            Ok(Some(place.folder.as_path().join(alloc, name)?))
        }
        None => Ok(None),
    }
}

/// Want of memory, where that is why a folder can't be listed.
fn unless_short(refusal: &SearchError) -> Result<(), NoMemory>
    ensures { IfOk result (λ _. refusal.now ≢ SearchError.NoMemory) }
{
    match refusal {
        SearchError::NoMemory => Err(NoMemory),
        _ => Ok(()),
    }
}

/// What is found in a folder that can't be listed: nothing, but where memory was wanting.
fn unlisted(refusal: SearchError) -> Result<Option<Utf8PathBuf>, NoMemory>
    ensures { IfOk result (λ path. (path ≡ None) × (refusal ≢ SearchError.NoMemory)) }
{
    let wanting = unless_short(&refusal);
    drop(refusal);
    wanting?;
    Ok(None)
}

/// Looks for a justfile at a place. A folder that can't be listed has none.
#[tactic(auto, using(crate::proofs::Listings::listing_nothing, crate::proofs::Listings::listing_refused))]
fn look_at<H: Host>(
    alloc: Global,
    host: &mut H,
    place: &Place,
) -> Result<Option<Utf8PathBuf>, NoMemory>
    ensures looks { IfOk result (λ path. Leaves (λ gained. LooksAtPlace (H.told host.old).world place.now gained path) (H.told host.old).entries (H.told host.new).entries) }
    ensures entries { GainsListings (H.told host.old).entries (H.told host.new).entries }
    ensures world { (H.told host.new).world ≡ (H.told host.old).world }
{
    match names_in(alloc, host, place.folder.as_path()) {
        Ok(names) => path_at(alloc, place, names.as_slice()),
        Err(error) => unlisted(error),
    }
}

/// The justfile at the first of some places that has one.
fn first_place<H: Host>(
    alloc: Global,
    host: &mut H,
    places: &[Place],
) -> Result<Utf8PathBuf, SearchError>
    ensures found { Answers (λ r. Leaves (λ gained. FindsAmong (H.told host.old).world places.now gained r) (H.told host.old).entries (H.told host.new).entries) result }
    ensures unheard { IfErr result (λ e. entries_of e ≡ []) }
    ensures entries { GainsListings (H.told host.old).entries (H.told host.new).entries }
    ensures world { (H.told host.new).world ≡ (H.told host.old).world }
{
    'places: for place in places {
        if let Some(path) = look_at(alloc, host, place)? {
            return Ok(path);
        }
    }
    Err(SearchError::GlobalJustfileNotFound)
}

/// The user's own justfile.
#[tactic(auto, using(crate::proofs::Places::found_globally, crate::proofs::Listings::listings_none))]
pub(crate) fn own_justfile<H: Host>(
    alloc: Global,
    host: &mut H,
    environ: &Environ,
) -> Result<Utf8PathBuf, SearchError>
    ensures found { Answers (λ r. Leaves (λ gained. FindsGlobal (H.told host.old).world environ.now.pairs gained r) (H.told host.old).entries (H.told host.new).entries) result }
    ensures unheard { IfErr result (λ e. entries_of e ≡ []) }
    ensures entries { GainsListings (H.told host.old).entries (H.told host.new).entries }
    ensures world { (H.told host.new).world ≡ (H.told host.old).world }
{
    let places = global_places(alloc, environ)?;
    first_place(alloc, host, places.as_slice())
}
