//! What the real host shows of a folder with a file `justfile` of three bytes, a link `link` to it, and a link `far` that
//! leads nowhere, by each call of a path over a host.

use crate::shown::says;
use just_host::RealHost;
use just_path::{
    Kind, Meta, PathFault, PathHost, ReadDirUtf8, Utf8DirEntry, Utf8Path, Utf8PathBuf,
    absolute_utf8,
};
use std::alloc::{AllocError, Global};
use std::fs;
use std::os::unix::fs::symlink;
use std::test::Fail;

/// The kind of a thing, where it is known.
fn kind_of(meta: Result<Meta, PathFault>) -> Result<Kind, PathFault> {
    match meta {
        Ok(meta) => Ok(meta.kind),
        Err(fault) => Err(fault),
    }
}

/// Adds the name at the end of a path that was asked for.
fn push_name(
    all: &mut String,
    asked: &str,
    path: Result<Utf8PathBuf, PathFault>,
) -> Result<(), AllocError> {
    match path {
        Ok(path) => writeln!(all, "{asked}: {:?}", path.as_path().file_name()),
        Err(fault) => writeln!(all, "{asked}: {fault:?}"),
    }
}

/// Adds what is known of the file and of the links to it.
fn push_things<H: PathHost>(all: &mut String, host: &mut H) -> Result<(), AllocError> {
    let link = Utf8Path::new("sights/link");
    let meta = Utf8Path::new("sights/justfile").metadata(host);
    let behind = link.metadata(host);
    let itself = kind_of(link.symlink_metadata(host));
    writeln!(all, "{meta:?}\n{behind:?}\n{itself:?}")?;
    push_name(all, "found", link.canonicalize_utf8(host))?;
    push_name(all, "target", link.read_link_utf8(host))
}

/// Adds the answer to each question of a kind.
fn push_kinds<H: PathHost>(all: &mut String, host: &mut H) -> Result<(), AllocError> {
    let (file, far) = (
        Utf8Path::new("sights/justfile"),
        Utf8Path::new("sights/far"),
    );
    let is_folder = Utf8Path::new("sights").is_dir(host);
    let (is_file, is_link) = (file.is_file(host), far.is_symlink(host));
    let exists = far.exists(host);
    let (file, far) = (file.try_exists(host), far.try_exists(host));
    writeln!(
        all,
        "{is_folder:?} {is_file:?} {is_link:?} {exists:?} {file:?} {far:?}"
    )
}

/// Adds how a thing that is asked for as another is missed as that.
fn push_misses<H: PathHost>(
    alloc: Global,
    all: &mut String,
    host: &mut H,
) -> Result<(), AllocError> {
    let file = Utf8Path::new("sights/justfile");
    let list = file.read_dir_utf8(alloc, host).err();
    let link = file.read_link_utf8(host).err();
    let meta = Utf8Path::new("sights/justfile/x").metadata(host).err();
    writeln!(all, "{list:?} {link:?} {meta:?}")
}

/// Adds the name and the kind of what stands in a folder.
fn push_entry<H: PathHost>(
    all: &mut String,
    host: &mut H,
    entry: Utf8DirEntry,
) -> Result<(), AllocError> {
    let kind = kind_of(entry.metadata(host));
    write!(all, "[{} {kind:?}]", entry.file_name())
}

/// Adds the names and the kinds in a folder that was listed.
fn push_entries<H: PathHost>(
    all: &mut String,
    host: &mut H,
    entries: ReadDirUtf8,
) -> Result<(), AllocError> {
    for entry in entries {
        push_entry(all, host, entry)?;
    }
    all.push_str("\n")
}

/// Adds the names and the kinds in the folder.
fn push_list<H: PathHost>(alloc: Global, all: &mut String, host: &mut H) -> Result<(), AllocError> {
    match Utf8Path::new("sights").read_dir_utf8(alloc, host) {
        Ok(entries) => push_entries(all, host, entries),
        Err(fault) => writeln!(all, "{fault:?}"),
    }
}

/// Adds whether the absolute path of the folder is one, and ends as it was written.
fn push_absolute<H: PathHost>(
    alloc: Global,
    all: &mut String,
    host: &mut H,
) -> Result<(), AllocError> {
    match absolute_utf8(alloc, Utf8Path::new("./sights/"), host) {
        Ok(whole) => {
            let is_absolute = whole.as_path().is_absolute();
            let ends_so = whole.as_str().ends_with("/sights/");
            writeln!(all, "{is_absolute} {ends_so}")
        }
        Err(fault) => writeln!(all, "{fault:?}"),
    }
}

/// All that is shown.
fn sights<H: PathHost + Drop>(alloc: Global, host: H) -> Result<String, AllocError> {
    let mut host = host;
    let mut all = String::new(alloc);
    push_things(&mut all, &mut host)?;
    push_kinds(&mut all, &mut host)?;
    push_misses(alloc, &mut all, &mut host)?;
    push_list(alloc, &mut all, &mut host)?;
    push_absolute(alloc, &mut all, &mut host)?;
    Ok(all)
}

/// What is to be shown.
const SIGHTS: &str = r#"Ok(Meta { kind: File, len: 3, executable: false })
Ok(Meta { kind: File, len: 3, executable: false })
Ok(Link)
found: Some("justfile")
target: Some("justfile")
Ok(true) Ok(true) Ok(true) Ok(false) Ok(true) Ok(false)
Some(Missed(NotFolder)) Some(Missed(NotFound)) Some(Missed(NotFolder))
[far Ok(Link)][justfile Ok(File)][link Ok(Link)]
true true
"#;

#[test]
fn sights_of_the_real_host(rt: HostRuntime) -> Result<(), Fail> {
    fs::create_dir_all(&rt, "sights")?;
    fs::write(&rt, "sights/justfile", "a:\n")?;
    for (target, path) in [("justfile", "sights/link"), ("none", "sights/far")] {
        let _ = symlink(&rt, target, path);
    }
    let host = RealHost::new(&rt, rt.alloc())?;
    says(&rt, sights(rt.alloc(), host), SIGHTS);
    Ok(())
}
