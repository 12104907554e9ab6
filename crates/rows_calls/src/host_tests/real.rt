//! How the real host makes folders; the signals. What it does with files, children and scripts is shown by cases over the built program.

use super::agree::agree;
use just_host::{Host, RealHost, Signal};
use just_path::Utf8Path;
use std::alloc::{AllocError, Global};
use std::fs;
use std::os::unix::fs::symlink;
use std::test::Fail;

/// Whether a folder stands at a path.
fn is_folder(rt: &HostRuntime, path: &str) -> bool {
    match fs::metadata(rt, path) {
        Ok(meta) => meta.is_dir(),
        Err(_) => false,
    }
}

/// How each folder is made, and whether those of the first and of the third path stand there behind all, a line each.
fn folders<H: Host + Drop>(rt: &HostRuntime, host: H) -> Result<String, AllocError> {
    let mut host = host;
    let mut all = String::new(rt.alloc());
    for path in [
        "made/two/three",
        "made/two",
        "made/two/four/",
        "a_file",
        "a_file/x",
        "a_link",
        "",
    ] {
        let made = host.make_folder(Utf8Path::new(path));
        writeln!(all, "{path:?}: {made:?}")?;
    }
    for path in ["made/two/three", "made/two/four"] {
        writeln!(all, "{path}: {}", is_folder(rt, path))?;
    }
    Ok(all)
}

/// The wanted answers and folders.
const FOLDERS: &str = r#""made/two/three": Ok(())
"made/two": Ok(())
"made/two/four/": Ok(())
"a_file": Err(Missed(NotFolder))
"a_file/x": Err(Missed(NotFolder))
"a_link": Err(Missed(NotFound))
"": Err(Missed(NotFound))
made/two/three: true
made/two/four: true
"#;

#[test]
fn real_folders(rt: HostRuntime) -> Result<(), Fail> {
    fs::write(&rt, "a_file", "")?;
    symlink(&rt, "none", "a_link")?;
    let host = RealHost::new(&rt, rt.alloc())?;
    agree(&rt, folders(&rt, host), FOLDERS)
}

/// Adds the signal of a number: its name, its code, whether it is fatal, and whether it is asked for by that name.
fn push_signal(all: &mut String, name: &str, number: u8) -> Result<(), AllocError> {
    let is_named = Signal::from_name(name).is_some();
    match Signal::try_from(number) {
        Ok(signal) => {
            let (code, is_fatal) = (signal.code(), signal.is_fatal());
            writeln!(all, "{name}: {signal} {code} {is_fatal} {is_named}")
        }
        Err(number) => writeln!(all, "{name}: {number} is none"),
    }
}

/// Each signal, a line each.
fn each_signal(alloc: Global) -> Result<String, AllocError> {
    let mut all = String::new(alloc);
    for (name, number) in [
        ("SIGHUP", 1),
        ("SIGINT", 2),
        ("SIGQUIT", 3),
        ("SIGTERM", 15),
    ] {
        push_signal(&mut all, name, number)?;
    }
    Ok(all)
}

/// The wanted signals.
const SIGNALS: &str = "\
SIGHUP: SIGHUP 129 true true
SIGINT: SIGINT 130 true true
SIGQUIT: SIGQUIT 131 true true
SIGTERM: SIGTERM 143 true false
";

#[test]
fn signals(rt: HostRuntime) -> Result<(), Fail> {
    agree(&rt, each_signal(rt.alloc()), SIGNALS)
}
