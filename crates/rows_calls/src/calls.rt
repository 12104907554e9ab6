//! Files, sums, cache entries and folders: the same calls, one after the other, have the same answers from every host.

use crate::shown::says;
use crate::told::{told, told_in_memory};
use just_host::{Plot, RealHost};
use std::test::Fail;

/// Calls of files, sums and cache entries.
const CALLS: &str = r#"write f abc = Ok(())
sum f = Ok([186, 120, 22, 191, 143, 1, 207, 234, 65, 65, 64, 222, 93, 174, 34, 35, 176, 3, 97, 163, 150, 23, 122, 156, 180, 16, 255, 97, 242, 0, 21, 173])
sum c = Err(Missed(NotFound))
sum f/x = Err(Missed(NotFolder))
sum . = Err(Missed(IsFolder))
write . abc = Err(Missed(IsFolder))
write none/x abc = Err(Missed(NotFound))
write f/x abc = Err(Missed(NotFolder))
check f = Ok(None)
check g = Ok(Some(0))
check f/x = Err(Missed(NotFolder))
save c/e.json {} = Err(Missed(NotFound))
probe c/e.json f = Ok(Empty)
probe c/e.json f = Ok(Empty)
save c/e.json {} = Ok(())
probe c/e.json f = Ok(Full)
probe c/e.json g = Ok(OutputMissing(0))
probe c/e.json f/x = Ok(OutputMissing(0))
probe c f = Err(Missed(IsFolder))
probe none/c/e.json f = Err(Missed(NotFound))
save c {} = Err(Missed(IsFolder))
read c/e.json = Ok("{}")
save c/e.json [] = Ok(())
read c/e.json = Ok("[]")
remove c = Err(Missed(NotEmpty))
remove g = Err(Missed(NotFound))
remove c/e.json = Ok(())
remove c = Ok(())
check c = Ok(Some(0))
write f = Ok(())
read f = Ok("")
remove f = Ok(())
"#;

/// The same of folders that are made, with those above them, and of names.
const FOLDERS: &str = r#"write f abc = Ok(())
make_folder d/e = Ok(())
make_folder d/e = Ok(())
make_folder f = Err(Missed(NotFolder))
make_folder f/x = Err(Missed(NotFolder))
make_folder = Err(Missed(NotFound))
write d/e/x abc = Ok(())
names d/e = [x]
names f = Err(Missed(NotFolder))
remove d/e = Err(Missed(NotEmpty))
remove d/e/x = Ok(())
remove d/e = Ok(())
remove d = Ok(())
"#;

/// A fresh folder in the current one has the name that was asked for, and is there until it is removed.
const FRESH: &str = "temp_folder_in . = Ok((true, Ok(()), Err(Missed(NotFound))))\n";

/// The same, and of one that stands where the system keeps such folders.
const FRESH_OF_SYSTEM: &str = "temp_folder_in . = Ok((true, Ok(()), Err(Missed(NotFound))))
temp_folder = Ok((true, Ok(()), Err(Missed(NotFound))))
";

#[test]
fn calls_in_memory(rt: HostRuntime) {
    let alloc = rt.alloc();
    says(&rt, told_in_memory(alloc, Plot::new(alloc), CALLS), CALLS);
}

#[test]
fn folders_in_memory(rt: HostRuntime) {
    let alloc = rt.alloc();
    says(
        &rt,
        told_in_memory(alloc, Plot::new(alloc), FOLDERS),
        FOLDERS,
    );
}

#[test]
fn calls_of_the_system(rt: HostRuntime) -> Result<(), Fail> {
    let host = RealHost::new(&rt, rt.alloc())?;
    says(&rt, told(rt.alloc(), host, CALLS), CALLS);
    Ok(())
}

#[test]
fn temporary_folders(rt: HostRuntime) -> Result<(), Fail> {
    let alloc = rt.alloc();
    says(&rt, told_in_memory(alloc, Plot::new(alloc), FRESH), FRESH);
    let host = RealHost::new(&rt, alloc)?;
    says(&rt, told(alloc, host, FRESH_OF_SYSTEM), FRESH_OF_SYSTEM);
    Ok(())
}
