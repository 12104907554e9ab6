//! A body's way from a miss to a hit, its inputs, and how entries go: the same calls, one after the other, have the same answers over every host.

use crate::shown::says;
use crate::told::{told, told_in_memory};
use just_host::{Plot, RealHost};
use std::test::Fail;

/// Inputs with their digests, and outputs of a body, between what makes the files and what takes them away.
const CACHE: &str = r#"write in.txt abc = Ok(())
write out = Ok(())
digests out in.txt out = Ok("in.txt ba7816bf8f01cfea414140de5dae2223b00361a396177a9cb410ff61f20015ad\nout e3b0c44298fc1c149afbf4c8996fb92427ae41e4649b934ca495991b7852b855\n")
digests none . = Err(InputMissing("./none"))
digests . none = Err(InputDirectory("./."))
body out = Ok("{\"recipe\":\"m\"}")
body out = Ok("hit")
body none = Ok("{\"recipe\":\"m\"}")
remove_entry = Ok(())
remove ./.justcache = Ok(())
remove in.txt = Ok(())
remove out = Ok(())
"#;

/// A folder with the entry of a module's recipe, that of another one, a text that is no entry, and a folder.
const CLEANED: &str = r#"clean c = Ok("no folder")
make_folder c/d = Ok(())
write c/0000000000000000000000000000000000000000000000000000000000000000.json {"recipe":"server::build"} = Ok(())
write c/1111111111111111111111111111111111111111111111111111111111111111.json {"recipe":"clean"} = Ok(())
write c/2222222222222222222222222222222222222222222222222222222222222222.json x = Ok(())
clean c server = Ok("2 removed")
names c = [1111111111111111111111111111111111111111111111111111111111111111.json][d]
clean c = Ok("1 removed")
names c = [d]
remove c/d = Ok(())
clean c = Ok("0 removed")
names c = Err(Missed(NotFound))
"#;

#[test]
fn cache_in_memory(rt: HostRuntime) {
    let alloc = rt.alloc();
    says(&rt, told_in_memory(alloc, Plot::new(alloc), CACHE), CACHE);
}

#[test]
fn cache_of_the_system(rt: HostRuntime) -> Result<(), Fail> {
    let host = RealHost::new(&rt, rt.alloc())?;
    says(&rt, told(rt.alloc(), host, CACHE), CACHE);
    Ok(())
}

#[test]
fn cleaned_in_memory(rt: HostRuntime) {
    let alloc = rt.alloc();
    says(
        &rt,
        told_in_memory(alloc, Plot::new(alloc), CLEANED),
        CLEANED,
    );
}

#[test]
fn cleaned_of_the_system(rt: HostRuntime) -> Result<(), Fail> {
    let host = RealHost::new(&rt, rt.alloc())?;
    says(&rt, told(rt.alloc(), host, CLEANED), CLEANED);
    Ok(())
}
