//! Plans of recipes of small justfiles.

use super::hosts::no_environ;
use just_cli_plan::{DotenvAsk, Wanted, plan_of_project, project_of_sources};
use just_exec_work::{RunFlags, one_text};
use just_lang_types::Source;
use just_path::Utf8Path;
use just_path_text::{Environ, NoMemory, Seq, Text};
use just_sched::Plan;
use std::alloc::Global;
use std::process::Abort;

/// How recipes of the root folder are run, where the words say nothing of it.
fn plain_flags(alloc: Global) -> Result<RunFlags, NoMemory> {
    Ok(RunFlags {
        shell: None,
        shell_args: None,
        quiet: false,
        loquacious: false,
        dry_run: false,
        no_cache: false,
        yes: false,
        explain: false,
        tempdir: None,
        folder: Utf8Path::new("/").to_path_buf(alloc)?,
    })
}

/// No dotenv files.
fn no_dotenv(alloc: Global) -> DotenvAsk {
    DotenvAsk {
        commands: Seq::new(alloc),
        filenames: Seq::new(alloc),
        paths: Seq::new(alloc),
        load: false,
        dry_run: false,
    }
}

/// That one recipe.
fn wanted(alloc: Global, name: &str) -> Result<Wanted, NoMemory> {
    let words = one_text(alloc, name)?;
    let cache_folder = Utf8Path::new("/.justcache").to_path_buf(alloc)?;
    let flags = plain_flags(alloc)?;
    Ok(Wanted {
        words,
        overrides: Seq::new(alloc),
        one: false,
        no_deps: false,
        dotenv: no_dotenv(alloc),
        unstable: false,
        jobs: None,
        cache_folder,
        flags,
    })
}

/// The justfile of that text, in the root folder.
fn source(alloc: Global, text: &str) -> Result<Source, NoMemory> {
    Ok(Source {
        path: Utf8Path::new("/justfile").to_path_buf(alloc)?,
        root: Utf8Path::new("/").to_path_buf(alloc)?,
        text: Text::from_str(alloc, text)?,
    })
}

/// What a plan is made of.
struct Request {
    sources: [Source; 1],
    environ: Environ,
    wanted: Wanted,
}

impl Drop for Request {
    fn drop(self) {
        let Request {
            sources: _,
            environ: _,
            wanted: _,
        } = self;
    }
}

/// What a plan of that recipe of that justfile is made of.
fn request_of(alloc: Global, text: &str, name: &str) -> Result<Request, NoMemory> {
    let source = source(alloc, text)?;
    let wanted = wanted(alloc, name)?;
    Ok(Request {
        sources: [source],
        environ: no_environ(alloc),
        wanted,
    })
}

/// The plan that is asked for, which isn't refused. The call of `drop` stands in place of a walk through all fields of the justfile at
/// the scope's end.
fn planned(rt: &impl Abort, alloc: Global, request: &Request) -> Plan {
    let environ = &request.environ;
    let wanted = &request.wanted;
    let justfile = match project_of_sources(alloc, &request.sources, environ, wanted) {
        Ok(justfile) => justfile,
        Err(_) => panic!(rt; "no project"),
    };
    let plan = match plan_of_project(alloc, &justfile, &[], environ, wanted) {
        Ok((plan, _)) => plan,
        Err(_) => panic!(rt; "no plan"),
    };
    drop(justfile);
    plan
}

/// The plan of a recipe of that justfile. Where it is refused the test ends; the one error is want of memory. No clause: it serves tests alone.
pub fn plan_of(rt: &impl Abort, alloc: Global, text: &str, name: &str) -> Result<Plan, NoMemory> {
    let request = request_of(alloc, text, name)?;
    Ok(planned(rt, alloc, &request))
}
