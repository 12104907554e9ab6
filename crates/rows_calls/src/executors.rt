//! The errors of scripts whose children couldn't be started, by what runs them.

use crate::shown::says;
use just_exec::{Call, Executor, HostFault, Interpreter, Miss, Shebang, executor_error};
use just_exec_work::one_text;
use just_path_text::{NoMemory, Text};
use std::alloc::Global;

/// The text of the error of the script of the recipe `a`, which that runs.
fn told(alloc: Global, executor: &Executor<'_>, fault: HostFault) -> Result<String, NoMemory> {
    let error = executor_error(alloc, executor, fault, "a")?;
    error.text(alloc)
}

/// The same of a script that names its interpreter in that line.
fn told_of_shebang(alloc: Global, line: &str, fault: HostFault) -> Result<String, NoMemory> {
    match Shebang::new(line) {
        Some(shebang) => told(alloc, &Executor::Shebang(shebang), fault),
        None => Err(NoMemory),
    }
}

/// The command `sh -eu`.
fn command(alloc: Global) -> Result<Executor<'static>, NoMemory> {
    let command = Text::from_str(alloc, "sh")?;
    Ok(Executor::Command(Interpreter {
        command,
        arguments: one_text(alloc, "-eu")?,
    }))
}

/// The same of a script that the command `sh -eu` runs.
fn told_of_command(alloc: Global, fault: HostFault) -> Result<String, NoMemory> {
    let executor = command(alloc)?;
    told(alloc, &executor, fault)
}

#[test]
fn executor_errors(rt: HostRuntime) {
    let alloc = rt.alloc();
    let failed = HostFault::Failed(Call::Start);
    let text = told_of_shebang(alloc, "#!/usr/bin/env python3", failed);
    says(
        &rt,
        text,
        "error: recipe `a` with shebang `#!/usr/bin/env python3` execution error: failed",
    );
    let text = told_of_shebang(alloc, "#!sh", HostFault::Missed(Miss::NotFound));
    says(
        &rt,
        text,
        "error: recipe `a` with shebang `#!sh` execution error: not found",
    );
    says(
        &rt,
        told_of_command(alloc, failed),
        "error: recipe `a` with command `sh -eu` execution error: failed",
    );
    says(
        &rt,
        told_of_command(alloc, HostFault::NoMemory),
        "error: out of memory",
    );
}
