//! Children that are fed and whose output is read, answers to prompts, and standard input.

use crate::shown::says;
use crate::told::told_in_memory;
use just_exec_work::one_text;
use just_host::{Ending, Host, HostFault, MAX_BYTES, Plot, RealHost, Spec, Status};
use just_lang_read::Boxed;
use just_path::Miss;
use just_path_text::{NoMemory, Seq, Text};
use std::alloc::{AllocError, Global};
use std::test::Fail;

/// How a child ended, and how many bytes it printed.
type Outcome = Result<(Status, usize), HostFault>;

/// The arguments `-c LINE`.
fn arguments(alloc: Global, line: &str) -> Result<Seq<Text>, NoMemory> {
    let mut arguments = Vec::new(alloc);
    arguments.push(Text::from_str(alloc, "-c")?)?;
    arguments.push(Text::from_str(alloc, line)?)?;
    Ok(Seq::from(arguments))
}

/// `sh -c LINE`.
fn shell(alloc: Global, line: &str) -> Result<Boxed<Spec>, NoMemory> {
    let arguments = arguments(alloc, line)?;
    let program = Text::from_str(alloc, "sh")?;
    let spec = Spec {
        program,
        arguments,
        folder: None,
        changes: Seq::new(alloc),
        script: None,
    };
    Ok(Boxed::new(alloc, spec)?)
}

/// How a child ended, and how many bytes it printed.
pub(crate) fn captured<H: Host>(alloc: Global, host: &mut H, line: &str, input: &[u8]) -> Outcome {
    let spec = shell(alloc, line)?;
    match host.capture(spec.get(), input) {
        Ok((status, output)) => Ok((status, output.len())),
        Err(fault) => Err(fault),
    }
}

/// What comes back of the most bytes that may: all of it, nothing where it isn't read, nothing where nothing is fed, and
/// no answer where it is too much.
fn fed<H: Host + Drop>(alloc: Global, host: H, most: Vec<u8>) -> [Outcome; 4] {
    let mut host = host;
    let most = most.as_slice();
    [
        captured(alloc, &mut host, "cat", most),
        captured(alloc, &mut host, "exit 3", most),
        captured(alloc, &mut host, "cat", b""),
        captured(alloc, &mut host, "cat; echo", most),
    ]
}

/// The most bytes that may come back.
fn most(alloc: Global) -> Result<Vec<u8>, AllocError> {
    let mut most = Vec::new(alloc);
    most.resize(MAX_BYTES, b'a')?;
    Ok(most)
}

#[test]
fn what_is_fed_comes_back(rt: HostRuntime) -> Result<(), Fail> {
    let alloc = rt.alloc();
    let most = most(alloc)?;
    let host = RealHost::new(&rt, alloc)?;
    assert_eq!(rt;
        fed(alloc, host, most),
        [
            Ok((Status::Code(0), MAX_BYTES)),
            Ok((Status::Code(3), 0)),
            Ok((Status::Code(0), 0)),
            Err(HostFault::Missed(Miss::TooLarge)),
        ]
    );
    Ok(())
}

/// A child that is given `-c cat` prints `out`.
fn ending(alloc: Global) -> Result<Ending, NoMemory> {
    let output = Seq::from(Vec::from_slice(alloc, b"out")?);
    let word = Text::from_str(alloc, "-c cat")?;
    Ok(Ending {
        word,
        status: Status::Code(7),
        output,
        effects: Vec::new(alloc),
    })
}

/// The one ending.
fn endings(alloc: Global) -> Result<Vec<Ending>, NoMemory> {
    let mut endings = Vec::new(alloc);
    endings.push(ending(alloc)?)?;
    Ok(endings)
}

/// A plot in which a child prints `out`, a prompt is answered once, and standard input is `in`.
fn plot(alloc: Global) -> Result<Plot, NoMemory> {
    let input = Seq::from(Vec::from_slice(alloc, b"in")?);
    let answers = one_text(alloc, "yes")?;
    let endings = endings(alloc)?;
    Ok(Plot {
        endings,
        answers,
        input,
        fails: Seq::new(alloc),
        signals: Seq::new(alloc),
    })
}

/// The ending is used up by the first child, and the answer by the first prompt.
const PLAYED: &str = r#"capture cat = Ok((Code(7), 3))
capture cat = Ok((Code(0), 0))
ask sure?  = Ok("yes")
ask sure?  = Ok("")
input = Ok("in")
"#;

#[test]
fn the_plot_is_played(rt: HostRuntime) -> Result<(), Fail> {
    let alloc = rt.alloc();
    let plot = plot(alloc)?;
    says(&rt, told_in_memory(alloc, plot, PLAYED), PLAYED);
    Ok(())
}
