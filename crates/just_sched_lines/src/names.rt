//! The names of calls and misses.
ghost use Rattle.std.specs.Prelude.{◌≡◌};
ghost use Rattle.just_sched_lines.specs.Names.{call_name, miss_name};

use just_host_record::Call;
use just_path::Miss;

/// The name of a call's variant.
pub fn call_name(call: Call) -> &'static str
    ensures { result.now ≡ call_name call }
{
    match call {
        Call::Meta => "Meta",
        Call::List => "List",
        Call::Canonical => "Canonical",
        Call::Link => "Link",
        Call::Current => "Current",
        Call::Read => "Read",
        Call::Input => "Input",
        Call::Ask => "Ask",
        Call::Environ => "Environ",
        Call::Write => "Write",
        Call::MakeFolder => "MakeFolder",
        Call::Temp => "Temp",
        Call::Remove => "Remove",
        Call::Print => "Print",
        Call::Sum => "Sum",
        Call::Probe => "Probe",
        Call::Check => "Check",
        Call::Save => "Save",
        Call::Start => "Start",
        Call::Wait => "Wait",
        Call::Capture => "Capture",
    }
}

/// The name of a miss's variant.
pub fn miss_name(miss: Miss) -> &'static str
    ensures { result.now ≡ miss_name miss }
{
    match miss {
        Miss::NotFound => "NotFound",
        Miss::NotFolder => "NotFolder",
        Miss::IsFolder => "IsFolder",
        Miss::NotUtf8 => "NotUtf8",
        Miss::NotEmpty => "NotEmpty",
        Miss::TooLarge => "TooLarge",
    }
}
