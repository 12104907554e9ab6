//! Words that the texts of errors are made of.

ghost use Rattle.std.specs.Prelude.{◌≡◌, ◌&&◌, ◌==◌, not, codes, length};
ghost use Rattle.std.specs.List.{list_any, filter};
ghost use Rattle.just_print.specs.Usages.{is_option, is_variadic};
ghost use Rattle.just_exec.specs.Parts.{miss_text, fault_text, kind_text, usage_text, plural_end, is_needed, is_positional, least, most, has_variadic, takes_one_number};

use just_config_words::UsageKind;
use just_host_record::HostFault;
use just_lang_types::{CompileKind, Parameter};
use just_path::Miss;
use just_print::{is_option, is_optional, is_variadic};

fn miss_text(miss: Miss) -> &'static str
    ensures { result.now ≡ miss_text miss }
{
    match miss {
        Miss::NotFound => "not found",
        Miss::NotFolder => "not a folder",
        Miss::IsFolder => "is a folder",
        Miss::NotUtf8 => "not UTF-8",
        Miss::NotEmpty => "folder not empty",
        Miss::TooLarge => "too large",
    }
}

/// A refusal of a host in words.
pub(crate) fn fault_text(fault: HostFault) -> &'static str
    ensures { result.now ≡ fault_text fault }
{
    match fault {
        HostFault::Missed(miss) => miss_text(miss),
        HostFault::Failed(_) => "failed",
        HostFault::NoMemory => "out of memory",
    }
}

/// The name of a kind.
pub(crate) fn kind_text(kind: CompileKind) -> &'static str
    ensures { result.now ≡ kind_text kind }
{
    match kind {
        CompileKind::Syntax => "Syntax",
        CompileKind::Unsupported => "Unsupported",
        CompileKind::Depth => "Depth",
        CompileKind::SourceLimit => "SourceLimit",
        CompileKind::ShellExpansion => "ShellExpansion",
        CompileKind::UnknownSetting => "UnknownSetting",
        CompileKind::DuplicateSetting => "DuplicateSetting",
        CompileKind::UnknownAttribute => "UnknownAttribute",
        CompileKind::DuplicateAttribute => "DuplicateAttribute",
        CompileKind::AttributeConflict => "AttributeConflict",
        CompileKind::DuplicateRecipe => "DuplicateRecipe",
        CompileKind::DuplicateVariable => "DuplicateVariable",
        CompileKind::DuplicateAlias => "DuplicateAlias",
        CompileKind::DuplicateParameter => "DuplicateParameter",
        CompileKind::RequiredParameterFollowsDefault => "RequiredParameterFollowsDefault",
        CompileKind::UndefinedVariable => "UndefinedVariable",
        CompileKind::UnknownAliasTarget => "UnknownAliasTarget",
        CompileKind::UnknownDependency => "UnknownDependency",
        CompileKind::DependencyArgumentCount => "DependencyArgumentCount",
        CompileKind::DependencyIsOption => "DependencyIsOption",
        CompileKind::CircularVariable => "CircularVariable",
        CompileKind::CircularRecipe => "CircularRecipe",
        CompileKind::UnknownArgParameter => "UnknownArgParameter",
        CompileKind::ArgumentPatternRegex => "ArgumentPatternRegex",
        CompileKind::ArgumentPatternSize => "ArgumentPatternSize",
        CompileKind::GuardAndInfallible => "GuardAndInfallible",
        CompileKind::DuplicateDefault => "DuplicateDefault",
    }
}

/// The name of a kind.
pub(crate) fn usage_text(kind: UsageKind) -> &'static str
    ensures { result.now ≡ usage_text kind }
{
    match kind {
        UsageKind::Unknown => "Unknown",
        UsageKind::LeftOut => "LeftOut",
        UsageKind::MissingValue => "MissingValue",
        UsageKind::UnexpectedValue => "UnexpectedValue",
        UsageKind::BadValue => "BadValue",
        UsageKind::Repeated => "Repeated",
        UsageKind::Conflict => "Conflict",
        UsageKind::Requires => "Requires",
        UsageKind::NoMemory => "NoMemory",
    }
}

/// What stands behind a noun for so many things: nothing for one, else `s`.
pub(crate) fn plural_end(number: u64) -> &'static str
    ensures { result.now ≡ plural_end number }
{
    if number == 1 { "" } else { "s" }
}

/// Whether a parameter is no option.
fn is_positional(parameter: &Parameter) -> bool
    ensures { result ≡ is_positional parameter.now }
{
    !is_option(parameter)
}

/// Whether a recipe needs a positional argument for the parameter.
fn is_needed(parameter: &Parameter) -> bool
    ensures { result ≡ is_needed parameter.now }
{
    !is_option(parameter) && !is_optional(parameter)
}

/// Whether a positional parameter takes several values.
fn takes_several(parameter: &Parameter) -> bool
    ensures { result ≡ (not (is_option parameter.now) && is_variadic parameter.now.kind) }
{
    !is_option(parameter) && is_variadic(parameter.kind)
}

/// How many positional arguments a recipe needs.
pub(crate) fn least(parameters: &[Parameter]) -> usize
    ensures { result ≡ least parameters.now }
{
    parameters.iter().filter(|p| is_needed(p)).count()
}

/// How many positional parameters a recipe has.
pub(crate) fn most(parameters: &[Parameter]) -> usize
    ensures { result ≡ most parameters.now }
{
    parameters.iter().filter(|p| is_positional(p)).count()
}

/// Whether a positional parameter of a recipe takes several values.
fn has_variadic(parameters: &[Parameter]) -> bool
    ensures { result ≡ has_variadic parameters.now }
{
    parameters.iter().any(|p| takes_several(p))
}

/// Whether a recipe takes one number of positional arguments alone.
pub(crate) fn takes_one_number(parameters: &[Parameter]) -> bool
    ensures { result ≡ takes_one_number parameters.now }
{
    !has_variadic(parameters) && least(parameters) == most(parameters)
}
