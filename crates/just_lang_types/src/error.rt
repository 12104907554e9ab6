//! The rules that a justfile may break, and the first that it breaks.

use just_path::Utf8PathBuf;

/// The rule that a justfile breaks.
#[derive(Clone, Copy, Debug)]
pub enum CompileKind {
    /// The text doesn't fit the grammar.
    Syntax,
    /// A form that is left out.
    Unsupported,
    /// An expression has more than 256 levels.
    Depth,
    /// There are too many sources.
    SourceLimit,
    /// A string with an `x` in front can't be expanded.
    ShellExpansion,
    UnknownSetting,
    DuplicateSetting,
    UnknownAttribute,
    DuplicateAttribute,
    /// Two attributes, or an attribute and the body, that don't go together.
    AttributeConflict,
    DuplicateRecipe,
    DuplicateVariable,
    DuplicateAlias,
    DuplicateParameter,
    RequiredParameterFollowsDefault,
    UndefinedVariable,
    UnknownAliasTarget,
    UnknownDependency,
    DependencyArgumentCount,
    /// A recipe depends on one that has options.
    DependencyIsOption,
    CircularVariable,
    CircularRecipe,
    /// An `arg` attribute names no parameter.
    UnknownArgParameter,
    /// A pattern can't be read.
    ArgumentPatternRegex,
    /// A pattern can't be built.
    ArgumentPatternSize,
    /// A body line has both sigils `?` and `-`.
    GuardAndInfallible,
    /// Two recipes are the default one.
    DuplicateDefault,
}

/// The first rule that a justfile breaks, with its place: line and column count from 1, columns in characters.
#[derive(Drop)]
pub struct CompileError {
    pub kind: CompileKind,
    pub path: Utf8PathBuf,
    pub line: usize,
    pub column: usize,
}
