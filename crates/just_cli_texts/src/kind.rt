//! What a command does.

ghost use Rattle.std.specs.Prelude.{◌≡◌};
ghost use Rattle.just_cli_texts.specs.Kinds.{is_choice, is_new, is_placed, is_vectors, kind_of, reads_justfile, words_of};

use just_config::Subcommand;
use just_path_text::Text;

/// What a command does.
#[derive(Clone, Copy)]
pub enum Kind {
    /// There is no command: recipes are run, or a module is listed.
    Run,
    /// A new justfile is written.
    New,
    /// A request is answered.
    Respond,
    /// A run over a host in memory is told of.
    Vectors,
    /// The justfile is written anew in one style.
    Format,
    /// The cache is cleaned.
    Clean,
    /// Values of variables are printed.
    Evaluate,
    /// A text is printed that the project alone gives.
    Print,
    /// Recipes are chosen, and run.
    Choose,
    /// The justfile is opened in an editor.
    Edit,
    /// One command is run in the project's environment.
    Command,
}

/// What a command does, where there is one.
pub fn kind_of(command: &Option<Subcommand>) -> Kind
    ensures { result ≡ kind_of command.now }
{
    match command {
        None => Kind::Run,
        Some(Subcommand::Init(_)) => Kind::New,
        Some(Subcommand::Request(_)) => Kind::Respond,
        Some(Subcommand::Vectors(_)) => Kind::Vectors,
        Some(Subcommand::Fmt(_)) => Kind::Format,
        Some(Subcommand::Clean(_)) => Kind::Clean,
        Some(Subcommand::Evaluate(_)) => Kind::Evaluate,
        Some(Subcommand::Choose(_)) => Kind::Choose,
        Some(Subcommand::Edit(_)) => Kind::Edit,
        Some(Subcommand::Command(_)) => Kind::Command,
        Some(
            Subcommand::Dump(_)
            | Subcommand::Groups(_)
            | Subcommand::List(_)
            | Subcommand::Show(_)
            | Subcommand::Summary(_)
            | Subcommand::Usage(_)
            | Subcommand::Variables(_),
        ) => Kind::Print,
    }
}

/// Whether a justfile is read for it.
pub fn reads_justfile(kind: Kind) -> bool
    ensures { result ≡ reads_justfile kind }
{
    match kind {
        Kind::New | Kind::Respond | Kind::Vectors => false,
        Kind::Run
        | Kind::Format
        | Kind::Clean
        | Kind::Evaluate
        | Kind::Print
        | Kind::Choose
        | Kind::Edit
        | Kind::Command => true,
    }
}

/// Whether it asks for a new justfile.
pub fn is_new(kind: Kind) -> bool
    ensures { result ≡ is_new kind }
{
    match kind {
        Kind::New => true,
        Kind::Run
        | Kind::Respond
        | Kind::Vectors
        | Kind::Format
        | Kind::Clean
        | Kind::Evaluate
        | Kind::Print
        | Kind::Choose
        | Kind::Edit
        | Kind::Command => false,
    }
}

/// Whether it tells of a run over a host in memory.
pub fn is_vectors(kind: Kind) -> bool
    ensures { result ≡ is_vectors kind }
{
    match kind {
        Kind::Vectors => true,
        Kind::Run
        | Kind::New
        | Kind::Respond
        | Kind::Format
        | Kind::Clean
        | Kind::Evaluate
        | Kind::Print
        | Kind::Choose
        | Kind::Edit
        | Kind::Command => false,
    }
}

/// Whether it asks something of the justfile in its place.
pub fn is_placed(kind: Kind) -> bool
    ensures { result ≡ is_placed kind }
{
    match kind {
        Kind::Format | Kind::Clean | Kind::Evaluate | Kind::Print | Kind::Edit | Kind::Command =>
            true,
        Kind::Run | Kind::New | Kind::Respond | Kind::Vectors | Kind::Choose => false,
    }
}

/// Whether recipes are chosen for it.
pub fn is_choice(kind: Kind) -> bool
    ensures { result ≡ is_choice kind }
{
    match kind {
        Kind::Choose => true,
        Kind::Run
        | Kind::New
        | Kind::Respond
        | Kind::Vectors
        | Kind::Format
        | Kind::Clean
        | Kind::Evaluate
        | Kind::Print
        | Kind::Edit
        | Kind::Command => false,
    }
}

/// The words of a command.
pub fn words_of(command: &Option<Subcommand>) -> &[Text]
    ensures { result.now ≡ words_of command.now }
{
    match command {
        None => &[],
        Some(
            Subcommand::Choose(words)
            | Subcommand::Clean(words)
            | Subcommand::Command(words)
            | Subcommand::Dump(words)
            | Subcommand::Edit(words)
            | Subcommand::Evaluate(words)
            | Subcommand::Fmt(words)
            | Subcommand::Groups(words)
            | Subcommand::Init(words)
            | Subcommand::List(words)
            | Subcommand::Request(words)
            | Subcommand::Show(words)
            | Subcommand::Summary(words)
            | Subcommand::Usage(words)
            | Subcommand::Variables(words)
            | Subcommand::Vectors(words),
        ) => words.as_slice(),
    }
}
