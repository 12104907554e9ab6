//! A whole text: its lines, from the first to the last.
ghost use Rattle.std.specs.Prelude.{◌≡◌, IfOk, IfErr, MatchResult, List, ℕ, chars};
ghost use Rattle.just_dotenv.specs.File.{first_line, Gives, IsRefusedFor};
ghost use Rattle.just_dotenv.specs.Readers.{as_line, line, ReadsLine};

use super::DotenvError;
use super::line::read_line;
use super::scope::{Scope, add_pair};
use just_lang_read::{Cursor, ReadError};
use just_path_text::{Environ, Seq, Text};
use std::alloc::{AllocError, Global};
use std::collections::BTreeMap;

/// Answers the pairs of a dotenv text, in its order, one for each line that has one. A name that stands twice has two pairs.
///
/// The head of the crate says how a line is written. A `$NAME` or `${NAME}` in a bare or double quoted value means the
/// environment's value of that name, else that of the last pair above it, else nothing.
///
/// A text that isn't written so has no pairs, and is refused by `DotenvError::Line`: the line on which the first entry begins
/// that can't be read. The only other answer is `DotenvError::NoMemory`. There is no condition.
///
/// ```
/// // in an environment where HOME is `/h`
/// let pairs = read(alloc, "A=1\nexport B=\"$HOME $A\" # where\nC='$A'\n", &environ)?;
/// // A is `1`, B is `/h 1`, and C is `$A`
/// let refused = read(alloc, "A=1\n=2\n", &environ); // Err(DotenvError::Line(2))
/// ```
#[tactic(auto, using(crate::proofs::FileLaws::up_to_none, crate::proofs::LastValues::values_none))]
pub fn read(alloc: Global, text: &str, environ: &Environ) -> Result<Seq<(Text, Text)>, DotenvError>
    // What is answered, the text gives in this environment.
    ensures given { IfOk result (Gives (chars text.now) environ.now.pairs) }
    // What the text gives is answered, unless memory is wanting: so it gives one list at most.
    ensures all { (pairs : List (List ℕ × List ℕ)) → Gives (chars text.now) environ.now.pairs pairs → MatchResult result (λ found. found ≡ pairs) (λ e. e ≡ DotenvError.NoMemory) }
    // A refused text has no pairs, and the line is that of the first entry that can't be read.
    ensures refused { IfErr result (IsRefusedFor (chars text.now)) }
{
    let characters = characters(alloc, text)?;
    let mut cursor = first_line(characters.as_slice());
    let mut pairs: Vec<(Text, Text)> = Vec::new(alloc);
    let mut values: BTreeMap<Text, Text> = BTreeMap::new(alloc);
    'lines: while !cursor.is_at_end() {
        let scope = Scope {
            environ,
            earlier: pairs.as_slice(),
            values: &values,
        };
        match next_pair(alloc, &mut cursor, &scope) {
            Ok(Some(pair)) => add_pair(&mut pairs, &mut values, pair)?,
            Ok(None) => {}
            Err(refusal) => return Err(refusal),
        }
    }
    Ok(Seq::from(pairs))
}

/// The characters of a text.
fn characters(alloc: Global, text: &str) -> Result<Vec<char>, AllocError>
    ensures { IfOk result (λ v. v.items ≡ chars text.now) }
{
    text.chars().collect(alloc)
}

/// The place where the first line begins: behind the byte order mark, where the text begins with one.
fn first_line(characters: &[char]) -> Cursor<'_>
    ensures { result ≡ first_line characters.now }
{
    let mut cursor = Cursor::new(characters);
    if cursor.sees('\u{feff}') {
        cursor.step();
    }
    cursor
}

/// The next line's pair, if it has one; or the line on which an entry begins that can't be read.
fn next_pair(
    alloc: Global,
    cursor: &mut Cursor<'_>,
    scope: &Scope<'_>,
) -> Result<Option<(Text, Text)>, DotenvError>
    ensures { ReadsLine (as_line scope.now.environ.now.pairs scope.now.earlier.now line cursor.old) cursor.old.line result cursor.new }
{
    let line = cursor.line();
    match read_line(alloc, cursor, scope) {
        Ok(pair) => Ok(pair),
        Err(ReadError::NoMemory) => Err(DotenvError::NoMemory),
        Err(ReadError::Syntax | ReadError::Depth) => Err(DotenvError::Line(line)),
    }
}
