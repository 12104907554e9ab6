//! Expansion of variables and of a leading tilde in texts and paths, as a shell writes them.
//!
//! There are eight calls over texts, and in the module [`path`] the same eight over paths. [`env`] puts in the values of
//! variables, [`tilde`] the home folder, and [`full`] both; they ask an `Environ`. `.._with_context` asks closures in its place,
//! and `.._with_context_no_errors` one that answers each name with a value or with none. Each call takes the allocator first.
//!
//! # The ten rules
//!
//! In the examples the name `A` has the value `x`, the name `N` has none, and at the name `E` the context gives an error.
//!
//! 1. Behind `${` a name ends at the first `}`. Where none follows, `${` stands for itself, and reading goes on behind it:
//!    `${A}b` becomes `xb`, and `${b$A` becomes `${bx`.
//! 2. The first `:-` before that `}` parts the name from a default: in `${N:-a:-b}` the name is `N` and the default `a:-b`. Directly
//!    behind `${` it parts nothing, and all that stands there is the name: `${:-b}` asks for `:-b`.
//! 3. A name in braces becomes its value: `${A}` and `${A:-b}` become `x`. Without a value, and at an error, its default is put in:
//!    `${N:-b}` and `${E:-b}` become `b`. Without a default a name that has no value stays as it is written, `${N}`, and an error is
//!    the answer for the whole text: `${E}` is refused by [`Expand::Lookup`].
//! 4. A name without braces is the longest run of letters, numbers and `_` behind `$`, of at least one: `$A-b` becomes `x-b`, and
//!    `$Ab` asks for `Ab`. It becomes its value; without one it stays, `$N`, and an error is the answer: `$E` is refused.
//! 5. `$$` becomes `$`, and any other `$` stays: `$$A` becomes `$A`, and `5$-` stays. Values and defaults are put in as they stand, and
//!    not expanded again: `${N:-$A}` becomes `$A`. Names are asked for from left to right, each where it stands, and none behind
//!    an error: `$A$E$A` asks for `A` and for `E`.
//! 6. Letters and numbers are Unicode's: what has the property Alphabetic, or a general category of Number. `$é` asks for `é`, and
//!    `$n²` for `n²`.
//! 7. A tilde is expanded as the first character alone, and there before `/` or at the end. Where the home folder is `/h`, `~/b`
//!    becomes `/h/b`, and `~` becomes `/h`; `~b` and `b/~` stay. Without a home folder the text stays.
//! 8. The calls named `full` expand the variables first and then the tilde, unless a variable or a default brought it to the front:
//!    `~/$A` becomes `/h/x`, but `${N:-~}/b` becomes `~/b`.
//! 9. `env` and `full` ask the environment, where a name that isn't there is the error [`NotPresent`]. So `$N` is refused there, with
//!    the text ``error looking key 'N' up: environment variable not found``, and `${N:-b}` becomes `b`.
//! 10. A text without `$` and without a leading `~`, as `a/b`, is answered as it stands: borrowed, without taking memory.
//!
//! specs/Pieces.antt says how a text is cut into pieces, specs/Expansion.antt what they become and what is asked for, and
//! specs/Tilde.antt what becomes of a tilde.
//!
//! [`Environ`], [`NoMemory`], [`Seq`], [`Text`], [`Utf8Path`] and [`Utf8PathBuf`] are those of the crate `just_path`.
#![tactic(auto)]

mod error;
mod expand;
mod home;
pub mod path;
mod piece;
mod texts;
mod tildes;

pub use error::{Expand, LookupError, NotPresent, OString};
pub use home::{full, full_with_context, full_with_context_no_errors, tilde, tilde_with_context};
pub use just_path::{Environ, NoMemory, Seq, Text, Utf8Path, Utf8PathBuf};
pub use texts::{WInput, Wstr, Xstr, env, env_with_context, env_with_context_no_errors};
