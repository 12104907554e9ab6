//! Dotenv texts: the pairs of names and values that they give.
//!
//! [`read`] is the one call. It reads a text line by line, in an environment where the names in values are looked up:
//!
//! - A line holds a pair, a comment, both or neither: `A=1 # one`. A comment begins with `#` at the line's start or behind a
//!   blank (a space or a tab); in `A=1#one` the value is `1#one`.
//! - Lines end with `\n` or `\r\n`, and the last one needs neither. A byte order mark in front of the text is passed.
//! - A pair is a name, `=` and a value, with blanks round the `=` as one likes, and `export` and a blank before the name if one
//!   likes: `export A = 1`. A name begins with a letter of ASCII or `_`, and goes on with these, digits and `.`.
//! - A value in single quotes is what stands between them, each character for itself: `A='$B'` gives `$B`.
//! - A value in double quotes knows the escapes `\\`, `\"`, `\$` and `\n`, and no other: `A="two\nlines"`. Quoted values may span
//!   lines.
//! - Any other value is bare: it holds no blank, quote or backslash, and ends with the line or before a blank. It may be empty:
//!   `A=`.
//! - In a bare value and in double quotes `$NAME` and `${NAME}` mean the value of that name (letters of ASCII, digits and `_`) in the
//!   environment, else in the last pair above, else nothing: behind `A=1`, `B=$A/b` gives `1/b`. A `$` before anything else stands for
//!   itself: `A=$-` gives `$-`. A `${` that no `}` follows in its value can't be read.
//!
//! Anything else can't be read, and the whole text is refused with the line where it begins. specs/Grammar.antt has the grammar,
//! specs/Meaning.antt what a value means, and specs/File.antt what `read` says of a text.
//!
//! [`Environ`], [`Seq`], [`Text`] and [`NoMemory`] are those of the crate `just_path_text`.
#![tactic(auto)]

mod characters;
mod error;
mod file;
mod line;
mod part;
mod scope;
mod value;

pub use error::DotenvError;
pub use file::read;
pub use just_path_text::{Environ, NoMemory, Seq, Text};
