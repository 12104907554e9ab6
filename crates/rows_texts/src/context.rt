//! The environment of the rows, and the contexts over it.

use std::alloc::Global;

/// The home folder of the rows.
const HOME: &str = "/h";

/// The names that have a value. Beside them `ERR` is refused.
const KNOWN: [(&str, &str); 4] = [("A", "x"), ("B", ""), ("HOMEY", "~"), ("LONG_1", "v/w")];

/// The environment with these names and the home folder, as a row's field.
pub(crate) const ENVIRONMENT: &str = "HOME=/h|A=x|B=|HOMEY=~|LONG_1=v/w";

/// The answer of a context that refuses a name.
#[derive(Clone, Copy, Debug, PartialEq, Eq)]
pub(crate) struct Refused;

/// The home folder; none where memory is wanting, which no row calls for. It promises nothing beyond safety.
pub(crate) fn home(alloc: Global) -> Option<String> {
    String::from_str(alloc, HOME).ok()
}

/// The value of a name; none where memory is wanting, which no row calls for. It promises nothing beyond safety.
pub(crate) fn value(alloc: Global, name: &str) -> Option<String> {
    for (known, value) in KNOWN {
        if name == known {
            return String::from_str(alloc, value).ok();
        }
    }
    None
}

/// The value of a name, or a refusal. It promises nothing beyond safety.
pub(crate) fn value_or_refused(alloc: Global, name: &str) -> Result<Option<String>, Refused> {
    if name == "ERR" {
        return Err(Refused);
    }
    Ok(value(alloc, name))
}

/// Whether the name that is refused stands among those that a row asks for. It promises nothing beyond safety.
pub(crate) fn has_refused(names: &str) -> bool {
    names.split('|').any(|name| name == "=ERR")
}

/// Whether each name that a row asks for has a value. It promises nothing beyond safety.
pub(crate) fn are_known(names: &str) -> bool {
    for name in names.split('|') {
        if !matches!(name, "-" | "=A" | "=B" | "=HOMEY" | "=LONG_1") {
            return false;
        }
    }
    true
}
