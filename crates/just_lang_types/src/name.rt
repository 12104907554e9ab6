//! The names that recipes can have.

ghost use Rattle.std.specs.Prelude.{◌≡◌, ◌↔◌, IsTrue};
ghost use Rattle.std.specs.List.{list_all};
ghost use Rattle.just_lang_read.specs.Characters.{begins_name, in_name};
ghost use Rattle.just_lang_types.specs.Names.{IsName};

fn is_name_start(byte: u8) -> bool
    ensures { result ≡ begins_name byte }
{
    matches!(byte, b'A'..=b'Z' | b'a'..=b'z' | b'_')
}

fn is_name_part(byte: u8) -> bool
    ensures { result ≡ in_name byte }
{
    is_name_start(byte) || matches!(byte, b'0'..=b'9' | b'-')
}

/// Whether a text has only a name's characters.
fn is_name_run(text: &[u8]) -> bool
    ensures { result ≡ list_all in_name text.now }
{
    text.iter().all(|byte| is_name_part(*byte))
}

/// Whether a whole text is the name that a recipe can have.
pub fn is_recipe_name(text: &str) -> bool
    ensures { IsTrue result ↔ IsName text.now }
{
    match text.as_bytes() {
        [first, rest @ ..] => {
            if !is_name_start(*first) {
                return false;
            }
            is_name_run(rest)
        }
        [] => false,
    }
}
