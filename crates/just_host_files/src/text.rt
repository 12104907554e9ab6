//! The texts that bytes are.
ghost use Rattle.std.specs.Prelude.{◌≤◌, IfOk, length, string_bytes};
ghost use Rattle.just_host_record.specs.declared.outside.TheConstants.{MAX_BYTES};
ghost use Rattle.just_host_record.specs.World.{text_in};
ghost use Rattle.just_host_files.specs.Texts.{Tells};

use just_host_record::MAX_BYTES;
use just_path::Miss;

/// The text that these bytes are, or why they are none that can be read.
pub fn text_of(bytes: Vec<u8>) -> Result<String, Miss>
    ensures told { Tells (text_in bytes.items) result }
    ensures limit { IfOk result (λ s. length (string_bytes s) ≤ MAX_BYTES) }
{
    if bytes.len() > MAX_BYTES {
        return Err(Miss::TooLarge);
    }
    match String::from_utf8(bytes) {
        Ok(text) => Ok(text),
        Err(_) => Err(Miss::NotUtf8),
    }
}
