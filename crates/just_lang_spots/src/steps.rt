//! A step of a loop that picks some of the things that it goes over.
ghost use Rattle.std.specs.Prelude.{◌≡◌, ◌++◌, [], OnOk};
ghost use Rattle.std.specs.List.{cons_option};

use just_path_text::NoMemory;

/// Adds one, where there is one.
pub fn push_some<T: Drop>(list: &mut Vec<T>, one: Option<T>) -> Result<(), NoMemory>
    ensures { OnOk result (list.new.items ≡ list.old.items ++ cons_option one []) }
{
    match one {
        None => Ok(()),
        Some(one) => {
            list.push(one)?;
            Ok(())
        }
    }
}
