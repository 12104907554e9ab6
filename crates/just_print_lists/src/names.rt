//! The names of variables and of groups.
ghost use Rattle.std.specs.Prelude.{◌≡◌, ◌++◌, map, IfOk, string_bytes};
ghost use Rattle.std.specs.List.{flat_map};
ghost use Rattle.just_print_lists.specs.NameLists.{variables_text, group_name, groups_text};

use super::listed::ListedModule;
use super::order::{in_order, names_of, public_by_name};
use super::summary::joined_line;
use just_lang_types::Assignment;
use just_path_text::{NoMemory, Text};
use std::alloc::{AllocError, Global};

/// The names of a module's variables that don't begin with `_`, as `--variables` prints them.
pub fn variables(alloc: Global, assignments: &[Assignment]) -> Result<String, NoMemory>
    ensures { IfOk result (λ t. string_bytes t ≡ variables_text assignments.now) }
{
    let public = public_by_name(alloc, assignments)?;
    let names = names_of(alloc, public.as_slice())?;
    joined_line(alloc, names.as_slice())
}

/// Adds the names of groups, each on a line behind the prefix.
fn push_groups(out: &mut String, prefix: &str, groups: &[&Text]) -> Result<(), AllocError>
    ensures { IfOk result
        (λ _. string_bytes out.new
        ≡ string_bytes out.old ++ flat_map (group_name prefix.now) (map (λ g. g.now) groups.now)) }
{
    'groups: for group in groups {
        out.push_str(prefix)?;
        out.push_str(group.as_str())?;
        out.push_str("\n")?;
    }
    Ok(())
}

/// The groups of what is public in a module, as `--groups` prints them.
pub fn groups(
    alloc: Global,
    unsorted: bool,
    prefix: &str,
    root: &ListedModule,
) -> Result<String, NoMemory>
    ensures { IfOk result (λ t. string_bytes t ≡ groups_text unsorted prefix.now root.now) }
{
    let ordered = in_order(alloc, unsorted, root.named_groups.as_slice())?;
    let mut out = String::from_str(alloc, "Recipe groups:\n")?;
    push_groups(&mut out, prefix, ordered.as_slice())?;
    Ok(out)
}
