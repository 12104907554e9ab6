//! The listing of a project.
ghost use Rattle.std.specs.Prelude.{◌≡◌, ◌≢◌, ◌++◌, map, reverse, Some, None, MatchOption, IfOk, IfErr, OnOk, string_bytes};
ghost use Rattle.just_print_entries.specs.declared.lists.ListError.TheVariants as error;
ghost use Rattle.just_print_entries.specs.Listings.{pieces, IsListing, unknown_group};
ghost use Rattle.just_print_entries.specs.Written.{piece_of, added, opened};

use super::options::ListOptions;
use super::part::Part;
use super::pieces::pieces;
use just_path_text::{NoMemory, Text};
use just_print_lists::{ListedModule, has_name};
use std::alloc::Global;

/// Why a project isn't listed.
#[derive(Drop)]
pub enum ListError {
    /// A group was given that nothing is in that would be listed.
    UnknownGroup(Text),
    NoMemory,
}

impl From<NoMemory> for ListError {
    ghost from_gives = { λ _ e. e ≡ error.NoMemory };

    fn from(_refused: NoMemory) -> ListError {
        ListError::NoMemory
    }
}

/// Puts parts on top of those that are pending, the first one on top.
#[tactic(auto, using(crate::proofs::Turned::one_turned, crate::proofs::Turned::all_turned))]
fn push_parts<'j>(pending: &mut Vec<Part<'j>>, parts: Vec<Part<'j>>) -> Result<(), NoMemory>
    ensures { OnOk result (pending.new.items ≡ pending.old.items ++ reverse parts.entry.items) }
{
    let mut left = parts;
    'parts: while let Some(part) = left.pop() {
        pending.push(part)?;
    }
    Ok(())
}

/// Puts the parts of a module on top of those that are pending, the first one on top.
#[tactic(auto, using(crate::proofs::Turned::made_turned))]
fn push_pieces<'j>(
    alloc: Global,
    options: &ListOptions<'_>,
    pending: &mut Vec<Part<'j>>,
    given: &[Text],
    indent: &str,
    outer: &'j ListedModule,
) -> Result<(), NoMemory>
    ensures { OnOk result
        (map piece_of pending.new.items
        ≡ map piece_of pending.old.items
        ++ reverse (pieces options.now given.now indent.now outer.now)) }
{
    let parts = pieces(alloc, options, given, indent, outer)?;
    push_parts(pending, parts)
}

/// Writes lines, or puts the parts of a module on top of what is pending.
fn write_part<'j>(
    alloc: Global,
    options: &ListOptions<'_>,
    out: &mut String,
    pending: &mut Vec<Part<'j>>,
    part: Part<'j>,
) -> Result<(), NoMemory>
    ensures text { OnOk result
        (string_bytes out.new ≡ string_bytes out.old ++ added (piece_of part.entry)) }
    ensures parts { OnOk result
        (map piece_of pending.new.items
        ≡ map piece_of pending.old.items ++ reverse (opened options.now (piece_of part.entry))) }
{
    match part {
        Part::Lines(text) => {
            out.push_str(text.as_str())?;
            Ok(())
        }
        Part::Inner(indent, inner) => {
            push_pieces(alloc, options, pending, &[], indent.as_str(), inner)
        }
    }
}

/// The listing of a module.
#[tactic(auto, using(crate::proofs::Writing::begun, crate::proofs::Writing::all_written))]
fn listing(
    alloc: Global,
    options: &ListOptions<'_>,
    root: &ListedModule,
) -> Result<String, NoMemory>
    ensures { IfOk result (λ t. IsListing options.now root.now (string_bytes t)) }
{
    let mut out = String::from_str(alloc, options.heading)?;
    let mut pending: Vec<Part<'_>> = Vec::new(alloc);
    push_pieces(
        alloc,
        options,
        &mut pending,
        options.groups,
        options.prefix,
        root,
    )?;
    'parts: while let Some(part) = pending.pop() {
        write_part(alloc, options, &mut out, &mut pending, part)?;
    }
    Ok(out)
}

/// The first of some groups that a module doesn't have.
fn unknown_group<'g>(given: &'g [Text], root: &ListedModule) -> Option<&'g Text>
    ensures { MatchOption result (unknown_group given.now root.now ≡ None)
        (λ g. unknown_group given.now root.now ≡ Some g.now) }
{
    'given: for group in given {
        if !has_name(root.named_groups.as_slice(), group.as_str()) {
            return Some(group);
        }
    }
    None
}

/// The listing of a module, as `--list` prints it.
pub fn list(
    alloc: Global,
    options: &ListOptions<'_>,
    root: &ListedModule,
) -> Result<String, ListError>
    ensures listed { IfOk result (λ t. IsListing options.now root.now (string_bytes t)) }
    ensures known { IfOk result (λ _. unknown_group options.now.groups.now root.now ≡ None) }
    ensures refused { IfErr result
        (λ e. e ≢ error.NoMemory
        → MatchOption (unknown_group options.now.groups.now root.now) ⊥
        (λ g. e ≡ error.UnknownGroup g)) }
{
    if let Some(group) = unknown_group(options.groups, root) {
        return Err(ListError::UnknownGroup(group.try_clone()?));
    }
    let text = listing(alloc, options, root)?;
    Ok(text)
}
