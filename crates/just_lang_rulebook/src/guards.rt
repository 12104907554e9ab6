//! The rule that a body line doesn't have both sigils `?` and `-`, where guards are set.
ghost use Rattle.std.specs.Prelude.{◌≡◌, ◌<◌, false, drop, length, IfOk};
ghost use Rattle.just_lang_spots.specs.Spots.{first_spot};
ghost use Rattle.just_lang_rulebook.specs.Front.{goes_on};
ghost use Rattle.just_lang_rulebook.specs.GuardSpots.{guard_spot, guard_spots_of};

use super::items::first_in_items;
use super::line_front::{front, goes_on};
use super::sigils::is_guard_and_infallible;
use just_lang_spots::{Entry, ModuleRule, Rule, Spot, earlier, is_set, spot_where};
use just_lang_syntax::{AstItem, Line};
use just_lang_types::is_script;
use just_path_text::NoMemory;
use std::alloc::Global;

/// The beginning of the first of these lines, where it continues none and its front has both sigils.
fn guard_spot(
    alloc: Global,
    file: usize,
    is_continued: bool,
    lines: &[Line],
) -> Result<Option<Spot>, NoMemory>
    ensures { IfOk result (λ s. s ≡ first_spot (guard_spot file is_continued lines.now)) }
{
    match lines {
        [] => Ok(None),
        [line, ..] => {
            if is_continued {
                return Ok(None);
            }
            let text = front(alloc, lines)?;
            let is_both = is_guard_and_infallible(alloc, text.as_slice())?;
            let spot = Spot {
                file,
                line: line.number,
                column: 1,
            };
            Ok(spot_where(is_both, spot))
        }
    }
}

/// The lines from a place on.
fn lines_from(body: &[Line], at: usize) -> &[Line]
    requires { at < length body.now }
    ensures { result.now ≡ drop at body.now }
{
    &body[at..]
}

/// Whether the line goes on with the next.
fn line_goes_on(line: &Line) -> bool
    ensures { result ≡ goes_on line.now.fragments }
{
    goes_on(line.fragments.as_slice())
}

/// The first such line of a body.
#[tactic(auto, using(just_lang_spots::proofs::Spots::earlier_none))]
fn first_of_body(alloc: Global, file: usize, body: &[Line]) -> Result<Option<Spot>, NoMemory>
    ensures { IfOk result (λ s. s ≡ first_spot (guard_spots_of file false body.now)) }
{
    let mut found = None;
    let mut is_continued = false;
    'lines: for at in 0..body.len() {
        let tail = lines_from(body, at);
        let here = guard_spot(alloc, file, is_continued, tail)?;
        found = earlier(found, here);
        is_continued = line_goes_on(&body[at]);
    }
    Ok(found)
}

/// The rule that no line of the body of a recipe has both sigils, where the body is no script.
#[derive(Clone, Copy, Drop)]
struct GuardLines;

impl Rule<AstItem> for GuardLines {
    ghost use Rattle.just_lang_rulebook.specs.GuardSpots.{guard_spots_in};

    ghost spots = { λ _ file x. guard_spots_in file x };

    fn first(&self, alloc: Global, file: usize, thing: &AstItem) -> Result<Option<Spot>, NoMemory> {
        match thing {
            AstItem::Recipe(recipe) => {
                let recipe = recipe.get();
                if is_script(recipe) {
                    return Ok(None);
                }
                first_of_body(alloc, file, recipe.body.as_slice())
            }
            _ => Ok(None),
        }
    }
}

/// The rule that no body line of a module that sets `guards` has both sigils `?` and `-`. Its place is the first column of the
/// line.
#[derive(Clone, Copy, Drop)]
pub struct GuardAndInfallible;

impl ModuleRule for GuardAndInfallible {
    ghost use Rattle.just_lang_rulebook.specs.GuardSpots.{guard_spots_among};

    ghost spots = { λ _ items. guard_spots_among items };

    fn first(&self, alloc: Global, items: &[Entry<'_>]) -> Result<Option<Spot>, NoMemory> {
        if !is_set("guards", items) {
            return Ok(None);
        }
        first_in_items(alloc, &GuardLines, items)
    }
}
