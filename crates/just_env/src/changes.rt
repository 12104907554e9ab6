//! The environment of a recipe's children, by what changes in it.

ghost use Rattle.std.specs.Prelude.{◌≡◌, map, IfOk};
ghost use Rattle.std.specs.List.Sorted.{IsStrictlySortedBy};
ghost use Rattle.just_env.specs.Changes.{text_cmp, outer, module_levels, changes, change, AreChanges};
ghost use Rattle.just_env.specs.Shows.{changes_of};

use super::levels::{Changes, put_levels, put_pairs};
use just_lang_types::{Level, Scope, Settings};
use just_path_text::{NoMemory, Seq, Text};
use std::alloc::Global;
use std::collections::BTreeMap;

/// The environment of the children of what has a scope, by what changes in it.
///
/// The dotenv pairs come first. Then each level from the outermost on, the scope's own left out, takes the unexported names out and gives those
/// that it exports their texts. A value without elements isn't exported; under `set export` all variables and parameters are.
#[derive(Drop)]
pub struct Environment {
    pub(crate) inside: Seq<(Text, Option<Text>)>,
}

/// The changes in the order of their names.
pub(crate) fn in_order(alloc: Global, made: Changes) -> Result<Seq<(Text, Option<Text>)>, NoMemory>
    ensures entries { IfOk result (λ list. list ≡ made.entries) }
    ensures rising { IfOk result (λ list. IsStrictlySortedBy text_cmp (map (λ c. c.0) list)) }
{
    let mut rest = made;
    let mut list = Vec::with_capacity(alloc, rest.len())?;
    'changes: while let Some(change) = rest.pop_first() {
        list.push(change)?;
    }
    Ok(Seq::from(list))
}

/// What changes for a child of a module whose scope has these levels, and which has these dotenv pairs, settings and unexports: the changes of
/// `Environment::new` for a scope with one more level, which is its own and empty, in the order of the names' bytes.
#[tactic(auto, using(crate::proofs::Put::all_module_put))]
pub fn changes_of_module(
    alloc: Global,
    dotenv: &[(Text, Text)],
    levels: &[Level],
    settings: &Settings,
    unexports: &[Text],
) -> Result<Seq<(Text, Option<Text>)>, NoMemory>
    ensures changes { IfOk result (λ list. list
        ≡ changes dotenv.now settings.now.export unexports.now (module_levels levels.now)) }
    // So at each name the innermost level that says something of it decides, and where none does the dotenv pairs.
    ensures innermost { IfOk result (AreChanges
        (change dotenv.now settings.now.export unexports.now (module_levels levels.now))) }
{
    let mut changed = BTreeMap::new(alloc);
    put_pairs(&mut changed, dotenv)?;
    put_levels(alloc, &mut changed, settings.export, unexports, levels)?;
    let list = in_order(alloc, changed)?;
    Ok(list)
}

/// The levels without the innermost one.
#[tactic(auto, using(crate::proofs::Put::outer_is))]
fn outer(levels: &[Level]) -> &[Level]
    ensures { result.now ≡ outer levels.now }
{
    match levels {
        [outer @ .., _] => outer,
        [] => levels,
    }
}

impl Environment {
    /// Of the children of what has that scope, in a module with these dotenv pairs, settings and unexports.
    #[tactic(auto, using(crate::proofs::Put::all_put))]
    pub fn new(
        alloc: Global,
        dotenv: &[(Text, Text)],
        scope: &Scope,
        settings: &Settings,
        unexports: &[Text],
    ) -> Result<Environment, NoMemory>
        ensures changes { IfOk result (λ e. changes_of e ≡ changes dotenv.now settings.now.export unexports.now scope.now.levels) }
        // So at each name the innermost level that says something of it decides, and where none does the dotenv pairs.
        ensures innermost { IfOk result (λ e. AreChanges (change dotenv.now settings.now.export unexports.now scope.now.levels) (changes_of e)) }
    {
        let mut made = BTreeMap::new(alloc);
        put_pairs(&mut made, dotenv)?;
        let levels = outer(scope.levels.as_slice());
        put_levels(alloc, &mut made, settings.export, unexports, levels)?;
        Ok(Environment {
            inside: in_order(alloc, made)?,
        })
    }

    /// What changes, in the order of the names' bytes: a name with the text that it gets, or with none, where it is taken out.
    pub fn changes(&self) -> &[(Text, Option<Text>)]
        ensures { result.now ≡ changes_of self.now }
    {
        self.inside.as_slice()
    }
}
