//! What the command line gives to the variables of a module, and what it gives to none.

ghost use Rattle.std.specs.Prelude.{◌≡◌, ◌≢◌, ◌++◌, ◌&&◌, [], List, not, map, false, IfOk, OnOk, Some, MatchOption};
ghost use Rattle.std.specs.BTreeMap.{Updates};
ghost use Rattle.std.specs.BTreeSet.{contains};
ghost use Rattle.just_eval_closure.specs.Numbers.{text_cmp};
ghost use Rattle.just_lang_types.specs.Keys.{same_path};
ghost use Rattle.just_eval.specs.Overrides.{Variable, Keeps, AreGiven, is_overridden, assigns, is_assigned, variable_cmp, AreUnknown, variable_text};

use just_config_words::prefix_of;
use just_lang_types::project::Justfile;
use just_lang_types::{Assignment, Modulepath, Override};
use just_path_text::{NoMemory, Seq, Text, TryClone};
use std::alloc::Global;
use std::collections::{BTreeMap, BTreeSet};

/// A variable of a project: the path of its module, and its name.
type Variable = (Modulepath, Text);

/// Sets the variable of an override.
fn set(given: &mut BTreeMap<Text, Text>, one: &Override) -> Result<(), NoMemory>
    ensures updates { OnOk result (Updates text_cmp given.old given.new one.now.name (Some one.now.value)) }
{
    given.insert(one.name.try_clone()?, one.value.try_clone()?)?;
    Ok(())
}

/// Keeps what an override gives, where it is one of the module.
#[tactic(auto, using(crate::proofs::GivenTexts::passed_given))]
fn keep_given(
    given: &mut BTreeMap<Text, Text>,
    one: &Override,
    path: &Modulepath,
) -> Result<(), NoMemory>
    ensures { OnOk result (Keeps one.now path.now given.old given.new) }
{
    if one.module.same(path) {
        set(given, one)?;
        return Ok(());
    }
    Ok(())
}

/// What the command line gives to the variables of a module: for each the last value.
#[tactic(auto, using(crate::proofs::GivenTexts::given_none, crate::proofs::GivenTexts::given_more, crate::proofs::GivenTexts::given_all))]
pub(crate) fn given_in(
    alloc: Global,
    overrides: &[Override],
    path: &Modulepath,
) -> Result<BTreeMap<Text, Text>, NoMemory>
    ensures { IfOk result (λ given. AreGiven overrides.now path.now given) }
{
    let mut given = BTreeMap::new(alloc);
    'overrides: for one in overrides {
        keep_given(&mut given, one, path)?;
    }
    Ok(given)
}

/// The variables that the command line gives a value.
#[tactic(auto, using(crate::proofs::UnknownVariables::none_overridden, crate::proofs::UnknownVariables::one_overridden, crate::proofs::UnknownVariables::all_overridden))]
fn overridden(alloc: Global, overrides: &[Override]) -> Result<BTreeSet<Variable>, NoMemory>
    ensures { IfOk result (λ set. (v : Variable) → contains variable_cmp set v ≡ is_overridden overrides.now v) }
{
    let mut set = BTreeSet::new(alloc);
    'overrides: for one in overrides {
        set.insert((one.module.try_clone()?, one.name.try_clone()?))?;
    }
    Ok(set)
}

/// Takes out the variables of a module.
#[tactic(auto, using(crate::proofs::UnknownVariables::none_taken, crate::proofs::UnknownVariables::one_taken, crate::proofs::UnknownVariables::all_taken))]
fn take_out(
    left: &mut BTreeSet<Variable>,
    path: &Modulepath,
    assignments: &[Assignment],
) -> Result<(), NoMemory>
    ensures { OnOk result ((v : Variable) → contains variable_cmp left.new v ≡ (contains variable_cmp left.old v && not (same_path path.now v.0 && assigns assignments.now v.1))) }
{
    'assignments: for one in assignments {
        let variable = (path.try_clone()?, one.name.try_clone()?);
        left.remove(&variable);
        drop(variable);
    }
    Ok(())
}

/// The variables that the command line gives a value and that no module assigns.
#[tactic(auto, using(crate::proofs::UnknownVariables::no_module, crate::proofs::UnknownVariables::one_module, crate::proofs::UnknownVariables::all_modules_taken, crate::proofs::UnknownVariables::nothing_given))]
fn unknown(
    alloc: Global,
    modules: &[&Justfile],
    overrides: &[Override],
) -> Result<BTreeSet<Variable>, NoMemory>
    ensures { IfOk result (λ set. (v : Variable) → contains variable_cmp set v ≡ (is_overridden overrides.now v && not (is_assigned (map (λ m. m.now) modules.now) v))) }
{
    let mut left = overridden(alloc, overrides)?;
    if overrides.is_empty() {
        return Ok(left);
    }
    'modules: for module in modules {
        take_out(
            &mut left,
            &module.module_path,
            module.assignments.as_slice(),
        )?;
    }
    Ok(left)
}

/// A variable as a message names it.
fn variable_text(alloc: Global, variable: &Variable) -> Result<Text, NoMemory>
    ensures { IfOk result (λ text. text ≡ variable_text variable.now) }
{
    let mut text = prefix_of(alloc, variable.0.components.as_slice())?;
    text.push_str(variable.1.as_str())?;
    Ok(Text::from(text))
}

/// The variables as a message names them, in their order.
fn variable_texts(alloc: Global, variables: BTreeSet<Variable>) -> Result<Seq<Text>, NoMemory>
    ensures { IfOk result (λ texts. texts ≡ map variable_text variables.keys) }
{
    let mut rest = variables;
    let mut texts = Vec::new(alloc);
    'variables: while let Some(variable) = rest.pop_first() {
        let text = variable_text(alloc, &variable);
        drop(variable);
        texts.push(text?)?;
    }
    Ok(Seq::from(texts))
}

/// The variables that the command line gives a value and that no module assigns, as a message names them, where there are
/// such.
#[tactic(auto, using(crate::proofs::UnknownVariables::none_unknown))]
pub(crate) fn unknown_texts(
    alloc: Global,
    modules: &[&Justfile],
    overrides: &[Override],
) -> Result<Option<Seq<Text>>, NoMemory>
    ensures { IfOk result (λ found. MatchOption found (AreUnknown (map (λ m. m.now) modules.now) overrides.now []) (λ texts. (vs : List Variable) × (vs ≢ []) × AreUnknown (map (λ m. m.now) modules.now) overrides.now vs × (texts ≡ map variable_text vs))) }
{
    let unknown = unknown(alloc, modules, overrides)?;
    if unknown.len() == 0 {
        return Ok(None);
    }
    Ok(Some(variable_texts(alloc, unknown)?))
}
