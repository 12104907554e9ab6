//! What one word gives to a recipe.

ghost use Rattle.std.specs.Prelude.{◌≡◌, ◌≢◌, Ok, Err, None, false, IfOk, IfErr};
ghost use Rattle.std.specs.Option.{option_copied};
ghost use Rattle.just_lang_types.specs.declared.project.LangError.TheVariants as error;
ghost use Rattle.just_eval_words.specs.Parameters.{most_words, fixed_value};
ghost use Rattle.just_eval_words.specs.Sorts.{sort_of};
ghost use Rattle.just_eval_words.specs.Switches.{words_of, awaited, option_taken, long_taken, letter_valued, letter_taken, letters_taken, positional_taken, sort_taken, word_taken, is_last, Awaited};
ghost use Rattle.just_eval_words.specs.Moves.{moved};

use super::form::{Form, read_form};
use super::parameter::{fixed_value, has_room, option_lettered, option_named};
use super::taken::{Next, Taken};
use just_lang_read::characters_of;
use just_lang_types::project::LangError;
use just_lang_types::{Parameter, Recipe, Switch};
use just_path_text::{NoMemory, Text, TryClone};
use std::alloc::Global;

/// Takes the value of a long switch, or waits for it.
#[tactic(auto, using(crate::proofs::Steps::flag_given, crate::proofs::Steps::flag_noted, crate::proofs::Steps::flag_refused, crate::proofs::Steps::given_noted, crate::proofs::Steps::given_refused, crate::proofs::Steps::option_waits))]
fn option_taken<'r>(
    alloc: Global,
    recipe: &'r Recipe,
    taken: &mut Taken,
    switch: Switch,
    number: usize,
    parameter: &'r Parameter,
    given: Option<&str>,
) -> Result<Next<'r>, LangError>
    ensures taken { IfOk result (λ n. option_taken recipe.now switch (words_of taken.old) number parameter.now (fixed_value parameter.now) (option_copied given.entry) ≡ Ok (words_of taken.new, awaited n)) }
    ensures refused { IfErr result (λ e. e ≢ error.NoMemory → option_taken recipe.now switch (words_of taken.old) number parameter.now (fixed_value parameter.now) (option_copied given.entry) ≡ Err e) }
{
    match (fixed_value(parameter), given) {
        (Some(_), Some(_)) => Err(LangError::FlagWithValue {
            recipe: recipe.name.try_clone()?,
            switch,
        }),
        (Some(value), None) => {
            taken.note(alloc, recipe, switch, number, parameter, value)?;
            Ok(Next::Word(false))
        }
        (None, Some(value)) => {
            taken.note(alloc, recipe, switch, number, parameter, value)?;
            Ok(Next::Word(false))
        }
        (None, None) => Ok(Next::Value(switch, number, parameter)),
    }
}

/// Takes a long switch.
#[tactic(auto, using(crate::proofs::Steps::long_nameless, crate::proofs::Steps::long_unknown, crate::proofs::Steps::long_is))]
fn long_taken<'r>(
    alloc: Global,
    recipe: &'r Recipe,
    taken: &mut Taken,
    word: &str,
    name: &str,
    given: Option<&str>,
) -> Result<Next<'r>, LangError>
    ensures taken { IfOk result (λ n. long_taken recipe.now word.now name.now (option_copied given.entry) (words_of taken.old) ≡ Ok (words_of taken.new, awaited n)) }
    ensures refused { IfErr result (λ e. e ≢ error.NoMemory → long_taken recipe.now word.now name.now (option_copied given.entry) (words_of taken.old) ≡ Err e) }
{
    if name == "" {
        return Err(LangError::InvalidOption {
            argument: Text::from_str(alloc, word)?,
        });
    }
    let switch = Switch::Long(Text::from_str(alloc, name)?);
    match option_named(recipe.parameters.as_slice(), name) {
        None => Err(LangError::UnknownOption {
            recipe: recipe.name.try_clone()?,
            switch,
        }),
        Some((number, parameter)) => {
            let next = option_taken(alloc, recipe, taken, switch, number, parameter, given)?;
            Ok(next)
        }
    }
}

/// Takes the value of a letter, or waits for it where it is the last one.
#[tactic(auto, using(crate::proofs::Steps::letter_noted, crate::proofs::Steps::letter_not_noted, crate::proofs::Steps::letter_waits, crate::proofs::Steps::letter_not_final))]
fn letter_valued<'r>(
    alloc: Global,
    recipe: &'r Recipe,
    taken: &mut Taken,
    switch: Switch,
    last: bool,
    number: usize,
    parameter: &'r Parameter,
) -> Result<Next<'r>, LangError>
    ensures taken { IfOk result (λ n. letter_valued recipe.now switch last (words_of taken.old) number parameter.now (fixed_value parameter.now) ≡ Ok (words_of taken.new, awaited n)) }
    ensures refused { IfErr result (λ e. e ≢ error.NoMemory → letter_valued recipe.now switch last (words_of taken.old) number parameter.now (fixed_value parameter.now) ≡ Err e) }
{
    if let Some(value) = fixed_value(parameter) {
        taken.note(alloc, recipe, switch, number, parameter, value)?;
        return Ok(Next::Word(false));
    }
    if last {
        return Ok(Next::Value(switch, number, parameter));
    }
    Err(LangError::NonFinalOptionWithValue {
        recipe: recipe.name.try_clone()?,
        switch,
    })
}

/// Takes a letter.
#[tactic(auto, using(crate::proofs::Steps::letter_unknown, crate::proofs::Steps::letter_is))]
fn letter_taken<'r>(
    alloc: Global,
    recipe: &'r Recipe,
    taken: &mut Taken,
    letter: char,
    last: bool,
) -> Result<Next<'r>, LangError>
    ensures taken { IfOk result (λ n. letter_taken recipe.now letter last (words_of taken.old) ≡ Ok (words_of taken.new, awaited n)) }
    ensures refused { IfErr result (λ e. e ≢ error.NoMemory → letter_taken recipe.now letter last (words_of taken.old) ≡ Err e) }
{
    let switch = Switch::Short(letter);
    match option_lettered(recipe.parameters.as_slice(), letter) {
        None => Err(LangError::UnknownOption {
            recipe: recipe.name.try_clone()?,
            switch,
        }),
        Some((number, parameter)) => {
            let next = letter_valued(alloc, recipe, taken, switch, last, number, parameter)?;
            Ok(next)
        }
    }
}

/// Takes the letters of a group, one after the other.
#[tactic(auto, using(crate::proofs::Letters::letter_more, crate::proofs::Letters::letter_refused, crate::proofs::Letters::letters_end))]
fn letters_taken<'r>(
    alloc: Global,
    recipe: &'r Recipe,
    taken: &mut Taken,
    letters: &[char],
) -> Result<Next<'r>, LangError>
    ensures taken { IfOk result (λ n. letters_taken recipe.now letters.now (Ok (words_of taken.old, Awaited.a_word false)) ≡ Ok (words_of taken.new, awaited n)) }
    ensures refused { IfErr result (λ e. e ≢ error.NoMemory → letters_taken recipe.now letters.now (Ok (words_of taken.old, Awaited.a_word false)) ≡ Err e) }
{
    let mut next = Next::Word(false);
    'letters: for at in 0..letters.len() {
        drop(next);
        next = letter_taken(alloc, recipe, taken, letters[at], at + 1 == letters.len())?;
    }
    Ok(next)
}

/// Takes a positional word where there is room for it.
fn positional_taken<'r>(
    alloc: Global,
    recipe: &'r Recipe,
    most: Option<usize>,
    taken: &mut Taken,
    ended: bool,
    word: &str,
) -> Result<Option<Next<'r>>, NoMemory>
    requires { most ≡ most_words recipe.now.parameters }
    ensures taken { IfOk result (λ o. positional_taken recipe.now ended (words_of taken.old) word.now ≡ moved (words_of taken.new) o) }
    ensures left { IfOk result (λ o. o ≡ None → words_of taken.new ≡ words_of taken.old) }
{
    if has_room(most, taken.positional.len()) {
        taken.add_word(alloc, word)?;
        return Ok(Some(Next::Word(ended)));
    }
    Ok(None)
}

/// Takes a word of that form, or leaves it.
#[tactic(auto, using(crate::proofs::Steps::positional_is, crate::proofs::Steps::long_step, crate::proofs::Steps::long_refused, crate::proofs::Steps::letters_step, crate::proofs::Steps::letters_refused))]
fn form_taken<'r>(
    alloc: Global,
    recipe: &'r Recipe,
    most: Option<usize>,
    taken: &mut Taken,
    word: &str,
    form: Form<'_>,
) -> Result<Option<Next<'r>>, LangError>
    requires { most ≡ most_words recipe.now.parameters }
    ensures taken { IfOk result (λ o. sort_taken recipe.now (words_of taken.old) word.now (sort_of form.entry) ≡ Ok (moved (words_of taken.new) o)) }
    ensures left { IfOk result (λ o. o ≡ None → words_of taken.new ≡ words_of taken.old) }
    ensures refused { IfErr result (λ e. e ≢ error.NoMemory → sort_taken recipe.now (words_of taken.old) word.now (sort_of form.entry) ≡ Err e) }
{
    match form {
        Form::Positional => {
            let next = positional_taken(alloc, recipe, most, taken, false, word)?;
            Ok(next)
        }
        Form::Dashes => Ok(Some(Next::Word(true))),
        Form::Long(name, given) => {
            let next = long_taken(alloc, recipe, taken, word, name, given)?;
            Ok(Some(next))
        }
        Form::Letters(text) => {
            let letters = characters_of(alloc, text)?;
            let next = letters_taken(alloc, recipe, taken, letters.as_slice())?;
            Ok(Some(next))
        }
    }
}

/// Takes a word, or leaves it.
#[tactic(auto, using(crate::proofs::Steps::value_noted, crate::proofs::Steps::value_refused, crate::proofs::Steps::ended_is, crate::proofs::Steps::sorted))]
pub(crate) fn word_taken<'r>(
    alloc: Global,
    recipe: &'r Recipe,
    most: Option<usize>,
    taken: &mut Taken,
    next: Next<'r>,
    word: &str,
) -> Result<Option<Next<'r>>, LangError>
    requires { most ≡ most_words recipe.now.parameters }
    ensures taken { IfOk result (λ o. word_taken recipe.now (awaited next.entry) (words_of taken.old) word.now ≡ Ok (moved (words_of taken.new) o)) }
    ensures left { IfOk result (λ o. o ≡ None → words_of taken.new ≡ words_of taken.old) }
    ensures refused { IfErr result (λ e. e ≢ error.NoMemory → word_taken recipe.now (awaited next.entry) (words_of taken.old) word.now ≡ Err e) }
{
    match next {
        Next::Value(switch, number, parameter) => {
            taken.note(alloc, recipe, switch, number, parameter, word)?;
            Ok(Some(Next::Word(false)))
        }
        Next::Word(true) => {
            let next = positional_taken(alloc, recipe, most, taken, true, word)?;
            Ok(next)
        }
        Next::Word(false) => {
            let form = read_form(word);
            let next = form_taken(alloc, recipe, most, taken, word, form)?;
            Ok(next)
        }
    }
}
