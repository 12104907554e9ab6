//! What a recipe took of words, and what comes next.

ghost use Rattle.std.specs.Prelude.{◌≡◌, ◌≢◌, Ok, Err, IfOk, IfErr, OnOk};
ghost use Rattle.just_lang_types.specs.declared.project.LangError.TheVariants as error;
ghost use Rattle.just_eval_words.specs.Switches.{words_of, has_value, is_full, no_words, with_word, with_option, noted};

use just_lang_types::project::LangError;
use just_lang_types::{Parameter, Recipe, Switch};
use just_path_text::{NoMemory, Text, TryClone};
use just_print::is_variadic;
use std::alloc::Global;

/// The words that a recipe took so far.
#[derive(Drop)]
pub(crate) struct Taken {
    /// Those of its positional parameters.
    pub(crate) positional: Vec<Text>,
    /// The values of its options, with the numbers of their parameters.
    pub(crate) options: Vec<(usize, Text)>,
}

/// What comes next.
#[derive(Drop)]
pub(crate) enum Next<'r> {
    /// Any word, where the switches may have ended.
    Word(bool),
    /// The value of an option, by its switch and the number of its parameter.
    Value(Switch, usize, &'r Parameter),
}

impl Taken {
    /// Nothing was taken.
    pub(crate) fn new(alloc: Global) -> Taken
        ensures { words_of result ≡ no_words }
    {
        Taken {
            positional: Vec::new(alloc),
            options: Vec::new(alloc),
        }
    }

    /// Takes a positional word.
    pub(crate) fn add_word(&mut self, alloc: Global, word: &str) -> Result<(), NoMemory>
        ensures { OnOk result (words_of self.new ≡ with_word (words_of self.old) word.now) }
    {
        self.positional.push(Text::from_str(alloc, word)?)?;
        Ok(())
    }

    /// Takes a value of an option.
    fn add_value(&mut self, alloc: Global, number: usize, value: &str) -> Result<(), NoMemory>
        ensures { OnOk result (words_of self.new ≡ with_option (words_of self.old) number value.now) }
    {
        self.options.push((number, Text::from_str(alloc, value)?))?;
        Ok(())
    }

    /// Whether an option has a value.
    fn has_value(&self, number: usize) -> bool
        ensures { result ≡ has_value number (words_of self.now) }
    {
        self.options.iter().any(|o| o.0 == number)
    }

    /// Whether an option has a value and takes no other.
    fn is_full(&self, number: usize, parameter: &Parameter) -> bool
        ensures { result ≡ is_full number parameter.now (words_of self.now) }
    {
        self.has_value(number) && !(parameter.multiple || is_variadic(parameter.kind))
    }

    /// Takes a value of an option, which comes once where it may not be repeated.
    #[tactic(auto, using(crate::proofs::Steps::note_again, crate::proofs::Steps::note_first))]
    pub(crate) fn note(
        &mut self,
        alloc: Global,
        recipe: &Recipe,
        switch: Switch,
        number: usize,
        parameter: &Parameter,
        value: &str,
    ) -> Result<(), LangError>
        ensures noted { OnOk result (noted recipe.now switch number parameter.now (words_of self.old) value.now ≡ Ok (words_of self.new)) }
        ensures refused { IfErr result (λ e. e ≢ error.NoMemory → noted recipe.now switch number parameter.now (words_of self.old) value.now ≡ Err e) }
    {
        if self.is_full(number, parameter) {
            return Err(LangError::DuplicateOption {
                recipe: recipe.name.try_clone()?,
                switch,
            });
        }
        drop(switch);
        self.add_value(alloc, number, value)?;
        Ok(())
    }
}
