//! Where a value looks names up.
ghost use Rattle.std.specs.Prelude.{◌≡◌, ◌++◌, ◌∷◌, [], OnOk};
ghost use Rattle.just_dotenv.specs.LastValues.{AreLastValues};
ghost use Rattle.just_dotenv.specs.Meaning.{value_in_scope};

use just_path_text::{Environ, NoMemory, Text};
use std::collections::BTreeMap;

/// Where names are looked up: the environment, and the pairs that stand earlier in the text, of which the last value of each name is at hand.
#[derive(Drop)]
pub struct Scope<'a> {
    pub environ: &'a Environ,
    pub earlier: &'a [(Text, Text)],
    pub values: &'a BTreeMap<Text, Text>,
    ghost at_hand: { AreLastValues earlier.now values.now },
}

impl Scope<'_> {
    /// The environment's value, else that of the last earlier pair, else nothing.
    pub fn look_up(&self, name: &Text) -> &str
        ensures { result.now ≡ value_in_scope self.now.environ.now.pairs self.now.earlier.now name.now }
    {
        match self.environ.get(name.as_str()) {
            Some(value) => value,
            None => match self.values.get(name) {
                Some(value) => value.as_str(),
                None => "",
            },
        }
    }
}

/// Puts a pair behind others, and keeps its value as the last one of its name.
#[tactic(auto, using(crate::proofs::LastValues::values_more))]
pub(crate) fn add_pair(
    pairs: &mut Vec<(Text, Text)>,
    values: &mut BTreeMap<Text, Text>,
    pair: (Text, Text),
) -> Result<(), NoMemory>
    requires { AreLastValues pairs.old.items values.old }
    ensures pairs { OnOk result (pairs.new.items ≡ pairs.old.items ++ pair ∷ []) }
    ensures values { OnOk result (AreLastValues pairs.new.items values.new) }
{
    let name = pair.0.try_clone()?;
    let value = pair.1.try_clone()?;
    pairs.push(pair)?;
    values.insert(name, value)?;
    Ok(())
}
