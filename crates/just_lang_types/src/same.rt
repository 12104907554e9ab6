//! Keys and their parts, compared and copied.
ghost use Rattle.std.specs.Prelude.{◌≡◌};
ghost use Rattle.std.specs.Cmp.Lexicographic.{pointwise};
ghost use Rattle.just_lang_types.specs.Keys.{same_path, same_value, same_key};

use super::{Key, Modulepath, Value};
use just_path_text::{NoMemory, TryClone};

impl Modulepath {
    /// Whether both lead to one recipe.
    pub fn same(&self, other: &Modulepath) -> bool
        ensures { result ≡ same_path self.now other.now }
    {
        self.components == other.components
    }
}

impl TryClone for Modulepath {
    fn try_clone(&self) -> Result<Modulepath, NoMemory> {
        let components = self.components.try_clone()?;
        Ok(Modulepath { components })
    }
}

impl Value {
    /// Whether both have the same elements.
    pub fn same(&self, other: &Value) -> bool
        ensures { result ≡ same_value self.now other.now }
    {
        self.elements == other.elements
    }
}

impl TryClone for Value {
    fn try_clone(&self) -> Result<Value, NoMemory> {
        let elements = self.elements.try_clone()?;
        Ok(Value { elements })
    }
}

impl Key {
    /// Whether both ask the same of one recipe.
    pub fn same(&self, other: &Key) -> bool
        ensures { result ≡ same_key self.now other.now }
    {
        self.recipe.same(&other.recipe)
            && same_values(self.arguments.as_slice(), other.arguments.as_slice())
    }
}

impl TryClone for Key {
    fn try_clone(&self) -> Result<Key, NoMemory> {
        let recipe = self.recipe.try_clone()?;
        let arguments = self.arguments.try_clone()?;
        Ok(Key { recipe, arguments })
    }
}

fn same_values(some: &[Value], others: &[Value]) -> bool
    ensures { result ≡ pointwise same_value some.now others.now }
{
    if some.len() != others.len() {
        return false;
    }
    for at in 0..some.len() {
        if !some[at].same(&others[at]) {
            return false;
        }
    }
    true
}
