//! What is kept of a body that ended well.
ghost use Rattle.std.specs.Prelude.{◌≡◌, IfOk, string_bytes};
ghost use Rattle.just_cache.specs.Keys.{entry_text};
ghost use Rattle.just_cache.specs.Members.{entry_data};
ghost use Rattle.serde_json.specs.View.{view};

use super::member::path_value;
use just_lang_types::Modulepath;
use just_path_text::NoMemory;
use serde_json::{Map, Value};
use std::alloc::Global;

/// What an entry of the cache holds: the recipe whose body ended well.
#[derive(Drop)]
pub struct CacheEntry {
    pub recipe: Modulepath,
}

impl CacheEntry {
    /// The entry as JSON.
    fn value(&self, alloc: Global) -> Result<Value, NoMemory>
        ensures { IfOk result (λ v. view v ≡ entry_data self.now.recipe.components) }
    {
        let mut members = Map::new(alloc);
        let recipe = path_value(alloc, self.recipe.components.as_slice())?;
        serde_json::put(&mut members, alloc, "recipe", recipe)?;
        Ok(Value::Object(members))
    }

    /// The text of the entry, as JSON in its shortest form.
    ///
    /// ```
    /// // of the recipe `m`: `{"recipe":"m"}`
    /// ```
    pub fn text(&self, alloc: Global) -> Result<String, NoMemory>
        ensures { IfOk result (λ s. string_bytes s ≡ entry_text self.now) }
    {
        Ok(self.value(alloc)?.to_string(alloc)?)
    }
}
