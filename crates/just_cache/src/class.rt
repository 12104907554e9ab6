//! A class text with the place of its inputs.
ghost use Rattle.std.specs.Prelude.{◌≡◌, None};
ghost use Rattle.just_cache.specs.Keys.{with_inputs};

use just_path_text::Text;

/// The class text of a key, and where the value of its inputs begins in it, which is `null` there.
#[derive(Drop)]
pub struct ClassText {
    pub text: Text,
    pub inputs_at: usize,
    pub ghost null: { with_inputs text inputs_at None ≡ text },
}
