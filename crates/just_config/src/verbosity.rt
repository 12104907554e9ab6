//! How much is printed.
ghost use Rattle.std.specs.Prelude.{◌≡◌, nat_le, not};

/// How much is printed, from the least to the most.
#[derive(Clone, Copy, PartialEq, Eq, PartialOrd, Ord)]
pub enum Verbosity {
    /// Nothing but what recipes print.
    Quiet,
    /// What is printed where nothing else is asked for.
    Taciturn,
    /// More: banners of recipes.
    Loquacious,
    /// Most.
    Grandiloquent,
}

impl Verbosity {
    ghost use Rattle.just_config.specs.Verbosities.{from_times, level};

    /// Of `--verbose` that is given so many times: `Taciturn` for 0, `Loquacious` for 1, else `Grandiloquent`.
    pub fn from_flag_occurrences(times: u8) -> Verbosity
        ensures { result ≡ from_times times }
    {
        match times {
            0 => Verbosity::Taciturn,
            1 => Verbosity::Loquacious,
            _ => Verbosity::Grandiloquent,
        }
    }

    /// Whether it is `Quiet`.
    pub fn quiet(self) -> bool
        ensures { result ≡ nat_le (level self) 0 }
    {
        match self {
            Verbosity::Quiet => true,
            Verbosity::Taciturn | Verbosity::Loquacious | Verbosity::Grandiloquent => false,
        }
    }

    /// Whether it isn't `Quiet`.
    pub fn loud(self) -> bool
        ensures { result ≡ not (nat_le (level self) 0) }
    {
        !self.quiet()
    }

    /// Whether it is `Loquacious` or more.
    pub fn loquacious(self) -> bool
        ensures { result ≡ nat_le 2 (level self) }
    {
        match self {
            Verbosity::Quiet | Verbosity::Taciturn => false,
            Verbosity::Loquacious | Verbosity::Grandiloquent => true,
        }
    }

    /// Whether it is `Grandiloquent`.
    pub fn grandiloquent(self) -> bool
        ensures { result ≡ nat_le 3 (level self) }
    {
        match self {
            Verbosity::Quiet | Verbosity::Taciturn | Verbosity::Loquacious => false,
            Verbosity::Grandiloquent => true,
        }
    }
}

impl Default for Verbosity {
    ghost use Rattle.std.specs.Prelude.{◌≡◌};
    ghost use Rattle.just_config.specs.declared.verbosity.Verbosity.TheVariants.{Taciturn};

    /// `Taciturn`.
    fn default() -> Verbosity
        ensures { result ≡ Taciturn }
    {
        Verbosity::Taciturn
    }
}
