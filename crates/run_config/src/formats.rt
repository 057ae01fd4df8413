//! The formats of a configuration.

ghost use Rattle.std.specs.Prelude.{◌≡◌};
ghost use Rattle.run_config.specs.Accept.{format_of};

/// A format of configurations. Format 2 has weights, the device page, spare blocks and resumed guests, and
/// takes a guest's inputs from a file.
#[derive(Clone, Copy)]
pub enum Format {
    One,
    Two,
}

impl Format {
    /// The format of this number.
    #[tactic(auto, unfolding(crate::specs::Accept::format_of))]
    pub(crate) fn numbered(number: u64) -> Option<Format>
        ensures { result ≡ format_of number }
    {
        match number {
            1 => Some(Format::One),
            2 => Some(Format::Two),
            _ => None,
        }
    }
}
