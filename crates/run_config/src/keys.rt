//! The keys of a configuration.

ghost use Rattle.std.specs.Prelude.{◌≡◌};
ghost use Rattle.run_config.specs.Keys.{name_of};

use std::fmt;

/// A key of the document or of a guest. `Debug` shows it as it is written.
#[derive(Clone, Copy, PartialEq, Eq)]
pub enum ConfigKey {
    Format,
    Guest,
    Turns,
    Quantum,
    Rounds,
    Spare,
    Name,
    Image,
    Blocks,
    Spaces,
    Entries,
    Console,
    Weight,
    Device,
    Input,
    Resume,
}

impl ConfigKey {
    /// The key as it is written.
    #[tactic(auto, unfolding(crate::specs::Keys::name_of))]
    pub fn text(self) -> &'static str
        ensures { result.now ≡ name_of self }
    {
        match self {
            ConfigKey::Format => "format",
            ConfigKey::Guest => "guest",
            ConfigKey::Turns => "turns",
            ConfigKey::Quantum => "quantum",
            ConfigKey::Rounds => "rounds",
            ConfigKey::Spare => "spare",
            ConfigKey::Name => "name",
            ConfigKey::Image => "image",
            ConfigKey::Blocks => "blocks",
            ConfigKey::Spaces => "spaces",
            ConfigKey::Entries => "entries",
            ConfigKey::Console => "console",
            ConfigKey::Weight => "weight",
            ConfigKey::Device => "device",
            ConfigKey::Input => "input",
            ConfigKey::Resume => "resume",
        }
    }
}

impl fmt::Debug for ConfigKey {
    fn fmt<W: fmt::Write>(&self, f: &mut fmt::Formatter<W>) -> fmt::Result {
        f.write_str(self.text())
    }
}
