// Words that name a configuration and a guest, as those of a save do.

ghost use Rattle.std.specs.Prelude.{◌≡◌, ◌∷◌, None, codes, option_map, if◌then◌else◌};
ghost use Rattle.command_line.specs.Commands.{OnFiles, asked_by};
ghost use Rattle.guest_commands.specs.GuestWords.{guest_command, saving_command};

use command_line::{are_plain, number_of};
use outside::Word;

/// What words ask for: a guest, by its number, of the configuration in this file.
#[derive(Clone, Copy)]
pub struct GuestRequest<'a> {
    pub config: &'a str,
    pub guest: u32,
}

/// What words ask for, if none after the first is empty or begins with a dash, and two follow it: a
/// configuration and a guest's number.
#[tactic(auto, unfolding(command_line::specs::Commands::command_of))]
pub fn guest_request<'a>(words: &'a [Word]) -> Option<GuestRequest<'a>>
    ensures { option_map (λ request. OnFiles (guest_command request)) result
        ≡ saving_command words.entry.now }
{
    match words {
        [_, rest @ ..] => if_plain(are_plain(rest), request_by(rest)),
        _ => None,
    }
}

// A request of words that are plain: others ask for nothing.
fn if_plain<'a>(plain: bool, request: Option<GuestRequest<'a>>) -> Option<GuestRequest<'a>>
    ensures { result ≡ (if plain then request.entry else None) }
{
    if plain { request } else { None }
}

// The same of the words after the program's name.
fn request_by<'a>(words: &'a [Word]) -> Option<GuestRequest<'a>>
    ensures { option_map (λ request. OnFiles (guest_command request)) result
        ≡ asked_by (codes "save" ∷ words.entry.now) }
{
    match words {
        [config, guest] => {
            let guest = number_of(guest.as_str(), 2, 0, 99)? as u32;
            Some(GuestRequest {
                config: config.as_str(),
                guest,
            })
        }
        _ => None,
    }
}
