//! The tests of a guest, in their order, and its settings.

ghost use Rattle.std.specs.Prelude.{◌≡◌, ◌&&◌, not, ◌≤◌, bytes_eq, is_some, length, IfOk, IfSome};
ghost use Rattle.std.specs.List.{list_any};
ghost use Rattle.toml.specs.View.{table_view};
ghost use Rattle.run_config.specs.Answers.{AnswersWith};
ghost use Rattle.run_config.specs.Guests.{device_at, fresh_of, guest_fault, has_inputs, is_new_name, is_resumed, origin_of, settings_of, weight_at};
ghost use Rattle.run_config.specs.Seen.{names_of};
ghost use Rattle.run_config.specs.Values.{text_at};

use crate::ends::ReadEnd;
use crate::faults::ConfigFault;
use crate::formats::Format;
use crate::guests::{FileName, FreshGuest, GuestSettings, InputSource, Origin};
use crate::input_pairs::input_at;
use crate::keys::ConfigKey;
use crate::kinds::{all_in_range, all_present};
use crate::rows::{guest_options, guest_rows};
use crate::values::{has_only, is_name, natural_or, text_at, value_at};
use guest_settings::Name;
use std::alloc::{AllocError, Global};
use toml::Table;

// Whether a guest is resumed.
#[tactic(auto, unfolding(crate::specs::Guests::is_resumed))]
fn is_resumed(format: Format, table: &Table) -> bool
    ensures { result ≡ is_resumed format (table_view table.now) }
{
    match format {
        Format::One => false,
        Format::Two => value_at(table, ConfigKey::Resume).is_some(),
    }
}

// The weight of a guest.
#[tactic(auto, unfolding(crate::specs::Guests::weight_at))]
fn weight_at(format: Format, table: &Table) -> u64
    ensures { result ≡ weight_at format (table_view table.now) }
{
    match format {
        Format::One => 1,
        Format::Two => natural_or(1, table, ConfigKey::Weight),
    }
}

// Whether a fresh guest has the device page.
#[tactic(auto, unfolding(crate::specs::Guests::device_at))]
fn device_at(format: Format, table: &Table) -> bool
    ensures { result ≡ device_at format (table_view table.now) }
{
    match format {
        Format::One => false,
        Format::Two => natural_or(0, table, ConfigKey::Device) == 1,
    }
}

// Whether a guest before has the name.
fn is_taken(guests: &[GuestSettings], name: &str) -> bool
    ensures { result ≡ list_any (λ guest. bytes_eq name.now guest.name) guests.now }
{
    guests
        .iter()
        .any(|guest| name.as_bytes() == guest.name.as_slice())
}

// Whether a name is new, which has its form or not, and which a guest before has or not.
fn is_new(has_form: bool, is_taken: bool) -> bool
    ensures { result ≡ (has_form && not is_taken) }
{
    has_form && !is_taken
}

// Whether the name has its form, and no guest before has it.
#[tactic(auto, unfolding(crate::specs::Guests::is_new_name), using(crate::proofs::Guesting::names))]
fn is_new_name(guests: &[GuestSettings], name: &str) -> bool
    ensures { result ≡ is_new_name (names_of guests.now) name.now }
{
    is_new(is_name(name), is_taken(guests, name))
}

// The name of the file at a key.
fn file_at(alloc: Global, table: &Table, key: ConfigKey) -> Result<FileName, AllocError>
    ensures { IfOk result (λ name. name ≡ text_at key (table_view table.now)) }
{
    Ok(FileName::from_string(String::from_str(alloc, text_at(table, key))?))
}

// What the table of a fresh guest says whose rows are tested, with its inputs from there.
#[tactic(auto, unfolding(crate::specs::Guests::fresh_of))]
fn fresh_of(
    alloc: Global,
    format: Format,
    input: InputSource,
    table: &Table,
) -> Result<FreshGuest, AllocError>
    ensures { IfOk result (λ g. g ≡ fresh_of format input (table_view table.now)) }
{
    Ok(FreshGuest {
        image: file_at(alloc, table, ConfigKey::Image)?,
        blocks: natural_or(0, table, ConfigKey::Blocks),
        spaces: natural_or(0, table, ConfigKey::Spaces),
        entries: natural_or(0, table, ConfigKey::Entries),
        console: natural_or(0, table, ConfigKey::Console),
        device: device_at(format, table),
        input,
    })
}

// How a guest begins, where its inputs are as they must be.
#[tactic(auto, unfolding(crate::specs::Guests::has_inputs, crate::specs::Guests::origin_of))]
fn origin_of(
    alloc: Global,
    resumed: bool,
    format: Format,
    table: &Table,
) -> Result<Option<Origin>, AllocError>
    ensures inputs { IfOk result (λ o. is_some o ≡ has_inputs resumed format (table_view table.now)) }
    ensures origin { IfOk result (λ o. IfSome o (λ begins.
        begins ≡ origin_of resumed format (table_view table.now))) }
{
    if resumed {
        let saved = file_at(alloc, table, ConfigKey::Resume)?;
        return Ok(Some(Origin::Saved(saved)));
    }
    let Some(input) = input_at(alloc, format, table)? else {
        return Ok(None)
    };
    let fresh = fresh_of(alloc, format, input, table)?;
    Ok(Some(Origin::Fresh(fresh)))
}

/// The settings of the next guest after these.
#[tactic(auto, unfolding(crate::specs::Guests::guest_fault, crate::specs::Guests::guest_tests, crate::specs::Guests::absent_key, crate::specs::Guests::wrong_value, crate::specs::Guests::wrong_option, crate::specs::Guests::settings_of, crate::specs::Guests::settings_by))]
pub fn settings_of(
    alloc: Global,
    format: Format,
    before: &[GuestSettings],
    table: &Table,
) -> Result<GuestSettings, ReadEnd>
    requires few { length before.now ≤ 16 }
    ensures { AnswersWith (guest_fault format (names_of before.now) (table_view table.now))
        (settings_of format (table_view table.now)) result }
{
    let guest = before.len() as u32;
    let resumed = is_resumed(format, table);
    let rows = guest_rows(resumed);
    let options = guest_options(resumed, format);
    all_present(Some(guest), table, rows)?;
    all_in_range(Some(guest), table, rows)?;
    all_in_range(Some(guest), table, options)?;
    let name = text_at(table, ConfigKey::Name);
    if !is_new_name(before, name) {
        return Err(ReadEnd::Refused(ConfigFault::name(guest)));
    }
    let Some(origin) = origin_of(alloc, resumed, format, table)? else {
        return Err(ReadEnd::Refused(ConfigFault::input(guest)))
    };
    if !has_only(table, rows, options) {
        return Err(ReadEnd::Refused(ConfigFault::extra(Some(guest))));
    }
    Ok(GuestSettings {
        name: Name::from_vec(Vec::from_slice(alloc, name.as_bytes())?),
        weight: weight_at(format, table),
        origin,
    })
}
