//! Reads a configuration.

ghost use Rattle.std.specs.Prelude.{◌≡◌, ◌<◌, ◌≤◌, false, length, map, [], ◌∷◌, Some, None, Ok, Err, IfOk, IfSome, IsErrOf, OnOk, option_map};
ghost use Rattle.std.specs.Str.{is_utf8};
ghost use Rattle.toml.specs.View.{view, items_view, table_view};
ghost use Rattle.run_config.specs.declared.ends.ReadEnd.TheVariants.{NoMemory, Refused};
ghost use Rattle.run_config.specs.Faults as fault;
ghost use Rattle.run_config.specs.Accept.{accept, array_length, body_fault, configuration_of, document_fault, format_at, format_in, guests_at, guests_in, head_fault, spare_at, tree_of, AcceptedIsWithinLimits};
ghost use Rattle.run_config.specs.Answers.{AnswersWith, IfRefused, Passes};
ghost use Rattle.run_config.specs.Configurations.{IsWithinLimits};
ghost use Rattle.run_config.specs.Guests.{guests_fault, settings_of};
ghost use Rattle.run_config.specs.Seen.{tables_seen};
ghost use Rattle.run_config.specs.Values.{tables_of};

use crate::configuration::Config;
use crate::ends::ReadEnd;
use crate::faults::ConfigFault;
use crate::formats::Format;
use crate::guests::GuestSettings;
use crate::keys::ConfigKey;
use crate::kinds::{all_in_range, present};
use crate::rows::{DOCUMENT_ROWS, document_options};
use crate::schedules::{schedule_at, turns_of};
use crate::settings::settings_of;
use crate::values::{has_only, natural, natural_or, value_at};
use guest_settings::MOST_GUESTS;
use std::alloc::{AllocError, Global};
use toml::{Table, Value};

// The most bytes that a configuration has.
const MOST_BYTES: usize = 65_536;

// The document that the bytes spell.
#[tactic(auto, unfolding(crate::specs::Accept::tree_of), using(crate::proofs::Texts::texts))]
fn tree(alloc: Global, bytes: &[u8]) -> Result<Table, ReadEnd>
    ensures ok { IfOk result (λ t. tree_of bytes.now ≡ Some (table_view t)) }
    ensures refused { IfRefused result (λ f. (f ≡ fault.not_toml) × (tree_of bytes.now ≡ None)) }
    ensures no_text { is_utf8 bytes.now ≡ false → result ≡ Err (Refused fault.not_toml) }
{
    let Ok(text) = str::from_utf8(bytes) else {
        return Err(ReadEnd::Refused(ConfigFault::not_toml()))
    };
    match toml::table_from_str(alloc, text) {
        Ok(table) => Ok(table),
        Err(error) => {
            if error.is_memory() {
                Err(ReadEnd::NoMemory)
            } else {
                Err(ReadEnd::Refused(ConfigFault::not_toml()))
            }
        }
    }
}

// The format of a document.
#[tactic(auto, unfolding(crate::specs::Accept::format_at))]
fn format_at(document: &Table) -> Option<Format>
    ensures { result ≡ format_at (table_view document.now) }
{
    let value = value_at(document, ConfigKey::Format)?;
    let integer = value.as_integer()?;
    let number = natural(integer)?;
    Format::numbered(number)
}

// The tables that all of these values are.
#[tactic(auto, using(crate::proofs::Tabling::tables))]
fn all_tables<'a>(alloc: Global, values: &'a [Value]) -> Result<Option<Vec<&'a Table>>, AllocError>
    ensures { IfOk result (λ o. option_map (λ v. tables_seen v.items) o ≡ tables_of (items_view values.now)) }
{
    let mut tables = Vec::new(alloc);
    for value in values {
        let Some(table) = value.as_table() else {
            return Ok(None)
        };
        tables.push(table)?;
    }
    Ok(Some(tables))
}

// The tables of the guests, where there is an array of 1 to 16 tables.
#[tactic(auto, unfolding(crate::specs::Accept::guests_at))]
fn guests_at<'a>(alloc: Global, document: &'a Table) -> Result<Option<Vec<&'a Table>>, AllocError>
    ensures tables { IfOk result (λ o. option_map (λ v. tables_seen v.items) o
        ≡ guests_at (table_view document.now)) }
    ensures some { IfOk result (λ o. IfSome o (λ v. 1 ≤ length v.items)) }
    ensures few { IfOk result (λ o. IfSome o (λ v. length v.items ≤ 16)) }
{
    let Some(value) = value_at(document, ConfigKey::Guest) else {
        return Ok(None)
    };
    let Some(values) = value.as_array() else {
        return Ok(None)
    };
    let Some(guests) = all_tables(alloc, values)? else {
        return Ok(None)
    };
    if 1 <= guests.len() && guests.len() <= MOST_GUESTS {
        Ok(Some(guests))
    } else {
        Ok(None)
    }
}

// How many items the array of guests has, where there is an array.
#[tactic(auto, unfolding(crate::specs::Accept::array_length), using(crate::proofs::Items::items))]
fn array_length(document: &Table) -> Option<i64>
    ensures { result ≡ array_length (table_view document.now) }
{
    let value = value_at(document, ConfigKey::Guest)?;
    let items = value.as_array()?;
    Some(items.len() as i64)
}

// How many spare blocks there are.
#[tactic(auto, unfolding(crate::specs::Accept::spare_at))]
fn spare_at(format: Format, document: &Table) -> u64
    ensures { result ≡ spare_at format (table_view document.now) }
{
    match format {
        Format::One => 0,
        Format::Two => natural_or(0, document, ConfigKey::Spare),
    }
}

// The settings of the guests whose tables these are.
#[tactic(auto, unfolding(crate::specs::Guests::guests_fault), using(crate::proofs::Guesting::guests))]
fn all_settings(
    alloc: Global,
    format: Format,
    tables: &[&Table],
) -> Result<Vec<GuestSettings>, ReadEnd>
    requires few { length tables.now ≤ 16 }
    ensures passed { OnOk result (guests_fault format [] (tables_seen tables.now) ≡ None) }
    ensures count { IfOk result (λ gs. length gs.items ≡ length tables.now) }
    ensures settings { IfOk result (λ gs. gs.items ≡ map (settings_of format) (tables_seen tables.now)) }
    ensures refused { IfRefused result (λ f. guests_fault format [] (tables_seen tables.now) ≡ Some f) }
{
    let mut guests = Vec::new(alloc);
    for table in tables {
        let guest = settings_of(alloc, format, guests.as_slice(), table)?;
        guests.push(guest)?;
    }
    Ok(guests)
}

// The format of a document that says one, and has the key of the guests.
#[tactic(auto, unfolding(crate::specs::Accept::head_fault, crate::specs::Accept::format_in))]
fn head_of(document: &Table) -> Result<Format, ConfigFault>
    ensures passed { Passes (head_fault (table_view document.now)) result }
    ensures format { IfOk result (λ format. format ≡ format_in (table_view document.now)) }
{
    let Some(format) = format_at(document) else {
        return Err(ConfigFault::format())
    };
    present(None, document, ConfigKey::Guest)?;
    Ok(format)
}

// The configuration that a document of this format says.
#[tactic(auto, unfolding(crate::specs::Accept::body_fault, crate::specs::Accept::configuration_of, crate::specs::Accept::guests_in, crate::specs::Accept::settings_in, crate::specs::Accept::schedule_in))]
fn body_of(alloc: Global, format: Format, document: &Table) -> Result<Config, ReadEnd>
    requires { format ≡ format_in (table_view document.now) }
    ensures { AnswersWith (body_fault (table_view document.now)) (configuration_of (table_view document.now))
        result }
{
    let Some(tables) = guests_at(alloc, document)? else {
        return Err(ReadEnd::Refused(ConfigFault::range(
            None,
            ConfigKey::Guest,
            array_length(document),
        )))
    };
    let options = document_options(format);
    all_in_range(None, document, options)?;
    let guests = all_settings(alloc, format, tables.as_slice())?;
    let Some(schedule) = schedule_at(alloc, guests.len() as u32, document)? else {
        return Err(ReadEnd::Refused(ConfigFault::turns()))
    };
    if !has_only(document, &DOCUMENT_ROWS, options) {
        return Err(ReadEnd::Refused(ConfigFault::extra(None)));
    }
    let turns = turns_of(alloc, guests.as_slice(), schedule)?;
    Ok(Config::new(guests, turns, spare_at(format, document)))
}

// The configuration that a document says. Out of memory never stands in the place of a refusal by `format`,
// or of one where there is no `guest`.
#[tactic(auto, unfolding(crate::specs::Accept::document_fault))]
fn configuration_of(alloc: Global, document: &Table) -> Result<Config, ReadEnd>
    ensures answer { AnswersWith (document_fault (table_view document.now))
        (configuration_of (table_view document.now)) result }
    ensures memory { IsErrOf result NoMemory → head_fault (table_view document.now) ≡ None }
{
    let format = head_of(document)?;
    body_of(alloc, format, document)
}

/// Reads a configuration from its bytes: the one that `accept` has for them, or the first fault.
///
/// More than 65,536 bytes, and bytes that are no UTF-8, are refused before any memory is taken, so that want
/// of memory never stands in the place of these two refusals. The document takes memory from its first value
/// on, so out of memory may stand in the place of each other answer.
#[tactic(auto, unfolding(crate::specs::Accept::accept, crate::specs::Accept::configuration_fault, crate::specs::Accept::document_of))]
pub fn read(alloc: Global, bytes: &[u8]) -> Result<Config, ReadEnd>
    ensures accepted { IfOk result (λ c. accept bytes.now ≡ Ok c) }
    ensures refused { IfRefused result (λ f. accept bytes.now ≡ Err f) }
    ensures too_long { 65536 < length bytes.now → result ≡ Err (Refused fault.too_long) }
    ensures no_text { length bytes.now ≤ 65536 → is_utf8 bytes.now ≡ false
        → result ≡ Err (Refused fault.not_toml) }
    ensures limits { IfOk result IsWithinLimits }
{
    if bytes.len() > MOST_BYTES {
        return Err(ReadEnd::Refused(ConfigFault::too_long()));
    }
    match tree(alloc, bytes) {
        Ok(document) => configuration_of(alloc, &document),
        Err(end) => Err(end),
    }
}

/// Each accepted configuration is within its limits.
pub fn accepted_is_within_limits()
    ensures { AcceptedIsWithinLimits }
{}
