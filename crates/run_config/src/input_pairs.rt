//! Where the inputs of a guest come from, in a document.

ghost use Rattle.std.specs.Prelude.{◌≡◌, ◌^◌, ◌-◌, Option, option_map, IfOk};
ghost use Rattle.toml.specs.Data.{as_array};
ghost use Rattle.toml.specs.View.{view, table_view, items_view};
ghost use Rattle.run_config.specs.declared.formats.Format.TheVariants.{One, Two};
ghost use Rattle.run_config.specs.Guests.{input_at, inputs_in, rise_from, source_in};
ghost use Rattle.run_config.specs.Values.{pair_within, pairs_within};

use crate::formats::Format;
use crate::guests::{FileName, InputSource};
use crate::keys::ConfigKey;
use crate::pairs::pair_within;
use crate::values::{text_within, value_at};
use guest_settings::{Inputs, MOST_INPUTS};
use std::alloc::{AllocError, Global};
use toml::{Table, Value};

// The last moment at which an input can come.
const LAST_MOMENT: u64 = (1 << 62) - 1;

// The input that a value is: a moment and a byte.
fn input_in(value: &Value) -> Option<(u64, u8)>
    ensures { result ≡ pair_within (2 ^ 62 - 1) 255 (view value.now) }
{
    let (moment, byte) = pair_within(LAST_MOMENT, 255, value)?;
    Some((moment, byte as u8))
}

// The inputs that all of these values are.
#[tactic(auto, using(crate::proofs::Pairing::no_pair))]
fn all_inputs(alloc: Global, values: &[Value]) -> Result<Option<Vec<(u64, u8)>>, AllocError>
    ensures { IfOk result (λ o. option_map (λ v. v.items) o
        ≡ pairs_within (2 ^ 62 - 1) 255 (items_view values.now)) }
{
    let mut inputs = Vec::new(alloc);
    for value in values {
        let Some(input) = input_in(value) else {
            return Ok(None)
        };
        inputs.push(input)?;
    }
    Ok(Some(inputs))
}

// Whether no moment is less than the one before.
#[tactic(auto, unfolding(crate::specs::Guests::rise_from))]
fn rise(inputs: &[(u64, u8)]) -> bool
    ensures { result ≡ rise_from 0 inputs.now }
{
    let mut least = 0;
    for &(moment, _) in inputs {
        if moment < least {
            return false;
        }
        least = moment;
    }
    true
}

// The inputs that a value is, where it is as it must be.
#[tactic(auto, unfolding(crate::specs::Guests::inputs_in))]
fn inputs_in(alloc: Global, value: &Value) -> Result<Option<Vec<(u64, u8)>>, AllocError>
    ensures { IfOk result (λ o. option_map (λ v. v.items) o ≡ inputs_in (view value.now)) }
{
    let Some(values) = value.as_array() else {
        return Ok(None)
    };
    let Some(inputs) = all_inputs(alloc, values)? else {
        return Ok(None)
    };
    if inputs.len() <= MOST_INPUTS && rise(inputs.as_slice()) {
        Ok(Some(inputs))
    } else {
        Ok(None)
    }
}

// The name of the file that a value is, kept.
#[tactic(auto, unfolding(crate::specs::Guests::source_in))]
fn file_in(alloc: Global, value: &Value) -> Result<Option<InputSource>, AllocError>
    ensures { IfOk result (λ o. o ≡ source_in Two (view value.now)) }
{
    let Some(name) = text_within(1, 255, value) else {
        return Ok(None)
    };
    let name = FileName::from_string(String::from_str(alloc, name)?);
    Ok(Some(InputSource::File(name)))
}

// The pairs that a value is, kept.
#[tactic(auto, unfolding(crate::specs::Guests::source_in))]
fn pairs_in(alloc: Global, value: &Value) -> Result<Option<InputSource>, AllocError>
    ensures { IfOk result (λ o. o ≡ source_in One (view value.now)) }
{
    let Some(inputs) = inputs_in(alloc, value)? else {
        return Ok(None)
    };
    Ok(Some(InputSource::Pairs(Inputs::from_vec(inputs))))
}

/// Where the inputs of a guest come from, where the key is as it must be. Without the key there are none.
#[tactic(auto, unfolding(crate::specs::Guests::input_at))]
pub fn input_at(
    alloc: Global,
    format: Format,
    guest: &Table,
) -> Result<Option<InputSource>, AllocError>
    ensures { IfOk result (λ o. o ≡ input_at format (table_view guest.now)) }
{
    let Some(value) = value_at(guest, ConfigKey::Input) else {
        return Ok(Some(InputSource::Pairs(Inputs::from_vec(Vec::new(alloc)))))
    };
    match format {
        Format::One => pairs_in(alloc, value),
        Format::Two => file_in(alloc, value),
    }
}
