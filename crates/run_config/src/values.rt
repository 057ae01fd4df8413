//! What stands at a key of a table.

ghost use Rattle.std.specs.Prelude.{◌≡◌, ◌≤◌, ◌||◌, ◌++◌, bytes_eq, map, option_map, string_bytes, IfSome};
ghost use Rattle.std.specs.BTreeMap.{keys};
ghost use Rattle.std.specs.Char.{is_ascii_alphanumeric};
ghost use Rattle.std.specs.List.{list_all, list_any};
ghost use Rattle.toml.specs.Data.{get_member};
ghost use Rattle.toml.specs.View.{view, table_view};
ghost use Rattle.run_config.specs.Keys.{name_of};
ghost use Rattle.run_config.specs.Values.{has_length, has_only, is_name, natural, natural_or, number_within, text_at, text_within, value_at};

use crate::keys::ConfigKey;
use crate::rows::Row;
use toml::{Table, Value};

// The value at a key of this text.
#[tactic(auto, using(toml::proofs::Views::table_get))]
fn member_at<'a>(table: &'a Table, key: &str) -> Option<&'a Value>
    ensures { option_map (λ v. view v.now) result ≡ get_member key.now (table_view table.now) }
{
    table.get(key)
}

/// The value at a key.
#[tactic(auto, unfolding(crate::specs::Values::value_at))]
pub fn value_at<'a>(table: &'a Table, key: ConfigKey) -> Option<&'a Value>
    ensures { option_map (λ v. view v.now) result ≡ value_at key (table_view table.now) }
{
    member_at(table, key.text())
}

/// The integer as a number, where it is not negative.
#[tactic(auto, unfolding(crate::specs::Values::natural))]
pub fn natural(integer: i64) -> Option<u64>
    ensures { result ≡ natural integer }
{
    let Ok(number) = u64::try_from(integer) else {
        return None
    };
    Some(number)
}

/// The number that a value is, where it is an integer and within these limits.
#[tactic(auto, unfolding(crate::specs::Values::number_within))]
pub fn number_within(low: u64, high: u64, value: &Value) -> Option<u64>
    ensures number { result ≡ number_within low high (view value.now) }
    ensures most { IfSome result (λ number. number ≤ high) }
{
    let integer = value.as_integer()?;
    let number = natural(integer)?;
    if low <= number && number <= high {
        Some(number)
    } else {
        None
    }
}

/// Whether the text has at least and at most that many bytes.
#[tactic(auto, unfolding(crate::specs::Values::has_length))]
pub fn has_length(low: usize, high: usize, text: &str) -> bool
    ensures { result ≡ has_length low high text.now }
{
    low <= text.len() && text.len() <= high
}

/// The text that a value is, where it has at least and at most that many bytes.
#[tactic(auto, unfolding(crate::specs::Values::text_within))]
pub fn text_within(low: usize, high: usize, value: &Value) -> Option<&str>
    ensures { option_map (λ t. t.now) result ≡ text_within low high (view value.now) }
{
    let text = value.as_str()?;
    if has_length(low, high, text) {
        Some(text)
    } else {
        None
    }
}

/// The number at a key, and this one where there is none.
#[tactic(auto, unfolding(crate::specs::Values::natural_or))]
pub fn natural_or(absent: u64, table: &Table, key: ConfigKey) -> u64
    ensures { result ≡ natural_or absent key (table_view table.now) }
{
    let Some(value) = value_at(table, key) else {
        return absent
    };
    let Some(integer) = value.as_integer() else {
        return absent
    };
    match natural(integer) {
        Some(number) => number,
        None => absent,
    }
}

/// The text at a key: nothing where there is none.
#[tactic(auto, unfolding(crate::specs::Values::text_at))]
pub fn text_at(table: &Table, key: ConfigKey) -> &str
    ensures { result.now ≡ text_at key (table_view table.now) }
{
    let Some(value) = value_at(table, key) else {
        return ""
    };
    match value.as_str() {
        Some(text) => text,
        None => "",
    }
}

// Whether the text has letters and digits alone, all of them ASCII.
fn is_alphanumeric(text: &str) -> bool
    ensures { result ≡ list_all is_ascii_alphanumeric text.now }
{
    text.as_bytes()
        .iter()
        .all(|byte| byte.is_ascii_alphanumeric())
}

/// Whether the text is 1 to 32 ASCII letters and digits.
#[tactic(auto, unfolding(crate::specs::Values::is_name))]
pub fn is_name(text: &str) -> bool
    ensures { result ≡ is_name text.now }
{
    has_length(1, 32, text) && is_alphanumeric(text)
}

// Whether the text is the key of one of these rows.
fn is_among(text: &str, rows: &[Row]) -> bool
    ensures { result ≡ list_any (λ row. bytes_eq text.now (name_of row.key)) rows.now }
{
    rows.iter().any(|row| text == row.key.text())
}

// Whether the text is the key of a row of either list.
fn is_known(text: &str, rows: &[Row], options: &[Row]) -> bool
    ensures { result ≡ (list_any (λ row. bytes_eq text.now (name_of row.key)) rows.now
        || list_any (λ row. bytes_eq text.now (name_of row.key)) options.now) }
{
    is_among(text, rows) || is_among(text, options)
}

// Whether each key of the table is that of a row of either list.
fn are_known(table: &Table, rows: &[Row], options: &[Row]) -> bool
    ensures { result ≡ list_all (λ text.
        list_any (λ row. bytes_eq (string_bytes text) (name_of row.key)) rows.now
        || list_any (λ row. bytes_eq (string_bytes text) (name_of row.key)) options.now) (keys table.now) }
{
    table
        .keys()
        .all(|key| is_known(key.as_str(), rows, options))
}

/// Whether the table has no key beyond those of these rows.
#[tactic(auto, using(crate::proofs::Known::has_only_by_rows))]
pub fn has_only(table: &Table, rows: &[Row], options: &[Row]) -> bool
    ensures { result ≡ has_only (map (λ row. row.key) (rows.now ++ options.now)) (table_view table.now) }
{
    are_known(table, rows, options)
}
