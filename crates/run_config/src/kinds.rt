//! The tests of rows. A fault names the guest whose row it is, and none where it is a row of the document.

ghost use Rattle.std.specs.Prelude.{◌≡◌};
ghost use Rattle.toml.specs.View.{view, table_view};
ghost use Rattle.run_config.specs.Answers.{Passes};
ghost use Rattle.run_config.specs.Tests.{absent_among, absent_fault, out_of_range, wrong_among, wrong_kind};
ghost use Rattle.run_config.specs.Values.{is_of};

use crate::faults::ConfigFault;
use crate::keys::ConfigKey;
use crate::rows::{Kind, Row};
use crate::values::{has_length, number_within, value_at};
use toml::{Table, Value};

// Whether a value is of a kind.
#[tactic(auto, unfolding(crate::specs::Values::is_of))]
fn is_of(kind: Kind, value: &Value) -> bool
    ensures { result ≡ is_of kind (view value.now) }
{
    match kind {
        Kind::Own => true,
        Kind::AnyText => value.as_str().is_some(),
        Kind::TextOf(low, high) => match value.as_str() {
            Some(text) => has_length(low, high, text),
            None => false,
        },
        Kind::IntegerOf(low, high) => number_within(low, high, value).is_some(),
    }
}

// A value must be of the kind that its row says.
#[tactic(auto, unfolding(crate::specs::Tests::wrong_kind))]
fn of_kind(guest: Option<u32>, row: Row, value: &Value) -> Result<(), ConfigFault>
    ensures { Passes (wrong_kind guest row (view value.now)) result }
{
    if is_of(row.kind, value) {
        Ok(())
    } else {
        Err(ConfigFault::range(guest, row.key, value.as_integer()))
    }
}

// The value at the key of a row, where there is one, must be of its kind.
#[tactic(auto, unfolding(crate::specs::Tests::out_of_range))]
fn in_range(guest: Option<u32>, table: &Table, row: Row) -> Result<(), ConfigFault>
    ensures { Passes (out_of_range guest (table_view table.now) row) result }
{
    match value_at(table, row.key) {
        Some(value) => of_kind(guest, row, value),
        None => Ok(()),
    }
}

/// The key must be there.
#[tactic(auto, unfolding(crate::specs::Tests::absent_fault))]
pub fn present(guest: Option<u32>, table: &Table, key: ConfigKey) -> Result<(), ConfigFault>
    ensures { Passes (absent_fault guest (table_view table.now) key) result }
{
    match value_at(table, key) {
        Some(_) => Ok(()),
        None => Err(ConfigFault::missing(guest, key)),
    }
}

/// Each of these keys must be there.
#[tactic(auto, using(crate::proofs::RowTests::rows))]
pub fn all_present(guest: Option<u32>, table: &Table, rows: &[Row]) -> Result<(), ConfigFault>
    ensures { Passes (absent_among guest (table_view table.now) rows.now) result }
{
    for row in rows {
        present(guest, table, row.key)?;
    }
    Ok(())
}

/// Each value of these rows must be of its kind.
#[tactic(auto, using(crate::proofs::RowTests::rows))]
pub fn all_in_range(guest: Option<u32>, table: &Table, rows: &[Row]) -> Result<(), ConfigFault>
    ensures { Passes (wrong_among guest (table_view table.now) rows.now) result }
{
    for row in rows {
        in_range(guest, table, *row)?;
    }
    Ok(())
}
