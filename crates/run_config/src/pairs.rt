//! Arrays of two numbers.

ghost use Rattle.std.specs.Prelude.{◌≡◌, ◌≤◌, option_map, IfSome};
ghost use Rattle.toml.specs.View.{view, array_view};
ghost use Rattle.run_config.specs.Values.{pair_within, two_items};

use crate::values::number_within;
use toml::Value;
use toml::value::Array;

// The items of an array that has just two.
#[tactic(auto, unfolding(crate::specs::Values::two_items), using(crate::proofs::Items::items))]
fn two_items(items: &Array) -> Option<(&Value, &Value)>
    ensures { option_map (λ two. (view two.0.now, view two.1.now)) result ≡ two_items (array_view items.now) }
{
    match items.as_slice() {
        [] => None,
        [_] => None,
        [first, second] => Some((first, second)),
        [_, _, _, ..] => None,
    }
}

/// The two numbers of an array of two, each from 0 to at most that much.
#[tactic(auto, unfolding(crate::specs::Values::pair_within))]
pub fn pair_within(first_most: u64, second_most: u64, value: &Value) -> Option<(u64, u64)>
    ensures pair { result ≡ pair_within first_most second_most (view value.now) }
    ensures first { IfSome result (λ pair. pair.0 ≤ first_most) }
    ensures second { IfSome result (λ pair. pair.1 ≤ second_most) }
{
    let items = value.as_array()?;
    let (first, second) = two_items(items)?;
    let first = number_within(0, first_most, first)?;
    let second = number_within(0, second_most, second)?;
    Some((first, second))
}
