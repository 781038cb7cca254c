//! Made scenarios, each by its number: 32 masters, of which each is better than those before it,
//! are heard one after another by the 32 ports of a clock with 16 clocks that drift.
#![tactic(auto)]

mod examples;
mod laws;
mod numbers;
mod records;
mod scenario_text;

pub use examples::{
    the_first_scenario_is_drawn, the_first_scenario_is_told, the_own_clock_is_the_default,
};
pub use laws::{records_are_of_three_types, records_rise, texts_stand_for_scenarios};
pub use scenario_text::text;

#[cfg(test)]
mod tests;
