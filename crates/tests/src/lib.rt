//! Tests that cross crates:
//! - `kind_rules`: what the kinds accept at the edges of their rules, and turns that a short rule gets wrong;
//! - `store_memory`: the shelf and the bare store at the edges of their memory;
//! - `searches`: small searches through the table's calls;
//! - `sheet_limits`: malformed sheets, sheets at the limits of a table, the largest sheet, reports of sheets.
#![tactic(auto)]

#[cfg(test)]
mod kind_rules;
#[cfg(test)]
mod searches;
#[cfg(test)]
mod sheet_limits;
#[cfg(test)]
mod store_memory;
