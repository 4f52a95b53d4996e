// Every call of include/tracksaffron.h, for C and Rust to link: a module for each library `exports_*`, whose calls these are. Each export calls the
// library's function of its name, and states that one's clauses again, word for word (tests/promises).
#![tactic(auto)]

mod checksums;
mod jobs;
mod old_monitor;
mod pace;
mod pace_parsed;
mod pace_requests;
mod pathfinder;
mod pathfinder_parsed;
mod pathfinder_requests;
mod pathfinder_values;
mod restore;
mod tongzhu;
mod tongzhu_parsed;
mod tongzhu_requests;
