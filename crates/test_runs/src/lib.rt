//! Tests of public calls of the processor, its candidates, schedules and delays, reports, and the debugger, with one
//! file for each subject: a crate that has tests of its own is proved a second time with them.
#![tactic(auto)]

#[cfg(test)]
mod candidates;
#[cfg(test)]
mod delays;
#[cfg(test)]
mod drains;
#[cfg(test)]
mod first_lines;
#[cfg(test)]
mod gathered;
#[cfg(test)]
mod logs;
#[cfg(test)]
mod plain_bodies;
#[cfg(test)]
mod processors;
#[cfg(test)]
mod report_lines;
#[cfg(test)]
mod schedules;
#[cfg(test)]
mod sessions;
