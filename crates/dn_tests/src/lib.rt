//! Tests of what a stored run cannot show: sources and sinks that fail, the adapters of std, the table of pages beside a plain
//! list, and answers in bytes. What the libraries answer to values stands in the runs of dn_cases and dn_runs.
#![tactic(auto)]

#[cfg(test)]
mod answers;
#[cfg(test)]
mod faults;
#[cfg(test)]
mod fixtures;
#[cfg(test)]
mod io;
#[cfg(test)]
mod pages;
