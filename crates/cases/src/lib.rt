//! Executed cases of sources, readers, numbers, texts and the header.
#![tactic(auto)]

#[cfg(test)]
mod faults;
#[cfg(test)]
mod headers;
#[cfg(test)]
mod numbers;
#[cfg(test)]
mod readers;
#[cfg(test)]
mod sources;
#[cfg(test)]
mod texts;
