//! Runs of programs over ledgers, whole, in turns and in batches, and outputs of memory, by public
//! calls of the libraries and with ample memory. What runs tell is told in words, so that a test
//! compares texts.
#![tactic(auto)]

#[cfg(test)]
mod batches;
#[cfg(test)]
mod files;
#[cfg(test)]
mod ledgers;
#[cfg(test)]
mod runs;
#[cfg(test)]
mod short_outputs;
#[cfg(test)]
mod words;
