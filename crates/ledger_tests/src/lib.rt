//! Tokens, directives that booking passes over, settings of ledgers, and stores of memory, by the
//! libraries' public calls, with ample memory.
#![tactic(auto)]

#[cfg(test)]
mod directives;
#[cfg(test)]
mod loading;
#[cfg(test)]
mod made;
#[cfg(test)]
mod memory_stores;
#[cfg(test)]
mod tokens;
