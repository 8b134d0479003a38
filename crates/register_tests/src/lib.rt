//! The tests of what only threads or a user of the library can show: values that no text spells, rows of its calls, a shared register.
//!
//! Of a register, in one thread and in many: that it opens, that its calls are made and that it closes; that each seat reads
//! without the lock, that reads see the calls of all seats, and that they go on while a call is made. Of what is done over it:
//! that workers boot the slaves of a network, in threads of their own, and that a seat reads beside them. One file for each
//! topic.
#![tactic(auto)]

#[cfg(test)]
mod beside;
#[cfg(test)]
mod boot_support;
#[cfg(test)]
mod boots;
#[cfg(test)]
mod closing;
#[cfg(test)]
mod first_use;
#[cfg(test)]
mod holding;
#[cfg(test)]
mod readers;
#[cfg(test)]
mod reading;
#[cfg(test)]
mod routed;
#[cfg(test)]
mod rows;
#[cfg(test)]
mod seats;
#[cfg(test)]
mod side_by_side;
#[cfg(test)]
mod support;
#[cfg(test)]
mod teams;
#[cfg(test)]
mod threads;
#[cfg(test)]
mod versions;
