//! Tests of what no stored run can show, of whole commands and of the world that they run: calls that fail while a node, an ask
//! or the whole program runs, files of the greatest length, and replicas that step at the same time.
#![tactic(auto)]

#[cfg(test)]
mod each_call;
#[cfg(test)]
mod hosted;
#[cfg(test)]
mod meeting;
#[cfg(test)]
mod outside;
#[cfg(test)]
mod secrets;
#[cfg(test)]
mod texts;
#[cfg(test)]
mod top_faults;
#[cfg(test)]
mod top_files;
