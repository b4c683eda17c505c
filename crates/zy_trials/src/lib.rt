//! Tests of what no table of rows can show, up to nodes: the system's files, output, sockets and clock, and doubles of traits, as a
//! core that counts its calls or a link that fails.
#![tactic(auto)]

#[cfg(test)]
mod ask_alone;
#[cfg(test)]
mod cluster;
#[cfg(test)]
mod command_line;
#[cfg(test)]
mod group;
#[cfg(test)]
mod host_faults;
#[cfg(test)]
mod host_frames;
#[cfg(test)]
mod host_timers;
#[cfg(test)]
mod loopback;
#[cfg(test)]
mod output;
#[cfg(test)]
mod probe;
#[cfg(test)]
mod real_clock;
#[cfg(test)]
mod real_disk;
#[cfg(test)]
mod real_files;
#[cfg(test)]
mod sockets;
