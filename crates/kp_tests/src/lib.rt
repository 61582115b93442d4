//! Tests of the libraries of this repository that no contract and no run of the program says already.
//! It stands on all of them, from the refusals up to the command line, and only on what they make public.
//! It shows that each library's calls answer what outside examples say, where memory is ample.
#![tactic(auto)]

#[cfg(test)]
mod batch_tests;
#[cfg(test)]
mod board_tests;
#[cfg(test)]
mod cli_tests;
#[cfg(test)]
mod cluster_tests;
#[cfg(test)]
mod control_tests;
#[cfg(test)]
mod device_tests;
#[cfg(test)]
mod draw_tests;
#[cfg(test)]
mod epoch_tests;
#[cfg(test)]
mod folder_tests;
#[cfg(test)]
mod index_tests;
#[cfg(test)]
mod log_tests;
#[cfg(test)]
mod log_truncation_tests;
#[cfg(test)]
mod logs;
#[cfg(test)]
mod node_consumed;
#[cfg(test)]
mod node_consumer_tests;
#[cfg(test)]
mod node_described;
#[cfg(test)]
mod node_meeting_tests;
#[cfg(test)]
mod node_seated;
#[cfg(test)]
mod node_tests;
#[cfg(test)]
mod producer_tests;
#[cfg(test)]
mod race_tests;
#[cfg(test)]
mod record_tests;
#[cfg(test)]
mod replica_played;
#[cfg(test)]
mod replica_restart_tests;
#[cfg(test)]
mod replica_tests;
#[cfg(test)]
mod shown;
#[cfg(test)]
mod transport_tests;
#[cfg(test)]
mod world_tests;
