//! Tests of the libraries through their public calls, where no script leads: values that no run brings to a map or a table, histories
//! that no run has, seats and steps of a book, refused requests for memory, gates that hold an actor.
#![tactic(auto)]

#[cfg(test)]
mod books;
#[cfg(test)]
mod clusters;
#[cfg(test)]
mod gates;
#[cfg(test)]
mod of_actors;
#[cfg(test)]
mod of_book;
#[cfg(test)]
mod of_clients;
#[cfg(test)]
mod of_cluster_core;
#[cfg(test)]
mod of_descriptors;
#[cfg(test)]
mod of_intervals;
#[cfg(test)]
mod of_lock_table;
#[cfg(test)]
mod of_placement;
#[cfg(test)]
mod of_rebuilt_server;
#[cfg(test)]
mod of_refused_memory;
#[cfg(test)]
mod of_threads;
#[cfg(test)]
mod of_waits;
#[cfg(test)]
mod of_weathers;
