//! Tests of the lock table, acknowledgements, recovery, the window, the partition server, the application and the client, over what their crates make public.
#![tactic(auto)]

#[cfg(test)]
mod acknowledgements;
#[cfg(test)]
mod application;
#[cfg(test)]
mod client;
#[cfg(test)]
mod locks;
#[cfg(test)]
mod recovery;
#[cfg(test)]
mod sent;
#[cfg(test)]
mod server;
#[cfg(test)]
mod window;
