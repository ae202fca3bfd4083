//! Tests of devices, of the lines of schedules and of what they print, over what they make public.
#![tactic(auto)]

#[cfg(test)]
mod devices;
#[cfg(test)]
mod lines;
#[cfg(test)]
mod outcomes;
#[cfg(test)]
mod pools;
#[cfg(test)]
mod reading;
#[cfg(test)]
mod schedules;
