//! Tests of disks, segments, journals and registers, over what they make public.
#![tactic(auto)]

#[cfg(test)]
mod blind;
#[cfg(test)]
mod disks;
#[cfg(test)]
mod journals;
#[cfg(test)]
mod records;
#[cfg(test)]
mod register;
#[cfg(test)]
mod segments;
