//! What only calls show of controllers: replies that no store gives, refused plans, and what is left after a refused
//! allocation. What they send over lines is in `examples/cluster` and `checks/stories.txt`.
#![tactic(auto)]

#[cfg(test)]
mod allocation_failures;
#[cfg(test)]
mod clusters;
#[cfg(test)]
mod one_controller;
#[cfg(test)]
mod refused_crash;
#[cfg(test)]
mod sample;
#[cfg(test)]
mod turns;
#[cfg(test)]
mod wholes;
