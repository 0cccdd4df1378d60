//! What `settle` does to a cluster of one controller and a kubelet, while nobody else writes: rounds over one plain
//! store, which bring the controller's set to rest.
#![tactic(auto)]

mod laws;

pub use laws::{
    lines_of_scripts_settle, sets_at_rest_stay_so_while_they_settle,
    sets_come_to_rest_when_they_settle, settling_is_rounds_over_a_plain_store,
};
