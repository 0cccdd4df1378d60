// The list that holds the first actions of a plan.
ghost use Rattle.std.specs.Prelude.{◌≡◌, ◌≤◌, ◌+◌, [], ◌∷◌, ◌↔◌, IsTrue, OnOk, length};
ghost use Rattle.sets.specs.Truncation.{Adds};

use crate::action::Action;
use objects::Memory;
use std::alloc::Global;

/// The most actions of one plan.
const MAX_ACTIONS: usize = 1024;

/// The actions that were added, up to the 1,024th.
#[derive(Drop)]
pub(crate) struct Actions {
    pub list: Vec<Action>,
    ghost within: { length list.items ≤ 1024 },
}

impl Actions {
    pub fn new(alloc: Global) -> Actions
        ensures { result.list.items ≡ [] }
    {
        Actions {
            list: Vec::new(alloc),
        }
    }

    /// Whether whatever is added after these actions is left to the next plan.
    pub fn is_full(&self) -> bool
        ensures { IsTrue result ↔ (1024 ≤ length self.now.list.items) }
    {
        self.list.len() >= MAX_ACTIONS
    }

    /// How many more actions it can hold.
    pub fn room(&self) -> usize
        ensures { result + length self.now.list.items ≡ 1024 }
    {
        MAX_ACTIONS - self.list.len()
    }

    /// Adds an action, unless the list is full.
    #[tactic(auto, using(crate::proofs::Truncation::adds_one, crate::proofs::Truncation::adds_past))]
    pub fn add(&mut self, action: Action) -> Result<(), Memory>
        ensures { OnOk result (Adds self.old.list.items self.new.list.items (action ∷ [])) }
    {
        if self.list.len() < MAX_ACTIONS {
            self.list.push(action)?;
            Ok(())
        } else {
            drop(action);
            Ok(())
        }
    }
}
