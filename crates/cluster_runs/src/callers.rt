ghost use Rattle.std.specs.Prelude.{◌≡◌, ◌==◌, ◌+◌, ◌<◌, ◌≤◌, ◌≢◌, ℕ, true, false, length, None, Some, is_some, IfSome, IfOk, IfErr, OnOk, IsErrOf, if◌then◌else◌};
ghost use Rattle.std.specs.BTreeMap.{btree_map_len, get};
ghost use Rattle.std.specs.Ordering.{nat_cmp};
ghost use Rattle.cluster_runs.specs.Cluster.{Cluster, controller_at, is_used, lowest_unused, start, with_crash, with_used};
ghost use Rattle.cluster_runs.specs.UsedCallers.{AreCallers};
ghost use Rattle.cluster_runs.specs.Faults.{IsShort};
ghost use Rattle.cluster_runs.specs.Turns.{kubelet_at, kubelet_first};

use crate::fault::ClusterFault;
use crate::turn::Turn;
use history::MAX_CALLERS;
use std::alloc::Global;
use std::collections::BTreeMap;

/// The callers that were used.
#[derive(Drop)]
pub(crate) struct UsedCallers {
    /// For each controller, by its number: its caller.
    pub present: Vec<u64>,
    /// For each caller that was used: the number of the controller that it is or was, if any.
    pub owners: BTreeMap<u64, Option<usize>>,
    /// All callers below were used.
    pub unused: u64,
}

impl UsedCallers {
    /// The callers of `count` controllers, each with its own number.
    pub(crate) fn of(alloc: Global, count: usize) -> Result<UsedCallers, ClusterFault>
        ensures callers { IfOk result (λ callers. AreCallers count (start count) callers) }
        ensures too_many { IsErrOf result ClusterFault.TooManyCallers → 4096 < count }
        ensures reasons { IfErr result IsShort }
    {
        if MAX_CALLERS < count {
            return Err(ClusterFault::TooManyCallers);
        }
        let mut callers = UsedCallers {
            present: Vec::new(alloc),
            owners: BTreeMap::new(alloc),
            unused: 0,
        };
        for number in 0..count {
            callers.present.push(number as u64)?;
            callers.owners.insert(number as u64, Some(number))?;
        }
        Ok(callers)
    }

    pub(crate) fn is_used(&self, caller: u64) -> bool
        ensures known { result ≡ is_some (get nat_cmp self.now.owners caller) }
        ensures used { (count : ℕ) (k : Cluster) → AreCallers count k self.now → result ≡ is_used k caller }
    {
        self.owners.contains_key(&caller)
    }

    /// Whether a controller is or was this caller.
    pub(crate) fn is_controllers(&self, caller: u64) -> bool
        ensures { (count : ℕ) (k : Cluster) → AreCallers count k self.now → result ≡ is_some (k.incarnations caller) }
    {
        matches!(self.owners.get(&caller), Some(Some(_)))
    }

    /// The controller whose caller this now is.
    pub(crate) fn controller_at(&self, caller: u64) -> Option<usize>
        ensures there { IfSome result (λ c. c < length self.now.present.items) }
        ensures controller { (count : ℕ) (k : Cluster) → AreCallers count k self.now → result ≡ controller_at k caller }
    {
        let number = (*self.owners.get(&caller)?)?;
        if self.present.get(number) == Some(&caller) {
            Some(number)
        } else {
            None
        }
    }

    /// A client that is no controller uses the caller.
    pub(crate) fn admit(&mut self, caller: u64) -> Result<(), ClusterFault>
        ensures present { self.new.present ≡ self.old.present }
        ensures callers { OnOk result ((count : ℕ) (k : Cluster)
            → AreCallers count k self.old → k.incarnations caller ≡ None → AreCallers count (with_used k caller) self.new) }
        ensures too_many { IsErrOf result ClusterFault.TooManyCallers
            → (count : ℕ) (k : Cluster) → AreCallers count k self.old → 4096 < length (with_used k caller).used }
        ensures reasons { IfErr result IsShort }
    {
        if self.is_used(caller) {
            return Ok(());
        }
        self.put(caller, None)
    }

    /// The controller continues as the lowest caller that was not used.
    pub(crate) fn renew(&mut self, number: usize) -> Result<(), ClusterFault>
        requires { number < length self.old.present.items }
        ensures count { length self.new.present.items ≡ length self.old.present.items }
        ensures callers { OnOk result ((count : ℕ) (k : Cluster) → AreCallers count k self.old → AreCallers count (with_crash k number) self.new) }
        ensures fresh { OnOk result ((count : ℕ) (k : Cluster) → AreCallers count k self.old → is_used k (lowest_unused k) ≡ false) }
        ensures too_many { IsErrOf result ClusterFault.TooManyCallers
            → (count : ℕ) (k : Cluster) → AreCallers count k self.old → 4096 < length (with_crash k number).used }
        ensures reasons { IfErr result IsShort }
    {
        let Some(caller) = self.unused_below(MAX_CALLERS as u64) else {
            return Err(ClusterFault::TooManyCallers);
        };
        self.put(caller, Some(number))?;
        self.unused = caller;
        self.present[number] = caller;
        Ok(())
    }

    /// The lowest caller that was not used, if it is below the limit.
    fn unused_below(&self, limit: u64) -> Option<u64>
        ensures fresh { IfSome result (λ n. get nat_cmp self.now.owners n ≡ None) }
        ensures lowest { IfSome result (λ n. (m : ℕ) → self.now.unused ≤ m → m < n → is_some (get nat_cmp self.now.owners m) ≡ true) }
        ensures none { result ≡ None → (m : ℕ) → self.now.unused ≤ m → m < limit → is_some (get nat_cmp self.now.owners m) ≡ true }
    {
        (self.unused..limit).find(|caller| !self.owners.contains_key(caller))
    }

    /// The kubelet's caller in this turn: in the first turn that needs one, the lowest caller that was not used.
    pub(crate) fn kubelet_at(&self, kubelet: Option<u64>, turn: &Turn) -> Option<u64>
        ensures { (count : ℕ) (k : Cluster) → AreCallers count k self.now → result ≡ kubelet_at kubelet k turn.now }
    {
        match kubelet {
            Some(caller) => Some(caller),
            None => self.kubelet_first(turn),
        }
    }

    fn kubelet_first(&self, turn: &Turn) -> Option<u64>
        ensures { (count : ℕ) (k : Cluster) → AreCallers count k self.now → result ≡ kubelet_first k turn.now }
    {
        match turn {
            Turn::Settle { rounds } => self.fresh_if(0 < *rounds),
            _ => None,
        }
    }

    fn fresh_if(&self, wanted: bool) -> Option<u64>
        ensures { (count : ℕ) (k : Cluster) → AreCallers count k self.now → result ≡ (if wanted then Some (lowest_unused k) else None) }
    {
        if wanted { self.fresh() } else { None }
    }

    /// The lowest caller that was not used. There is one, since no more than the limit were used.
    fn fresh(&self) -> Option<u64>
        ensures { (count : ℕ) (k : Cluster) → AreCallers count k self.now → result ≡ Some (lowest_unused k) }
    {
        self.unused_below(MAX_CALLERS as u64 + 1)
    }

    /// Uses a caller that was not used.
    fn put(&mut self, caller: u64, owner: Option<usize>) -> Result<(), ClusterFault>
        requires { get nat_cmp self.old.owners caller ≡ None }
        ensures present { self.new.present ≡ self.old.present }
        ensures unused { self.new.unused ≡ self.old.unused }
        ensures owners { OnOk result ((n : ℕ) → get nat_cmp self.new.owners n ≡ (if n == caller then Some owner else get nat_cmp self.old.owners n)) }
        ensures many { OnOk result (btree_map_len self.new.owners ≡ btree_map_len self.old.owners + 1) }
        ensures few { OnOk result (btree_map_len self.old.owners ≢ 4096) }
        ensures too_many { IsErrOf result ClusterFault.TooManyCallers → btree_map_len self.old.owners ≡ 4096 }
        ensures reasons { IfErr result IsShort }
    {
        if self.owners.len() == MAX_CALLERS {
            return Err(ClusterFault::TooManyCallers);
        }
        self.owners.insert(caller, owner)?;
        Ok(())
    }
}
