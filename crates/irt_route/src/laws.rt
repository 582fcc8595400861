//! Laws of best walks and of their trees.

ghost use Rattle.std.specs.Prelude.{◌≡◌, ℕ, ◌⊎◌, List, ◌++◌, length};
ghost use Rattle.irt_base.specs.declared.numbers.DevId.{DevId};
ghost use Rattle.irt_base.specs.declared.numbers.PortNo.{PortNo};
ghost use Rattle.irt_route.specs.Routes.{IsAmong};
ghost use Rattle.irt_route.specs.Trees.{IsTreeStep, IsOnTree, IsParentChain, IsLeft};
ghost use Rattle.irt_route.specs.Walks.{Peers, IsWalk, IsBestWalk};

/// There is one best walk to a device, and a front of a best walk is the best walk to the device where
/// it ends.
pub fn fronts_of_best_walks()
    ensures one { (peers : Peers) (start : ℕ) (ports others : List PortNo) (end : ℕ) →
        IsBestWalk peers start ports end → IsBestWalk peers start others end → ports ≡ others }
    ensures fronts { (peers : Peers) (start : ℕ) (front back : List PortNo) (middle end : ℕ) →
        IsBestWalk peers start (front ++ back) end → IsWalk peers start front middle → IsBestWalk peers start front middle }
{}

/// In a tree of best walks a device has at most one parent, and the start has none.
pub fn parents_of_trees()
    ensures one { (peers : Peers) (start : ℕ) (ends : List DevId) (from other : DevId × PortNo) (to : ℕ) →
        IsTreeStep peers start (IsAmong ends) from to → IsTreeStep peers start (IsAmong ends) other to → from ≡ other }
    ensures start { (peers : Peers) (start : ℕ) (ends : List DevId) (from : DevId × PortNo) →
        IsTreeStep peers start (IsAmong ends) from start → ⊥ }
{}

/// From each device on a tree a chain of parents, as long as its walk, leads to the start, and a device
/// that no step leaves is one of the ends.
pub fn chains_of_trees()
    ensures chain { (peers : Peers) (start : ℕ) (ends : List DevId) (device : ℕ) → (on : IsOnTree peers start (IsAmong ends) device) →
        IsParentChain peers start (IsAmong ends) (length on.front) device }
    ensures leaves { (peers : Peers) (start : ℕ) (ends : List DevId) (device : ℕ) → IsOnTree peers start (IsAmong ends) device →
        IsAmong ends device ⊎ IsLeft peers start (IsAmong ends) device }
{}
