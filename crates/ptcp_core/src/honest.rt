//! How near the clocks are to the truth.

ghost use Rattle.std.specs.Prelude.{◌≡◌, ℕ, ℤ, ◌+◌, ◌*◌, List, [], ◌∷◌, ◌++◌, All, length};
ghost use Rattle.irt_base.specs.Cycle.{budget_time, IsNear};
ghost use Rattle.ptcp_core.specs.Clocks.{SlaveState, fresh_slave, after_event, made_msg, state_of};
ghost use Rattle.ptcp_core.specs.Honest.{AreNear, SlaveClock, AreHonest, after_all, Relay, IsHonestRelay, relayed_by, travel_of};
ghost use Rattle.ptcp_core.specs.declared.messages.SyncMsg.{SyncMsg as Message};
ghost use Rattle.ptcp_core.specs.declared.slave.SyncEvent.{SyncEvent as Event};
ghost use Rattle.ptcp_core.specs.declared.slave.SyncState.TheVariants as states;

/// The law of a slave. After any list of honest events, a slave that is synced has an offset that
/// differs from the true one in the cycle ticked last by at most the budget. The slave after one event
/// more is what the event makes of the slave before it.
pub fn slave_law()
    ensures near { (clock : SlaveClock) (send timeout : ℕ) (events : List Event) (offset : ℤ) → AreHonest clock None events →
        state_of (after_all (fresh_slave send timeout) events) ≡ states.Synced offset →
        AreNear (budget_time clock.hops clock.stamp clock.drift send timeout) offset
        (clock.ahead (after_all (fresh_slave send timeout) events).ticked) }
    ensures more { (slave : SlaveState) (events : List Event) (event : Event) →
        after_all slave (events ++ event ∷ []) ≡ after_event (after_all slave events) event }
{}

/// The law of a sync message that devices relay. With honest delays and times of stay, what a slave
/// behind `length relays + 1` links knows of the message's travel differs from the true one by at most
/// `4 * stamp + 1` a link.
pub fn relay_law()
    ensures near { (stamp number cycle now line delay : ℕ) (relays : List Relay) (msg : Message) → All (IsHonestRelay stamp) relays →
        relayed_by (made_msg number cycle now) relays ≡ Some msg → IsNear (2 * stamp) line delay →
        IsNear ((length relays + 1) * (4 * stamp + 1)) (msg.correction + line) (travel_of relays + delay) }
    ensures counted { (number cycle now : ℕ) (relays : List Relay) (msg : Message) →
        relayed_by (made_msg number cycle now) relays ≡ Some msg → msg ≡ record (made_msg number cycle now) { hops = length relays; correction = msg.correction } }
{}
