//! What a cycle's calls of `next` give, as a whole.

ghost use Rattle.std.specs.Prelude.{◌≡◌, ◌++◌, ℕ, List, slice_get};
ghost use Rattle.irt_base.specs.declared.plants.Class.{Class};
ghost use Rattle.period_gate.specs.Gate.{Waiting, queue_of, next_sent};
ghost use Rattle.period_gate.specs.SentList.{IsSentList, Gives, AreInOrder, left_of, end_from, sent_of, sent_parcels};
ghost use Rattle.period_gate.specs.declared.parcels.Sent.{Sent};

/// The law of a cycle. Where `next` is called first with 0 and then each time with the end that it
/// gave last, until it gives nothing, what it gave is the list that meets four conditions: each
/// parcel is the head of its class; it starts at the later of its class's begin and the end of the
/// one before; it ends by the limit, and is an orange one wherever the orange head would end by it;
/// and the list ends where no head would end by the limit. Exactly one list meets them, `sent_of`.
///
/// Once a front of the list was given, `next` gives the first of the rest. Each parcel starts at its class's begin
/// or later, after those before it have ended, and ends by the limit. Of each class a front of those that wait is sent.
pub fn cycle_law()
    ensures given { (gate : Waiting) (sent : List Sent) (last : Waiting) →
        Gives gate 0 sent last → IsSentList gate sent }
    ensures left { (gate : Waiting) (sent : List Sent) (last : Waiting) →
        Gives gate 0 sent last → last ≡ left_of gate sent }
    ensures gives { (gate : Waiting) (sent : List Sent) → IsSentList gate sent →
        Gives gate 0 sent (left_of gate sent) }
    ensures some { (gate : Waiting) → IsSentList gate (sent_of gate) }
    ensures only { (gate : Waiting) (sent other : List Sent) → IsSentList gate sent → IsSentList gate other →
        sent ≡ other }
    ensures rest { (gate : Waiting) (done rest : List Sent) → IsSentList gate (done ++ rest) →
        next_sent (left_of gate done) (end_from 0 done) ≡ slice_get rest 0 }
    ensures order { (gate : Waiting) (sent : List Sent) → IsSentList gate sent → AreInOrder gate sent }
    ensures front { (gate : Waiting) (sent : List Sent) → IsSentList gate sent → (kind : Class) →
        queue_of kind gate ≡ sent_parcels kind sent ++ queue_of kind (left_of gate sent) }
{}
