//! Laws of first fit.

ghost use Rattle.std.specs.Prelude.{◌≡◌, ℕ, ◌+◌, ◌≤◌, ◌<◌, ◌↔◌, List, Some, Contains};
ghost use Rattle.irt_base.specs.Cycle.{SharesCycle, wire_time};
ghost use Rattle.irt_base.specs.declared.blocks.Bundle.{Bundle};
ghost use Rattle.irt_base.specs.declared.blocks.Entry.{Entry};
ghost use Rattle.irt_base.specs.declared.numbers.FrameId.{FrameId};
ghost use Rattle.irt_base.specs.declared.plants.Demand.{Demand};
ghost use Rattle.irt_base.specs.declared.plants.Plant.{Plant};
ghost use Rattle.irt_route.specs.Routes.{RouteTables, IsRoutesOf};
ghost use Rattle.irt_route.specs.Trees.{Parents};
ghost use Rattle.plan_rules.specs.Expected.{IsSafe};
ghost use Rattle.plan_rules.specs.Frames.{IsForwarded};
ghost use Rattle.plan_rules.specs.Places.{IsAccepted};
ghost use Rattle.plan_rules.specs.Plan.{IsPlan};
ghost use Rattle.plan_rules.specs.SendWindow.{SendWindow, HasWindow, slack_time};
ghost use Rattle.plan_rules.specs.Way.{Setup, IsAnchor};
ghost use Rattle.fit_rules.specs.declared.frame_plan.FramePlan.{FramePlan};
ghost use Rattle.fit_rules.specs.Blocks.{AreFirstFit};
ghost use Rattle.fit_rules.specs.Delays.{IsAtZero, AreRoomyAt, IsReadyAfter};
ghost use Rattle.fit_rules.specs.Shape.{alone, entry_of, moved, IsRatioFor, HasShape};
ghost use Rattle.fit_rules.specs.Fit.{IsUsing, IsClearAt, IsReady, IsFitted, IsInPhase, IsLastEnd, IsFirstFit, end_time};
ghost use Rattle.fit_rules.specs.Moves.{IsAlike, SharesWay, IsShifted, AreTooClose, AgreeAbove, offset_at};
ghost use Rattle.fit_rules.specs.Order.{IsDemandAt, parents_of, IsFit, IsOverrun};
ghost use Rattle.fit_rules.specs.Printed.{IsSchedule, IsRedEnd};

use irt_route::laws::{chains_of_trees, parents_of_trees};
use plan_rules::law::accepted_plans_are_safe;
use plan_rules::ways::ways_are_one;

/// The windows that hang on an anchor move with its offset. What a placed frame blocks at one offset it blocks at
/// all later ones up to its own end, and what ends too late does so at all later ones.
pub fn offsets_jump()
    ensures moves { (plant : Plant) (plan : FramePlan) (anchor x y device port : ℕ) (e : Entry) (w : SendWindow) →
        IsUsing plant (moved plan anchor x) device port e w → w.anchor ≡ anchor →
        (g : Entry) × (v : SendWindow) × IsAlike e g × IsUsing plant (moved plan anchor y) device port g v ×
        IsShifted x y w v }
    ensures blocked { (plant : Plant) (placed : List FramePlan) (plan : FramePlan) (anchor x y device port : ℕ) →
        (e : Entry) (w : SendWindow) → IsUsing plant (moved plan anchor x) device port e w → w.anchor ≡ anchor →
        (other : FramePlan) (f : Entry) (v : SendWindow) → Contains placed other → IsUsing plant other device port f v →
        SharesCycle e.ratio e.phase f.ratio f.phase → AreTooClose plant e w f v → x ≤ y →
        w.lo + y < x + v.hi + wire_time f.data_length + slack_time plant.window v.anchor w.anchor →
        ¬ IsClearAt plant placed plan anchor y }
    ensures late { (plant : Plant) (placed : List FramePlan) (plan : FramePlan) (anchor x y device port : ℕ) →
        (e : Entry) (w : SendWindow) → IsUsing plant (moved plan anchor x) device port e w → w.anchor ≡ anchor →
        plant.red_max < end_time plant device e w → x ≤ y → ¬ IsClearAt plant placed plan anchor y }
{}

/// In two plans of a demand, in any ratios and phases, windows differ by the offsets of the anchors on which they hang.
/// So one plan with all offsets 0 says how long after its anchor's offset each sending starts, and what arrives. An
/// anchor's offset may be any.
pub fn shapes_shift()
    ensures windows { (plant : Plant) (parents : Parents) (demand : Demand) →
        (ratio phase : ℕ) (plan : FramePlan) → HasShape plant parents demand ratio phase plan →
        (other_ratio other_phase : ℕ) (other : FramePlan) → HasShape plant parents demand other_ratio other_phase other →
        (device x y : ℕ) (w : SendWindow) → HasWindow (alone plant plan) plan.frame.0 device w →
        offset_at plan w.anchor ≡ Some x → offset_at other w.anchor ≡ Some y →
        (v : SendWindow) × HasWindow (alone plant other) other.frame.0 device v × IsShifted x y w v }
    ensures sendings { (plant : Plant) (parents : Parents) (demand : Demand) →
        (ratio phase : ℕ) (plan : FramePlan) → HasShape plant parents demand ratio phase plan →
        (other_ratio other_phase : ℕ) (other : FramePlan) → HasShape plant parents demand other_ratio other_phase other →
        (device port x y : ℕ) (e : Entry) (w : SendWindow) → IsUsing plant plan device port e w →
        offset_at plan w.anchor ≡ Some x → offset_at other w.anchor ≡ Some y →
        (g : Entry) × (v : SendWindow) × SharesWay e g × IsUsing plant other device port g v × IsShifted x y w v }
    ensures arrivals { (plant : Plant) (parents : Parents) (demand : Demand) →
        (ratio phase : ℕ) (plan : FramePlan) → HasShape plant parents demand ratio phase plan →
        (other_ratio other_phase : ℕ) (other : FramePlan) → HasShape plant parents demand other_ratio other_phase other →
        (device hop x y : ℕ) (e : Entry) (w : SendWindow) → IsForwarded (alone plant plan) device plan.frame.0 e hop w →
        offset_at plan w.anchor ≡ Some x → offset_at other w.anchor ≡ Some y →
        (g : Entry) × (v : SendWindow) × SharesWay e g ×
        IsForwarded (alone plant other) device other.frame.0 g hop v × IsShifted x y w v }
    ensures moved { (plant : Plant) (parents : Parents) (demand : Demand) →
        (ratio phase : ℕ) (plan : FramePlan) → HasShape plant parents demand ratio phase plan →
        (anchor x : ℕ) (e : Entry) → entry_of plan anchor ≡ Some e → IsAnchor (alone plant plan) anchor e →
        HasShape plant parents demand ratio phase (moved plan anchor x) }
{}

/// A plan whose anchors all start at 0 says in plain numbers, for all ratios and phases, at which offsets an anchor is
/// clear, and so long after which other offset it is ready.
pub fn fits_in_numbers()
    ensures clear { (plant : Plant) (parents : Parents) (demand : Demand) →
        (base_ratio base_phase : ℕ) (base : FramePlan) →
        HasShape plant parents demand base_ratio base_phase base → IsAtZero base →
        (ratio phase : ℕ) (plan : FramePlan) → HasShape plant parents demand ratio phase plan →
        (anchor x : ℕ) (e : Entry) → entry_of plan anchor ≡ Some e → IsAnchor (alone plant plan) anchor e →
        (placed : List FramePlan) →
        IsClearAt plant placed plan anchor x ↔ AreRoomyAt plant placed demand ratio phase base anchor x }
    ensures ready { (plant : Plant) (parents : Parents) (demand : Demand) →
        (base_ratio base_phase : ℕ) (base : FramePlan) →
        HasShape plant parents demand base_ratio base_phase base → IsAtZero base →
        (ratio phase : ℕ) (plan : FramePlan) → HasShape plant parents demand ratio phase plan →
        (device anchor gap y : ℕ) (e : Entry) → entry_of plan device ≡ Some e → IsReadyAfter plant base device anchor gap →
        offset_at plan anchor ≡ Some y → IsReady plant plan device e (y + gap) }
    ensures one_ready { (plant : Plant) (routes : RouteTables) (index : ℕ) (demand : Demand) → IsRoutesOf plant routes →
        IsDemandAt plant index demand → (plan : FramePlan) (device : ℕ) (e : Entry) (ready other : ℕ) →
        IsReady plant plan device e ready → IsReady plant plan device e other → ready ≡ other }
{
    ways_are_one();
    parents_of_trees();
    chains_of_trees();
}

/// Two plans of a demand in one ratio and phase have the same entries but for offsets. So an offset is clear in both or
/// in neither. Where they agree above an anchor, they agree at it if both are fitted there, and neither is fitted there
/// if nothing from the ready time on is clear.
pub fn shapes_are_one()
    ensures clear { (plant : Plant) (parents : Parents) (demand : Demand) (ratio phase : ℕ) (placed : List FramePlan) →
        (plan other : FramePlan) → HasShape plant parents demand ratio phase plan →
        HasShape plant parents demand ratio phase other →
        (device offset : ℕ) → IsClearAt plant placed plan device offset → IsClearAt plant placed other device offset }
    ensures fitted { (plant : Plant) (routes : RouteTables) (index : ℕ) (demand : Demand) → IsRoutesOf plant routes →
        IsDemandAt plant index demand → (placed : List FramePlan) (ratio phase : ℕ) (plan other : FramePlan) →
        HasShape plant (parents_of routes index) demand ratio phase plan →
        HasShape plant (parents_of routes index) demand ratio phase other → (device : ℕ) (e g : Entry) →
        entry_of plan device ≡ Some e → entry_of other device ≡ Some g → AgreeAbove plant plan other device e →
        IsFitted plant placed plan device e → IsFitted plant placed other device g → e.send_offset ≡ g.send_offset }
    ensures none { (plant : Plant) (routes : RouteTables) (index : ℕ) (demand : Demand) → IsRoutesOf plant routes →
        IsDemandAt plant index demand → (placed : List FramePlan) (ratio phase : ℕ) (plan other : FramePlan) →
        HasShape plant (parents_of routes index) demand ratio phase plan →
        HasShape plant (parents_of routes index) demand ratio phase other → (device : ℕ) (e g : Entry) →
        entry_of plan device ≡ Some e → entry_of other device ≡ Some g → AgreeAbove plant plan other device e →
        (ready : ℕ) → IsReady plant plan device e ready → ((x : ℕ) → ready ≤ x → ¬ IsClearAt plant placed plan device x) →
        ¬ IsFitted plant placed other device g }
{
    ways_are_one();
    parents_of_trees();
    chains_of_trees();
}

/// A demand has at most one ratio, a frame one last end; so there is at most one plan in a phase, and at most one first
/// fit beside the frames placed.
pub fn placements_are_one()
    ensures ratio { (plant : Plant) (demand : Demand) (ratio other : ℕ) → IsRatioFor plant demand ratio →
        IsRatioFor plant demand other → ratio ≡ other }
    ensures end { (plant : Plant) (plan : FramePlan) (end other : ℕ) → IsLastEnd plant plan end →
        IsLastEnd plant plan other → end ≡ other }
    ensures in_phase { (plant : Plant) (routes : RouteTables) (index : ℕ) (demand : Demand) → IsRoutesOf plant routes →
        IsDemandAt plant index demand → (placed : List FramePlan) (phase : ℕ) (plan other : FramePlan) →
        IsInPhase plant (parents_of routes index) placed demand phase plan →
        IsInPhase plant (parents_of routes index) placed demand phase other → plan ≡ other }
    ensures first { (plant : Plant) (routes : RouteTables) (index : ℕ) (demand : Demand) → IsRoutesOf plant routes →
        IsDemandAt plant index demand → (placed : List FramePlan) (plan other : FramePlan) →
        IsFirstFit plant (parents_of routes index) placed demand plan →
        IsFirstFit plant (parents_of routes index) placed demand other → plan ≡ other }
{
    ways_are_one();
    parents_of_trees();
    chains_of_trees();
}

/// What first fit gives is a plan, and the rules of a plan hold for it. So a planned plant is safe over every list of
/// world rows.
pub fn first_fit_is_accepted()
    ensures plan { (plant : Plant) (routes : RouteTables) (bundles : List Bundle) → IsRoutesOf plant routes →
        AreFirstFit plant routes bundles → IsPlan plant bundles }
    ensures accepted { (plant : Plant) (routes : RouteTables) (bundles : List Bundle) → IsRoutesOf plant routes →
        AreFirstFit plant routes bundles → IsAccepted plant bundles }
    ensures safe { (plant : Plant) (routes : RouteTables) (bundles : List Bundle) → IsRoutesOf plant routes →
        AreFirstFit plant routes bundles → IsSafe plant bundles }
{
    ways_are_one();
    parents_of_trees();
    chains_of_trees();
    accepted_plans_are_safe();
}

/// First fit has one answer: the same plans and the same bundles, or an overrun at the same frame.
pub fn first_fit_is_one()
    ensures plans { (plant : Plant) (routes : RouteTables) (plans others : List FramePlan) → IsRoutesOf plant routes →
        IsFit plant routes plans → IsFit plant routes others → plans ≡ others }
    ensures bundles { (plant : Plant) (routes : RouteTables) (bundles others : List Bundle) → IsRoutesOf plant routes →
        AreFirstFit plant routes bundles → AreFirstFit plant routes others → bundles ≡ others }
    ensures excluded { (plant : Plant) (routes : RouteTables) (plans : List FramePlan) (frame : FrameId) →
        IsRoutesOf plant routes → IsFit plant routes plans → IsOverrun plant routes frame → ⊥ }
    ensures overruns { (plant : Plant) (routes : RouteTables) (frame other : FrameId) → IsRoutesOf plant routes →
        IsOverrun plant routes frame → IsOverrun plant routes other → frame ≡ other }
{
    ways_are_one();
    parents_of_trees();
    chains_of_trees();
}

/// There are plans to choose from: each demand has a ratio, and in any ratio and phase a shape with all offsets 0.
pub fn shapes_exist()
    ensures ratios { (plant : Plant) (routes : RouteTables) (index : ℕ) (demand : Demand) → IsRoutesOf plant routes →
        IsDemandAt plant index demand → (ratio : ℕ) × IsRatioFor plant demand ratio }
    ensures shapes { (plant : Plant) (routes : RouteTables) (index : ℕ) (demand : Demand) → IsRoutesOf plant routes →
        IsDemandAt plant index demand → (ratio phase : ℕ) →
        (plan : FramePlan) × HasShape plant (parents_of routes index) demand ratio phase plan × IsAtZero plan }
{
    ways_are_one();
    parents_of_trees();
    chains_of_trees();
}

/// A frame of a plan has one ratio, phase and last planned time, and the plan one end of its red periods.
pub fn printed_values_are_one()
    ensures schedule { (setup : Setup) (demand : Demand) (ratio phase planned other_ratio other_phase other_planned : ℕ) →
        IsSchedule setup demand ratio phase planned → IsSchedule setup demand other_ratio other_phase other_planned →
        (ratio ≡ other_ratio) × (phase ≡ other_phase) × (planned ≡ other_planned) }
    ensures red { (bundles : List Bundle) (end other : ℕ) → IsRedEnd bundles end → IsRedEnd bundles other → end ≡ other }
{}
