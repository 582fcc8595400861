//! Plans that were accepted.

ghost use Rattle.std.specs.Prelude.{◌≡◌, IfOk};
ghost use Rattle.irt_window.specs.Trees.{AreWindows};
ghost use Rattle.plan_check.specs.Settled.{IsSettled};
ghost use Rattle.plan_rules.specs.Expected.{IsSafe};
ghost use Rattle.plan_rules.specs.Places.{IsAccepted};
ghost use Rattle.plan_rules.specs.Plan.{IsPlan};

use deep_copy::{DeepCopy, copy_items};
use irt_base::blocks::Bundle;
use irt_base::list::Items;
use irt_base::memory::NoMemory;
use irt_base::plants::Plant;
use irt_window::windows::Windows;
use plan_rules::law::accepted_plans_are_safe;
use std::alloc::Global;
use std::marker::Model;

/// A plan that was accepted: its rules V1..V15 hold everywhere. Only `check` makes one.
#[derive(Drop)]
pub struct Accepted {
    plant: Plant,
    bundles: Items<Bundle>,
    windows: Windows,
}

impl Model for Accepted {
    ghost use Rattle.plan_check.specs.Settled.{Settled, IsSettled};

    ghost Value = { Settled };

    ghost view = { λ a. record { plant = a.plant; bundles = a.bundles; windows = a.windows } };

    ghost invariant = { λ a. IsSettled a.plant a.bundles a.windows };
}

impl Accepted {
    /// Keeps copies of a plant and of its devices' blocks, with the windows of its frames.
    pub(crate) fn new(
        alloc: Global,
        plant: &Plant,
        bundles: &[Bundle],
        windows: Windows,
    ) -> Result<Accepted, NoMemory>
        requires { IsSettled plant.now bundles.now windows }
        ensures { IfOk result (λ a. a ≡ record { plant = plant.now; bundles = bundles.now; windows = windows }) }
    {
        Ok(Accepted {
            plant: plant.deep_copy(alloc)?,
            bundles: copy_items(alloc, bundles)?,
            windows,
        })
    }

    /// The plant.
    pub fn plant(&self) -> &Plant
        ensures { result.now ≡ self.now.plant }
    {
        &self.plant
    }

    /// The blocks of its devices.
    pub fn bundles(&self) -> &[Bundle]
        ensures { result.now ≡ self.now.bundles }
    {
        self.bundles.as_slice()
    }

    /// When each frame is sent at each device.
    pub fn windows(&self) -> &Windows
        ensures { result.now ≡ self.now.windows }
    {
        &self.windows
    }

    /// What holds of every accepted plan. It does nothing when it runs.
    pub fn facts(&self)
        ensures plan { IsPlan self.now.plant self.now.bundles }
        ensures accepted { IsAccepted self.now.plant self.now.bundles }
        ensures ways { AreWindows self.now.plant self.now.bundles self.now.windows }
        ensures safe { IsSafe self.now.plant self.now.bundles }
    {
        let _plant = &self.plant;
        accepted_plans_are_safe();
    }
}
