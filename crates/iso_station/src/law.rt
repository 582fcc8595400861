//! The law of consumers.

ghost use Rattle.std.specs.Prelude.{ℕ, ◌+◌, List};
ghost use Rattle.irt_base.specs.declared.blocks.Bundle.{Bundle};
ghost use Rattle.iso_station.specs.Consumer.{image_in};
ghost use Rattle.iso_station.specs.Cycles.{consumer_after, IsHeldImage};
ghost use Rattle.rtc3_frame.specs.Frame.{Fields};

/// Over any list of cycles, in each of which a consumer took any frames, its image is: of each frame that the device
/// consumes, by ascending FrameID, the words that came last, until the frame was due in `HOLD_CYCLES` cycles since; and
/// zeros from then on, and before any came.
pub fn consumers_hold()
    ensures { (bundle : Bundle) (frames : ℕ → List Fields) (k : ℕ) →
        IsHeldImage bundle frames k (image_in (consumer_after bundle frames (k + 1))) }
{}
