//! Whether what a record has of an app is legal, but for its images.

ghost use Rattle.std.specs.Prelude.{◌≡◌, ◌<◌, ◌↔◌, All, IfOk, IsTrue, length};
ghost use Rattle.io_buffers.specs.Given.{Given};
ghost use Rattle.iso_rules.specs.Legal.{Replies};
ghost use Rattle.iso_rules.specs.Station.{output_count};
ghost use Rattle.iso_rules.specs.declared.turn.Turn.{Turn};
ghost use Rattle.plan_rules.specs.Plan.{setup_of};
ghost use Rattle.run_judge.specs.Kept.{HasLegalNumbers, HasWholeWords, IsLegalButImages, IsLegalButReplies};
ghost use Rattle.run_replay.specs.Replayed.{HasAppShape};

use crate::devices::{input_words_of, output_words_of};
use irt_base::memory::NoMemory;
use irt_base::numbers::DevId;
use iso_app::IsoApp;
use iso_rules::turn::Turn;
use iso_run::lengths::output_lengths;
use log_numbers::{has_each_cycle, has_windows, keeps_up, never_falls_back};
use log_words::{has_whole_inputs, has_whole_outputs, replies};
use plan_check::accepted::Accepted;
use record_text::record::AppRecord;
use std::alloc::Global;

/// Whether the log of an app on a device is legal but for its images, where the app is in its first state. Then each
/// take has the words of the device's output.
/// # Errors
/// `NoMemory` where memory runs out.
pub fn is_kept<A: IsoApp>(
    alloc: Global,
    accepted: &Accepted,
    device: DevId,
    cycles: usize,
    app: A,
    log: &AppRecord,
) -> Result<bool, NoMemory>
    requires { device.0 < length accepted.now.bundles }
    ensures exact { IfOk result (λ b. IsTrue b ↔ IsLegalButImages A.reply A.next_state
        (setup_of accepted.now.plant accepted.now.bundles) cycles device.0 app log.now) }
    ensures shape { IfOk result (λ b. IsTrue b →
        HasAppShape (setup_of accepted.now.plant accepted.now.bundles) cycles device.0 log.now) }
{
    if !is_kept_but_replies(accepted, device, cycles, log) {
        return Ok(false);
    }
    are_replies(alloc, accepted, device, app, log.turns())
}

/// The same but for its replies too. Its takes have the words of the device's output where its turns have.
fn is_kept_but_replies(accepted: &Accepted, device: DevId, cycles: usize, log: &AppRecord) -> bool
    requires { device.0 < length accepted.now.bundles }
    ensures exact { IsTrue result ↔
        IsLegalButReplies (setup_of accepted.now.plant accepted.now.bundles) cycles device.0 log.now }
    ensures shape { IsTrue result → All (λ (t : Turn). length t.output ≡
        output_count (setup_of accepted.now.plant accepted.now.bundles) device.0) log.now.turns →
        HasAppShape (setup_of accepted.now.plant accepted.now.bundles) cycles device.0 log.now }
{
    has_legal_numbers(log, cycles) && has_whole_words(accepted, device, log)
}

/// Whether its takes and inputs are publications. They have the words of the device's output where its turns have.
fn has_whole_words(accepted: &Accepted, device: DevId, log: &AppRecord) -> bool
    requires { device.0 < length accepted.now.bundles }
    ensures exact { IsTrue result ↔
        HasWholeWords (setup_of accepted.now.plant accepted.now.bundles) device.0 log.now }
    ensures widths { IsTrue result → All (λ (t : Turn). length t.output ≡
        output_count (setup_of accepted.now.plant accepted.now.bundles) device.0) log.now.turns →
        All (λ (g : Given). length g.words ≡
        output_count (setup_of accepted.now.plant accepted.now.bundles) device.0) log.now.takes }
{
    has_whole_outputs(log, output_words_of(accepted, device))
        && has_whole_inputs(log, input_words_of(accepted, device))
}

fn has_legal_numbers(log: &AppRecord, cycles: usize) -> bool
    ensures { IsTrue result ↔ HasLegalNumbers cycles log.now }
{
    has_each_cycle(log, cycles)
        && never_falls_back(log)
        && keeps_up(log, cycles)
        && has_windows(log, cycles)
}

/// Whether each turn put out the app's reply.
fn are_replies<A: IsoApp>(
    alloc: Global,
    accepted: &Accepted,
    device: DevId,
    app: A,
    turns: &[Turn],
) -> Result<bool, NoMemory>
    requires { device.0 < length accepted.now.bundles }
    ensures exact { IfOk result (λ b. IsTrue b ↔ Replies A.reply A.next_state
        (setup_of accepted.now.plant accepted.now.bundles) device.0 app turns.now) }
    ensures widths { IfOk result (λ b. IsTrue b → All (λ (t : Turn). length t.output ≡
        output_count (setup_of accepted.now.plant accepted.now.bundles) device.0) turns.now) }
{
    let output_words = output_words_of(accepted, device);
    let lengths = output_lengths(alloc, accepted, device)?;
    replies(alloc, app, lengths.as_slice(), output_words, turns)
}
