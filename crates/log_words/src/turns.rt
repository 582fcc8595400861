//! Whether the turns of an app put out its replies.

ghost use Rattle.std.specs.Prelude.{◌≡◌, ◌↔◌, ℕ, All, IfOk, IsTrue, length};
ghost use Rattle.iso_app.specs.Sealed.{sealed};
ghost use Rattle.iso_rules.specs.Legal.{Replies};
ghost use Rattle.iso_rules.specs.Station.{output_count, output_lengths};
ghost use Rattle.iso_rules.specs.declared.turn.Turn.{Turn};
ghost use Rattle.log_words.specs.Turns.{PutOutReplies};
ghost use Rattle.plan_rules.specs.Way.{Setup};

use irt_base::memory::NoMemory;
use iso_app::IsoApp;
use iso_app::seal::seal;
use iso_rules::turn::Turn;
use std::alloc::Global;

/// Whether each turn of an app put out its reply, sealed. Plays the turns from the app's first state over the inputs
/// of the record, up to the first other output. `lengths` are the words of each frame that its device provides, and
/// `output_words` those of all.
/// # Errors
/// `NoMemory` where memory runs out.
pub fn replies<A: IsoApp>(
    alloc: Global,
    app: A,
    lengths: &[u16],
    output_words: usize,
    turns: &[Turn],
) -> Result<bool, NoMemory>
    ensures exact { IfOk result (λ b. (setup : Setup) (device : ℕ) → lengths.now ≡ output_lengths setup device →
        output_words ≡ output_count setup device →
        IsTrue b ↔ Replies A.reply A.next_state setup device app turns.now) }
    ensures widths { IfOk result (λ b. IsTrue b → All (λ (t : Turn). length t.output ≡ output_words) turns.now) }
{
    let mut output = vec![in alloc; 0u64; output_words]?;
    Ok(are_replies(app, lengths, output.as_mut_slice(), turns))
}

/// Whether each turn put out the reply. The replies go into `output`, of as many words as a reply.
fn are_replies<A: IsoApp>(mut app: A, lengths: &[u16], output: &mut [u64], turns: &[Turn]) -> bool
    ensures exact { IsTrue result ↔
        PutOutReplies A.reply A.next_state lengths.now (length output.old) app turns.now }
    ensures widths { IsTrue result → All (λ (t : Turn). length t.output ≡ length output.old) turns.now }
{
    for turn in turns {
        if !is_reply(&mut app, lengths, output, turn) {
            return false;
        }
    }
    true
}

/// Makes a turn of an app over the recorded input, and says whether the recorded output is its reply.
fn is_reply<A: IsoApp>(app: &mut A, lengths: &[u16], output: &mut [u64], turn: &Turn) -> bool
    ensures reply { IsTrue result ↔
        (turn.now.output ≡ sealed lengths.now (A.reply app.old turn.now.input (length output.old))) }
    ensures next { app.new ≡ A.next_state app.old turn.now.input (length output.old) }
    ensures width { IsTrue result → length turn.now.output ≡ length output.old }
{
    app.turn(turn.input.as_slice(), output);
    seal(output, lengths);
    turn.output.as_slice() == output
}
