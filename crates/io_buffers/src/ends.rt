//! How a cycle step takes and publishes, whichever kind of exchange each app has.

ghost use Rattle.std.specs.Prelude.{◌≡◌, ◌≢◌, ◌++◌, ◌∷◌, [], ◌<◌, ℕ, List, length};
ghost use Rattle.io_buffers.specs.Given.{Given, given};

use crate::taken::Taken;

/// The consumer's ends of the apps' output exchanges and the producer's ends of their input exchanges, with
/// room for one take and one publication of each app. What each take gives is settled before. Apps count
/// from 0.
pub trait Ends {
    // The number of apps.
    ghost apps: { Self → ℕ };

    // The words of an app's output.
    ghost output_words: { Self → ℕ → ℕ };

    // The words of an app's input.
    ghost input_words: { Self → ℕ → ℕ };

    // What a take from an app gives, now and after each call.
    ghost offers: { Self → ℕ → Given };

    // The takes given for an app since this value was made.
    ghost takes: { Self → ℕ → List Given };

    // The words published for an app since this value was made.
    ghost published: { Self → ℕ → List (List ℕ) };

    /// Takes from an app's output exchange into `out`.
    fn take(&mut self, app: usize, out: &mut [u64]) -> Taken
        requires app { app < apps self.old }
        requires words { length out.old ≡ output_words self.old app }
        requires room { takes self.old app ≡ [] }
        ensures given { given result out.new ≡ offers self.old app }
        ensures takes { takes self.new app ≡ takes self.old app ++ given result out.new ∷ [] }
        ensures other_takes { (other : ℕ) → other ≢ app → takes self.new other ≡ takes self.old other }
        ensures published { (other : ℕ) → published self.new other ≡ published self.old other }
        ensures offers { (other : ℕ) → offers self.new other ≡ offers self.old other }
        ensures apps { apps self.new ≡ apps self.old }
        ensures output_words { (other : ℕ) → output_words self.new other ≡ output_words self.old other }
        ensures input_words { (other : ℕ) → input_words self.new other ≡ input_words self.old other };

    /// Publishes the words to an app's input exchange.
    fn publish(&mut self, app: usize, words: &[u64])
        requires app { app < apps self.old }
        requires words { length words.now ≡ input_words self.old app }
        requires room { published self.old app ≡ [] }
        ensures published { published self.new app ≡ published self.old app ++ words.now ∷ [] }
        ensures other_published { (other : ℕ) → other ≢ app → published self.new other ≡ published self.old other }
        ensures takes { (other : ℕ) → takes self.new other ≡ takes self.old other }
        ensures offers { (other : ℕ) → offers self.new other ≡ offers self.old other }
        ensures apps { apps self.new ≡ apps self.old }
        ensures output_words { (other : ℕ) → output_words self.new other ≡ output_words self.old other }
        ensures input_words { (other : ℕ) → input_words self.new other ≡ input_words self.old other };
}
