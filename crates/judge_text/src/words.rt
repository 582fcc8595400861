//! The words of the command line.

ghost use Rattle.irt_base.specs.Valid.{IsWithin};
ghost use Rattle.irt_base.specs.declared.limits.TheConstants.{MAX_CYCLES};

use irt_base::limits::MAX_CYCLES;

/// What is asked for: the file of a plant, a world, and the files of texts.
#[derive(Clone, Copy)]
pub struct Asked<'a> {
    pub plant: &'a str,
    pub cycles: u32,
    pub seed: u64,
    pub texts: &'a [String],
    ghost fits: { IsWithin 1 MAX_CYCLES cycles },
}

/// The plant, the number of cycles, the seed, and the names of texts.
pub fn asked_of(words: &[String]) -> Option<Asked<'_>> {
    let [plant, cycles, seed, texts @ ..] = words else {
        return None;
    };
    let cycles = cycles.as_str().parse::<u32>().ok()?;
    let seed = seed.as_str().parse::<u64>().ok()?;
    if cycles < 1 || MAX_CYCLES < cycles || texts.is_empty() {
        return None;
    }
    Some(Asked {
        plant: plant.as_str(),
        cycles,
        seed,
        texts,
    })
}
