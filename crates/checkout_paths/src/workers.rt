//! How many workers a checkout has.
ghost use Rattle.std.specs.Prelude.{◌≡◌};
ghost use Rattle.checkout_paths.specs.Workers.{workers_for};

/// What the words and the settings say of the workers.
#[derive(Clone, Copy)]
pub struct Pace {
    /// `--workers`, from 1 to 16.
    pub asked: Option<u32>,
    /// `checkout.workers`, from 1 to 16.
    pub workers: u32,
    /// `checkout.thresholdForParallelism`, in files.
    pub threshold: u64,
}

/// How many workers write so many cards.
pub fn workers_for(pace: Pace, cards: usize) -> u32
    ensures { result ≡ workers_for pace.asked pace.workers pace.threshold cards }
{
    if (cards as u64) < pace.threshold {
        return 1;
    }
    pace.asked.unwrap_or(pace.workers)
}
