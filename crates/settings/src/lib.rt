// The settings of a sampler: their defaults, a setter for each, and the test that making a sampler makes.
#![tactic(auto)]

ghost use Rattle.std.specs.Prelude.{◌≡◌};
ghost use Rattle.settings.specs.Settings.{new_of, with_startup, with_candidates, with_noise, with_seed, with_slots, settings_ok};

#[derive(Clone, Copy)]
pub struct Settings {
    pub n_startup_trials: u64,
    pub n_candidates: u64,
    pub noise_variance: f64,
    pub seed: u64,
    pub slots: u64,
}

impl Settings {
    pub const N_STARTUP_TRIALS: u64 = 10;

    pub const N_CANDIDATES: u64 = 1000;

    pub const NOISE_VARIANCE: f64 = 1e-6;

    pub const SLOTS: u64 = 20;

    // The defaults, with a seed: it has none.
    pub fn new(seed: u64) -> Self
        ensures { result ≡ new_of seed }
    {
        Self {
            n_startup_trials: Self::N_STARTUP_TRIALS,
            n_candidates: Self::N_CANDIDATES,
            noise_variance: Self::NOISE_VARIANCE,
            seed,
            slots: Self::SLOTS,
        }
    }

    pub fn n_startup_trials(mut self, n: u64) -> Self
        ensures { result ≡ with_startup self n }
    {
        self.n_startup_trials = n;
        self
    }

    pub fn n_candidates(mut self, n: u64) -> Self
        ensures { result ≡ with_candidates self n }
    {
        self.n_candidates = n;
        self
    }

    pub fn noise_variance(mut self, v: f64) -> Self
        ensures { result ≡ with_noise self v }
    {
        self.noise_variance = v;
        self
    }

    pub fn seed(mut self, seed: u64) -> Self
        ensures { result ≡ with_seed self seed }
    {
        self.seed = seed;
        self
    }

    pub fn slots(mut self, n: u64) -> Self
        ensures { result ≡ with_slots self n }
    {
        self.slots = n;
        self
    }
}

// Whether every setting is in its range.
#[tactic(auto, unfolding(crate::specs::Settings::settings_ok))]
pub fn in_range(s: Settings) -> bool
    ensures { result ≡ settings_ok s }
{
    if s.n_startup_trials > 0x1_0000_0000 || s.n_candidates > 10000 || s.seed == 0 {
        return false;
    }
    0.0 <= s.noise_variance && s.noise_variance <= 1000000.0 && (1..=20).contains(&s.slots)
}
