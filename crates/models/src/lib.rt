// Models of bytes that have no mean worth watching, counters and states: how often each byte came (`HistogramDetector`), and how often one came after
// another (`MarkovDetector`). A model is a value and its counts are lent: each call takes the model with its counts and returns the model after it.
// Every call takes any model and any counts; a refusal returns the model that came in and leaves the counts.
#![tactic(auto)]

ghost use Rattle.std.specs.Prelude.{◌≡◌, IfOk, is_ok, ◌*◌, ◌%◌, ◌^◌, ◌≤◌, ◌<◌, pos, length};
ghost use Rattle.std.specs.Float.{binary32};
ghost use Rattle.std.specs.Float.Ieee.{of_int};
ghost use Rattle.models.specs.Counts.{sized, index_of, both_more, ratio, misfit_number, done, refused, probability_means};
ghost use Rattle.models.specs.Histogram.{bins_fit, word_of, has_seen, marked, fresh, anomalous, histogram_means, new_bins, observed, reset_bins, probability_of, judgement_means, judged_of};
ghost use Rattle.models.specs.Markov.{states_fit, cell_of, fresh_states, markov_means, new_states, moved, reset_states, score_of};

use conversion::nearest_u64;

// Counts below this are far from full.
const HALF: u64 = 1 << 63;

// An f32 holds each whole number up to this one.
const EXACT: u64 = 1 << 24;

// The map of the bytes that were seen, a bit for each: the word of the bytes from 0 on, from 64, from 128 and from 192.
// Four words and no array: a model goes by value, and an array in it would be copied through memory with each call.
#[derive(Clone, Copy, Default)]
pub struct Seen {
    pub from_0: u64,
    pub from_64: u64,
    pub from_128: u64,
    pub from_192: u64,
}

// How often bytes came: the number of bins, the number of observations, the bytes that were seen, and whether an observation left a count or the total full.
#[derive(Clone, Copy)]
pub struct HistogramDetector {
    pub size: usize,
    pub total: u64,
    pub seen: Seen,
    pub saturated: bool,
}

// How often a state came after another: the number of states, and whether an observation left a count full.
#[derive(Clone, Copy)]
pub struct MarkovDetector {
    pub size: usize,
    pub saturated: bool,
}

// Refusal 18: the size is out of range, or the lent counts do not fit it.
#[derive(Clone, Copy, Debug, PartialEq, Eq)]
pub struct Misfit;

impl From<Misfit> for u8 {
    ghost from_gives = { λ e n. n ≡ misfit_number e };

    fn from(_misfit: Misfit) -> u8 {
        18
    }
}

// What a call that changes a model returns: its answer, and the model after it.
// Both, and no Result of the model alone: a refusal returns one too (`histogram_means`, `markov_means`).
#[derive(Clone, Copy)]
pub struct Changed<M> {
    pub answer: Result<(), Misfit>,
    pub model: M,
}

// A count and the total that it is part of, each with one more, and the flag then, which is set where one of them is full.
#[derive(Clone, Copy)]
struct Grown {
    count: u64,
    total: u64,
    saturated: bool,
}

// Whether a size is 1 to `most`.
fn is_sized(size: usize, most: usize) -> bool
    ensures { result ≡ sized size most }
{
    (1..=most).contains(&size)
}

// One more of both, where one may become full: the largest count stays.
fn saturating(count: u64, total: u64, saturated: bool) -> Grown
    ensures { result ≡ both_more count total saturated }
{
    let next = count.saturating_add(1);
    let sum = total.saturating_add(1);
    Grown {
        count: next,
        total: sum,
        saturated: saturated || next == u64::MAX || sum == u64::MAX,
    }
}

// One more of both; far from full the flag stays what it was.
// Beside `saturating`, which would do for all: far from full nothing is asked. The one was not timed without the other.
fn count_one(count: u64, total: u64, saturated: bool) -> Grown
    ensures { result ≡ both_more count total saturated }
{
    if HALF <= count || HALF <= total {
        return saturating(count, total, saturated);
    }
    Grown {
        count: count + 1,
        total: total + 1,
        saturated,
    }
}

// The index of a byte, which is the byte modulo the size: by a mask where the size is a power of two.
// The mask and the remainder are of 8 bits, which was faster when it was timed.
fn index(value: u8, size: usize) -> usize
    requires { (1 ≤ size) × (size ≤ 256) }
    ensures { (result ≡ index_of size value) × (result < size) }
{
    if size.is_power_of_two() {
        return usize::from(value & ((size - 1) as u8));
    }
    usize::from(value % (size as u8))
}

// The place of a transition: row after row, the row that of `from`, the place in it that of `to`.
fn cell_index(from: u8, to: u8, size: usize) -> usize
    requires { (1 ≤ size) × (size ≤ 64) }
    ensures { (result ≡ cell_of size from to) × (result < size * size) × (result < 4096) }
{
    index(from, size) * size + index(to, size)
}

// The f32 nearest to a count. Up to `EXACT` the processor's own conversion loses nothing, and was faster when it was timed.
fn f32_of_count(n: u64) -> f32
    ensures { result ≡ of_int binary32 (pos n) }
{
    if n <= EXACT {
        (n as i64) as f32
    } else {
        nearest_u64(n)
    }
}

// A count's part of the total, and 0 where the total is 0.
fn ratio_of(count: u64, total: u64) -> f32
    ensures { result ≡ ratio count total }
{
    if total == 0 {
        return 0.0;
    }
    f32_of_count(count) / f32_of_count(total)
}

// The bit of a byte in its word.
fn bit(value: u8) -> u64
    ensures { result ≡ 2 ^ (value % 64) }
{
    1u64 << (value % 64)
}

impl Seen {
    // The word that a byte's bit is in, by three choices between two words: a `match` branches.
    fn word(self, value: u8) -> u64
        ensures { result ≡ word_of self value }
    {
        let even = if value < 128 {
            self.from_0
        } else {
            self.from_128
        };
        let odd = if value < 128 {
            self.from_64
        } else {
            self.from_192
        };
        if value % 128 < 64 { even } else { odd }
    }

    // Whether a byte was seen.
    fn has(self, value: u8) -> bool
        ensures { result ≡ has_seen self value }
    {
        (self.word(value) >> (value % 64)) % 2 == 1
    }

    // The map with a byte's bit set.
    fn mark(self, value: u8) -> Seen
        ensures { result ≡ marked self value }
    {
        if self.has(value) {
            return self;
        }
        let word = self.word(value) + bit(value);
        match value {
            0..=63 => Seen {
                from_0: word,
                ..self
            },
            64..=127 => Seen {
                from_64: word,
                ..self
            },
            128..=191 => Seen {
                from_128: word,
                ..self
            },
            _ => Seen {
                from_192: word,
                ..self
            },
        }
    }
}

impl<M> Changed<M> {
    // The call was done, and left this model.
    fn done(model: M) -> Changed<M>
        ensures { result ≡ done model }
    {
        Changed {
            answer: Ok(()),
            model,
        }
    }

    // The call was refused, and left the model that came in.
    fn refused(model: M) -> Changed<M>
        ensures { result ≡ refused model }
    {
        Changed {
            answer: Err(Misfit),
            model,
        }
    }
}

impl HistogramDetector {
    // A model with nothing observed.
    fn fresh(size: usize) -> HistogramDetector
        ensures { result ≡ fresh size }
    {
        HistogramDetector {
            size,
            total: 0,
            seen: Seen::default(),
            saturated: false,
        }
    }

    // Whether there are 1 to 256 bins, and as many counts.
    fn fits(self, counts: &[u64]) -> Result<(), Misfit>
        ensures told { is_ok result ≡ bins_fit self.size (length counts.now) }
        ensures inside { IfOk result (λ _. (1 ≤ self.size) × (self.size ≤ 256) × (length counts.now ≡ self.size)) }
    {
        if is_sized(self.size, 256) && counts.len() == self.size {
            Ok(())
        } else {
            Err(Misfit)
        }
    }

    // A model of so many bins with nothing observed, and its counts cleared, or refusal 18.
    pub fn new(size: usize, counts: &mut [u64]) -> Changed<HistogramDetector>
        ensures { histogram_means result counts.new ≡ new_bins size counts.old }
    {
        HistogramDetector::fresh(size).reset(counts)
    }

    // One observation of a byte, or refusal 18.
    pub fn observe(self, counts: &mut [u64], value: u8) -> Changed<HistogramDetector>
        ensures { histogram_means result counts.new ≡ observed self counts.old value }
    {
        let Ok(()) = self.fits(counts) else {
            return Changed::refused(self);
        };
        let seen = self.seen.mark(value);
        let i = index(value, self.size);
        let next = count_one(counts[i], self.total, self.saturated);
        counts[i] = next.count;
        Changed::done(HistogramDetector {
            size: self.size,
            total: next.total,
            seen,
            saturated: next.saturated,
        })
    }

    // The part of all observations that a byte's bin has, or refusal 18.
    pub fn probability(self, counts: &[u64], value: u8) -> Result<f32, Misfit>
        ensures { probability_means result ≡ probability_of self counts.now value }
    {
        self.fits(counts)?;
        Ok(ratio_of(counts[index(value, self.size)], self.total))
    }

    // Whether a byte is anomalous: not where the model is saturated or empty, and else where it was never seen or its bin is below the threshold.
    // The map and the bin are looked up first, so that the compiler need not look again in a host's `observe` of the same byte.
    fn flags(self, counts: &[u64], value: u8, threshold: f32) -> bool
        requires { (1 ≤ self.size) × (self.size ≤ 256) × (length counts.now ≡ self.size) }
        ensures { result ≡ anomalous self counts.now value threshold }
    {
        let known = self.seen.has(value);
        let i = index(value, self.size);
        let count = counts[i];
        !self.saturated && self.total != 0 && (!known || ratio_of(count, self.total) < threshold)
    }

    // The same, or refusal 18.
    pub fn is_anomalous(self, counts: &[u64], value: u8, threshold: f32) -> Result<bool, Misfit>
        ensures { judgement_means result ≡ judged_of self counts.now value threshold }
    {
        self.fits(counts)?;
        Ok(self.flags(counts, value, threshold))
    }

    // The model with nothing observed, and its counts cleared, or refusal 18.
    pub fn reset(self, counts: &mut [u64]) -> Changed<HistogramDetector>
        ensures { histogram_means result counts.new ≡ reset_bins self counts.old }
    {
        let Ok(()) = self.fits(counts) else {
            return Changed::refused(self);
        };
        counts.fill(0);
        Changed::done(HistogramDetector::fresh(self.size))
    }

    // Whether an observation left a count or the total full since the model was made or reset.
    pub fn saturated(self) -> bool
        ensures { result ≡ self.saturated }
    {
        self.saturated
    }
}

// No trait with the histogram: a call is lent two slices here and one there. The two stay apart: a struct of both needs a form to read and one to write.
impl MarkovDetector {
    // A model with nothing observed.
    fn fresh(size: usize) -> MarkovDetector
        ensures { result ≡ fresh_states size }
    {
        MarkovDetector {
            size,
            saturated: false,
        }
    }

    // Whether there are 1 to 64 states, as many transitions as their square, and as many row totals as states.
    #[tactic(auto, using(crate::proofs::Places::square_small))]
    fn fits(self, transition: &[u64], row_totals: &[u64]) -> Result<(), Misfit>
        ensures told { is_ok result ≡ states_fit self.size (length transition.now) (length row_totals.now) }
        ensures inside { IfOk result (λ _. (1 ≤ self.size) × (self.size ≤ 64) × (length transition.now ≡ self.size * self.size) × (length row_totals.now ≡ self.size)) }
    {
        if is_sized(self.size, 64)
            && transition.len() == self.size * self.size
            && row_totals.len() == self.size
        {
            Ok(())
        } else {
            Err(Misfit)
        }
    }

    // A model of so many states with nothing observed, and its counts cleared, or refusal 18.
    pub fn new(
        size: usize,
        transition: &mut [u64],
        row_totals: &mut [u64],
    ) -> Changed<MarkovDetector>
        ensures { markov_means result transition.new row_totals.new ≡ new_states size transition.old row_totals.old }
    {
        MarkovDetector::fresh(size).reset(transition, row_totals)
    }

    // One observation of the state `from` followed by `to`, or refusal 18.
    pub fn observe_transition(
        self,
        transition: &mut [u64],
        row_totals: &mut [u64],
        from: u8,
        to: u8,
    ) -> Changed<MarkovDetector>
        ensures { markov_means result transition.new row_totals.new ≡ moved self transition.old row_totals.old from to }
    {
        let Ok(()) = self.fits(transition, row_totals) else {
            return Changed::refused(self);
        };
        let row = index(from, self.size);
        let cell = cell_index(from, to, self.size);
        let next = count_one(transition[cell], row_totals[row], self.saturated);
        transition[cell] = next.count;
        row_totals[row] = next.total;
        Changed::done(MarkovDetector {
            size: self.size,
            saturated: next.saturated,
        })
    }

    // The part of its row that a transition has, or refusal 18. A saturated model answers as well.
    pub fn score_transition(
        self,
        transition: &[u64],
        row_totals: &[u64],
        from: u8,
        to: u8,
    ) -> Result<f32, Misfit>
        ensures { probability_means result ≡ score_of self transition.now row_totals.now from to }
    {
        self.fits(transition, row_totals)?;
        let row = index(from, self.size);
        let cell = cell_index(from, to, self.size);
        Ok(ratio_of(transition[cell], row_totals[row]))
    }

    // The model with nothing observed, and its counts cleared, or refusal 18.
    pub fn reset(self, transition: &mut [u64], row_totals: &mut [u64]) -> Changed<MarkovDetector>
        ensures { markov_means result transition.new row_totals.new ≡ reset_states self transition.old row_totals.old }
    {
        let Ok(()) = self.fits(transition, row_totals) else {
            return Changed::refused(self);
        };
        transition.fill(0);
        row_totals.fill(0);
        Changed::done(MarkovDetector::fresh(self.size))
    }

    // Whether an observation left a count full since the model was made or reset.
    pub fn saturated(self) -> bool
        ensures { result ≡ self.saturated }
    {
        self.saturated
    }
}
