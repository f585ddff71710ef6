// Calls on the histogram that the script keeps, and on its counts. The counts that a call is lent are the first ones of a buffer.
ghost use Rattle.std.specs.Prelude.{◌≡◌, ◌≤◌, length, take};

use crate::output::Output;
use crate::script::Fields;
use models::{Changed, HistogramDetector, Seen};

// Two calls place a model or a count, and answer nothing.
#[derive(Clone, Copy)]
pub enum Call {
    Place,
    PlaceBin,
    Answered(Answered),
}

#[derive(Clone, Copy)]
pub enum Answered {
    New,
    Observe,
    Reset,
    Probability,
    IsAnomalous,
    Saturated,
    Bins,
}

impl TryFrom<u8> for Call {
    type Error = ();

    fn try_from(letter: u8) -> Result<Call, ()> {
        match letter {
            b'V' => Ok(Call::Place),
            b'C' => Ok(Call::PlaceBin),
            b'N' => Ok(Call::Answered(Answered::New)),
            b'O' => Ok(Call::Answered(Answered::Observe)),
            b'R' => Ok(Call::Answered(Answered::Reset)),
            b'P' => Ok(Call::Answered(Answered::Probability)),
            b'J' => Ok(Call::Answered(Answered::IsAnomalous)),
            b'S' => Ok(Call::Answered(Answered::Saturated)),
            b'H' => Ok(Call::Answered(Answered::Bins)),
            _ => Err(()),
        }
    }
}

// The counts that a call is lent: as many as the script says, or all.
pub fn lent<'c>(fields: &mut Fields, counts: &'c mut [u64]) -> &'c mut [u64]
    ensures { (length result.now ≤ length counts.old) × (result.now ≡ take (length result.now) counts.old) }
{
    let asked: usize = fields.read();
    let n = asked.min(counts.len());
    &mut counts[..n]
}

// A sum over all counts behind another sum, mixed so that each bit and each place tells.
pub fn summed(before: u64, counts: &[u64]) -> u64 {
    let mut sum = before;
    for count in counts {
        sum ^= sum << 13;
        sum ^= sum >> 7;
        sum ^= sum << 17;
        sum ^= *count;
    }
    sum
}

// One count of a buffer becomes a number. A place outside of it is left out.
pub fn place_count(fields: &mut Fields, counts: &mut [u64]) {
    let i: usize = fields.read();
    let value: u64 = fields.read();
    if let Some(count) = counts.get_mut(i) {
        *count = value;
    }
}

// The histogram, and the buffer of its counts, which has more of them than a histogram.
#[derive(Drop)]
pub struct Histogram {
    model: HistogramDetector,
    bins: [u64; 300],
}

impl Histogram {
    // The model before any call: no bins, and nothing observed.
    pub fn none() -> Histogram {
        Histogram {
            model: HistogramDetector {
                size: 0,
                total: 0,
                seen: Seen::default(),
                saturated: false,
            },
            bins: [0; 300],
        }
    }

    // What a call that changes the model answered, the model then, and the sum over all counts then.
    fn told(&mut self, changed: Changed<HistogramDetector>, out: &mut Output) {
        let m = changed.model;
        self.model = m;
        out.done(changed.answer);
        out.fields(
            &[
                m.size as u64,
                m.total,
                m.seen.from_0,
                m.seen.from_64,
                m.seen.from_128,
                m.seen.from_192,
                u64::from(m.saturated),
                summed(0, &self.bins),
            ],
            16,
        );
    }

    // A model of any fields.
    fn place(&mut self, fields: &mut Fields) {
        self.model = HistogramDetector {
            size: fields.read(),
            total: fields.read(),
            seen: Seen {
                from_0: fields.read(),
                from_64: fields.read(),
                from_128: fields.read(),
                from_192: fields.read(),
            },
            saturated: fields.read(),
        };
    }

    fn answered(&mut self, call: Answered, fields: &mut Fields, out: &mut Output) {
        let model = self.model;
        match call {
            Answered::New => {
                let size: usize = fields.read();
                let bins = lent(fields, &mut self.bins);
                let changed = HistogramDetector::new(size, bins);
                self.told(changed, out);
            }
            Answered::Observe => {
                let bins = lent(fields, &mut self.bins);
                let changed = model.observe(bins, fields.read());
                self.told(changed, out);
            }
            Answered::Reset => {
                let bins = lent(fields, &mut self.bins);
                let changed = model.reset(bins);
                self.told(changed, out);
            }
            Answered::Probability => {
                let bins = lent(fields, &mut self.bins);
                out.told(model.probability(bins, fields.read()));
            }
            Answered::IsAnomalous => {
                let bins = lent(fields, &mut self.bins);
                let value: u8 = fields.read();
                out.told(model.is_anomalous(bins, value, fields.read()));
            }
            Answered::Saturated => out.flag(model.saturated()),
            Answered::Bins => out.fields(lent(fields, &mut self.bins), 16),
        }
    }

    // The answer to a call.
    pub fn answer(&mut self, call: Call, fields: &mut Fields, out: &mut Output) {
        match call {
            Call::Place => self.place(fields),
            Call::PlaceBin => place_count(fields, &mut self.bins),
            Call::Answered(call) => {
                out.byte(fields.letter);
                self.answered(call, fields, out);
                out.byte(b'\n');
            }
        }
    }
}
