// Calls on the model of transitions that the script keeps, and on its two buffers of counts.
// Apart from the histogram: a call is lent two buffers here.
use crate::modelling::{lent, place_count, summed};
use crate::output::Output;
use crate::script::Fields;
use models::{Changed, MarkovDetector};

// Three calls place a model or a count, and answer nothing.
#[derive(Clone, Copy)]
pub enum Call {
    Place,
    PlaceTransition,
    PlaceRowTotal,
    Answered(Answered),
}

#[derive(Clone, Copy)]
pub enum Answered {
    New,
    ObserveTransition,
    Reset,
    ScoreTransition,
    Saturated,
    Counts,
}

impl TryFrom<u8> for Call {
    type Error = ();

    fn try_from(letter: u8) -> Result<Call, ()> {
        match letter {
            b'W' => Ok(Call::Place),
            b'T' => Ok(Call::PlaceTransition),
            b'U' => Ok(Call::PlaceRowTotal),
            b'A' => Ok(Call::Answered(Answered::New)),
            b'B' => Ok(Call::Answered(Answered::ObserveTransition)),
            b'X' => Ok(Call::Answered(Answered::Reset)),
            b'Q' => Ok(Call::Answered(Answered::ScoreTransition)),
            b'Y' => Ok(Call::Answered(Answered::Saturated)),
            b'K' => Ok(Call::Answered(Answered::Counts)),
            _ => Err(()),
        }
    }
}

// The model, and its counts: more transitions and more row totals than a model has.
#[derive(Drop)]
pub struct Markov {
    model: MarkovDetector,
    transition: [u64; 4200],
    row_totals: [u64; 100],
}

impl Markov {
    // The model before any call: no states, and nothing observed.
    pub fn none() -> Markov {
        Markov {
            model: MarkovDetector {
                size: 0,
                saturated: false,
            },
            transition: [0; 4200],
            row_totals: [0; 100],
        }
    }

    // What a call that changes the model answered, the model then, and the sum over all counts of both buffers then.
    fn told(&mut self, changed: Changed<MarkovDetector>, out: &mut Output) {
        let m = changed.model;
        self.model = m;
        out.done(changed.answer);
        let sum = summed(summed(0, &self.transition), &self.row_totals);
        out.fields(&[m.size as u64, u64::from(m.saturated), sum], 16);
    }

    // A model of any fields.
    fn place(&mut self, fields: &mut Fields) {
        self.model = MarkovDetector {
            size: fields.read(),
            saturated: fields.read(),
        };
    }

    // Both buffers are lent call by call: no function answers two parts of one struct to be written.
    fn answered(&mut self, call: Answered, fields: &mut Fields, out: &mut Output) {
        let model = self.model;
        match call {
            Answered::New => {
                let size: usize = fields.read();
                let cells = lent(fields, &mut self.transition);
                let rows = lent(fields, &mut self.row_totals);
                let changed = MarkovDetector::new(size, cells, rows);
                self.told(changed, out);
            }
            Answered::ObserveTransition => {
                let cells = lent(fields, &mut self.transition);
                let rows = lent(fields, &mut self.row_totals);
                let from: u8 = fields.read();
                let changed = model.observe_transition(cells, rows, from, fields.read());
                self.told(changed, out);
            }
            Answered::Reset => {
                let cells = lent(fields, &mut self.transition);
                let rows = lent(fields, &mut self.row_totals);
                let changed = model.reset(cells, rows);
                self.told(changed, out);
            }
            Answered::ScoreTransition => {
                let cells = lent(fields, &mut self.transition);
                let rows = lent(fields, &mut self.row_totals);
                let from: u8 = fields.read();
                out.told(model.score_transition(cells, rows, from, fields.read()));
            }
            Answered::Saturated => out.flag(model.saturated()),
            Answered::Counts => {
                out.fields(lent(fields, &mut self.transition), 16);
                out.fields(lent(fields, &mut self.row_totals), 16);
            }
        }
    }

    // The answer to a call.
    pub fn answer(&mut self, call: Call, fields: &mut Fields, out: &mut Output) {
        match call {
            Call::Place => self.place(fields),
            Call::PlaceTransition => place_count(fields, &mut self.transition),
            Call::PlaceRowTotal => place_count(fields, &mut self.row_totals),
            Call::Answered(call) => {
                out.byte(fields.letter);
                self.answered(call, fields, out);
                out.byte(b'\n');
            }
        }
    }
}
