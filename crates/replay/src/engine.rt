// Calls on the engine that the script keeps.
use crate::framing;
use crate::output::Output;
use crate::script::Fields;
use conversion::SignalDefinition;
use table::{Defined, SignalIdsEngine, TableError};

// One call makes an engine, and the others act on the one that there is.
#[derive(Clone, Copy)]
pub enum Call {
    New,
    OnMade(OnMade),
}

#[derive(Clone, Copy)]
pub enum OnMade {
    Define,
    Batch,
    Remove,
    Passes,
    Show,
    Process(framing::Call),
}

impl TryFrom<u8> for Call {
    type Error = ();

    fn try_from(letter: u8) -> Result<Call, ()> {
        match letter {
            b'e' => Ok(Call::New),
            b'd' => Ok(Call::OnMade(OnMade::Define)),
            b'b' => Ok(Call::OnMade(OnMade::Batch)),
            b'm' => Ok(Call::OnMade(OnMade::Remove)),
            b'y' => Ok(Call::OnMade(OnMade::Passes)),
            b's' => Ok(Call::OnMade(OnMade::Show)),
            b'f' => Ok(Call::OnMade(OnMade::Process(framing::Call::Frame))),
            b'F' => Ok(Call::OnMade(OnMade::Process(framing::Call::LentFrame))),
            b'g' => Ok(Call::OnMade(OnMade::Process(framing::Call::RawFrame))),
            _ => Err(()),
        }
    }
}

// What a call answered: case 0 is a slot, 1 success, 2 a refusal; and its number, 0 where it has none.
fn words(answer: Result<[u64; 2], TableError>) -> [u64; 2] {
    answer.unwrap_or_else(|error| [2, u64::from(u8::from(error))])
}

// The engine after a call that answers no slot.
fn done(call: Defined<()>, out: &mut Output) -> SignalIdsEngine {
    out.fields(&words(call.answer.map(|_| [1, 0])), 8);
    call.engine
}

// A fresh engine, or none where it is refused.
fn new(alpha: f32, threshold: f32, out: &mut Output) -> Option<SignalIdsEngine> {
    let call = SignalIdsEngine::new(alpha, threshold);
    let engine = done(call, out);
    call.answer.ok().map(|_| engine)
}

// One definition.
fn define(e: SignalIdsEngine, fields: &mut Fields, out: &mut Output) -> SignalIdsEngine {
    let call = e.define_signal(fields.definition());
    out.fields(&words(call.answer.map(|slot| [0, u64::from(slot)])), 8);
    call.engine
}

// A batch of the definitions that follow in the line, the first 64 of them.
fn batch(e: SignalIdsEngine, fields: &mut Fields, out: &mut Output) -> SignalIdsEngine {
    let count: usize = fields.read();
    let mut definitions = [SignalDefinition::default(); 64];
    for definition in definitions.iter_mut().take(count) {
        *definition = fields.definition();
    }
    done(e.define_signals_batch(definitions, count), out)
}

// The default definition defined, and its slot removed.
fn pass(e: SignalIdsEngine) -> SignalIdsEngine {
    let call = e.define_signal(SignalDefinition::default());
    match call.answer {
        Ok(slot) => call.engine.remove_signal(slot).engine,
        Err(_) => call.engine,
    }
}

// That many times, to bring the next slot up.
fn passes(mut e: SignalIdsEngine, times: u64, out: &mut Output) -> SignalIdsEngine {
    for _ in 0..times {
        e = pass(e);
    }
    out.field(u64::from(e.next_slot()), 8);
    e
}

// The count and the next slot, and each row of the table on a line of its own.
fn show(e: SignalIdsEngine, out: &mut Output) -> SignalIdsEngine {
    let n = e.signal_count();
    out.fields(&[n as u64, u64::from(e.next_slot())], 8);
    for (signal, detector) in e.signals.iter().zip(e.detectors.iter()).take(n) {
        out.text(b"\ns");
        out.field(u64::from(signal.slot), 8);
        out.definition(signal.definition);
        out.detector(*detector);
    }
    e
}

// The answer to a call on an engine: the engine then.
fn on_made(
    e: SignalIdsEngine,
    call: OnMade,
    fields: &mut Fields,
    out: &mut Output,
) -> SignalIdsEngine {
    match call {
        OnMade::Define => define(e, fields, out),
        OnMade::Batch => batch(e, fields, out),
        OnMade::Remove => done(e.remove_signal(fields.read()), out),
        OnMade::Passes => passes(e, fields.read(), out),
        OnMade::Show => show(e, out),
        OnMade::Process(call) => framing::answer(e, call, fields, out),
    }
}

// The answer to a call: the engine then, if there is one. A call on one that is not there is left out.
// In the form of detecting's `answer`, and no function for both: what makes an engine reads other fields than what makes a detector.
pub fn answer(
    engine: Option<SignalIdsEngine>,
    call: Call,
    fields: &mut Fields,
    out: &mut Output,
) -> Option<SignalIdsEngine> {
    let letter = fields.letter;
    let next = match call {
        Call::New => {
            out.byte(letter);
            new(fields.read(), fields.read(), out)
        }
        Call::OnMade(call) => {
            let e = engine?;
            out.byte(letter);
            Some(on_made(e, call, fields, out))
        }
    };
    out.byte(b'\n');
    next
}
