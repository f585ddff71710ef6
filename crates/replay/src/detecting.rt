// Calls on the detector that the script keeps.
use crate::output::Output;
use crate::script::Fields;
use conversion::bits_of_f32;
use detector::{AnomalyScore, DetectorError, EwmaDetector, Updated, Verdict, update_in_place};

// Two calls make a detector, and the others act on the one that there is.
#[derive(Clone, Copy)]
pub enum Call {
    New,
    WithOptions,
    OnMade(OnMade),
}

#[derive(Clone, Copy)]
pub enum OnMade {
    Update,
    UpdateInPlace,
    Tell,
    SetFreezeDuration,
    Recalibrate,
}

impl TryFrom<u8> for Call {
    type Error = ();

    fn try_from(letter: u8) -> Result<Call, ()> {
        match letter {
            b'a' => Ok(Call::New),
            b'o' => Ok(Call::WithOptions),
            b'u' => Ok(Call::OnMade(OnMade::Update)),
            b't' => Ok(Call::OnMade(OnMade::UpdateInPlace)),
            b'k' => Ok(Call::OnMade(OnMade::Tell)),
            b'z' => Ok(Call::OnMade(OnMade::SetFreezeDuration)),
            b'c' => Ok(Call::OnMade(OnMade::Recalibrate)),
            _ => Err(()),
        }
    }
}

// 0 or the refusal's number, and the detector then, which is the other one beside a refusal.
fn settled(
    answer: Result<EwmaDetector, DetectorError>,
    other: EwmaDetector,
    out: &mut Output,
) -> EwmaDetector {
    let d = answer.unwrap_or(other);
    out.done(answer.map(|_| ()));
    out.detector(d);
    d
}

// A fresh detector, or none where it is refused.
fn made(answer: Result<EwmaDetector, DetectorError>, out: &mut Output) -> Option<EwmaDetector> {
    settled(answer, EwmaDetector::idle(), out);
    answer.ok()
}

// What the Rust answers: no score for what was ignored and for the first sample, and 0 while warming.
fn score_of(verdict: Verdict) -> Option<AnomalyScore> {
    match verdict {
        Verdict::Ignored | Verdict::First => None,
        Verdict::Warming => Some(AnomalyScore {
            z_score: 0.0,
            is_anomalous: false,
        }),
        Verdict::Scored(score) => Some(score),
    }
}

fn case_number(verdict: Verdict) -> u64 {
    match verdict {
        Verdict::Ignored => 0,
        Verdict::First => 1,
        Verdict::Warming => 2,
        Verdict::Scored(_) => 3,
    }
}

// What a sample was, and the detector then; on a line of its own the case.
fn sampled(updated: Updated, out: &mut Output) -> EwmaDetector {
    let words = match score_of(updated.verdict) {
        None => [0, 0, 0],
        Some(score) => [
            1,
            u64::from(bits_of_f32(score.z_score)),
            u64::from(score.is_anomalous),
        ],
    };
    out.fields(&words, 8);
    out.detector(updated.detector);
    out.text(b"\nv");
    out.field(case_number(updated.verdict), 1);
    updated.detector
}

// One sample on a detector that is lent for it.
fn lent(mut detector: EwmaDetector, value: f32) -> Updated {
    let verdict = update_in_place(&mut detector, value);
    Updated { detector, verdict }
}

// What the detector tells of itself.
fn told(d: EwmaDetector, out: &mut Output) -> EwmaDetector {
    out.float(d.mean());
    out.float(d.variance());
    out.field(u64::from(d.count()), 8);
    d
}

// The answer to a call on a detector: the detector then.
fn on_made(d: EwmaDetector, call: OnMade, fields: &mut Fields, out: &mut Output) -> EwmaDetector {
    match call {
        OnMade::Update => sampled(d.update(fields.read()), out),
        OnMade::UpdateInPlace => sampled(lent(d, fields.read()), out),
        OnMade::Tell => told(d, out),
        OnMade::SetFreezeDuration => settled(d.set_freeze_duration(fields.read()), d, out),
        OnMade::Recalibrate => settled(Ok(d.recalibrate(fields.read())), d, out),
    }
}

// The answer to a call: the detector then, if there is one. A call on one that is not there is left out.
pub fn answer(
    detector: Option<EwmaDetector>,
    call: Call,
    fields: &mut Fields,
    out: &mut Output,
) -> Option<EwmaDetector> {
    let letter = fields.letter;
    let next = match call {
        Call::New => {
            out.byte(letter);
            made(EwmaDetector::new(fields.read(), fields.read()), out)
        }
        Call::WithOptions => {
            out.byte(letter);
            made(
                EwmaDetector::with_options(
                    fields.read(),
                    fields.read(),
                    fields.read(),
                    fields.read(),
                ),
                out,
            )
        }
        Call::OnMade(call) => {
            let d = detector?;
            out.byte(letter);
            Some(on_made(d, call, fields, out))
        }
    };
    out.byte(b'\n');
    next
}
